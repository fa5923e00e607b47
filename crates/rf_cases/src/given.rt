//! What a case runs the program on, and what comes of it.

use crate::fault::Fault;

/// Bytes with a name.
#[derive(Drop)]
pub struct Named {
    /// The name.
    pub name: String,
    /// The bytes.
    pub bytes: Vec<u8>,
}

/// How much the outside moves, and which of its calls fail; calls are numbered from 1, and 0 is none.
#[derive(Clone, Copy)]
pub struct Limits {
    /// The most bytes that one call of the input or the output moves.
    pub most: usize,
    /// The bytes for which the output has room.
    pub room: usize,
    /// The read that fails.
    pub read: usize,
    /// The write that fails.
    pub write: usize,
    /// The fetch of a file that fails.
    pub fetch: usize,
}

/// What the program is run on.
#[derive(Drop)]
pub struct Given {
    /// The words of the command line.
    pub words: Vec<String>,
    /// The files.
    pub files: Vec<Named>,
    /// The input.
    pub input: Vec<u8>,
    /// What the outside moves, and where it fails.
    pub limits: Limits,
}

/// What came of a run.
#[derive(Drop)]
pub struct Outcome {
    /// The exit status.
    pub status: usize,
    /// The output.
    pub written: Vec<u8>,
}

/// What cases are run by.
pub trait Program {
    /// Runs the program once.
    fn run(&mut self, given: Given) -> Result<Outcome, Fault>;
}

//! How a call of the program ended.

ghost use Rattle.std.specs.Prelude.{◌≡◌};

/// How a call of the program ended, numbered as the process's exit status.
#[derive(Clone, Copy, PartialEq, Eq)]
pub enum Status {
    /// All was done, and nothing was refused.
    Done = 0,
    /// All was done, and something was refused.
    Refused = 1,
    /// The words of the command line are no command.
    Words = 2,
    /// The input failed.
    Read = 3,
    /// The output failed.
    Write = 4,
    /// A file failed.
    Shelf = 5,
    /// No memory was found.
    Memory = 6,
    /// The input is too long.
    Long = 7,
}

impl Status {
    ghost use Rattle.rf_base.specs.Status.{exit_code_of};

    /// The exit status of the process.
    pub fn exit_code(self) -> u8
        ensures { result ≡ exit_code_of self }
    {
        self as u8
    }
}

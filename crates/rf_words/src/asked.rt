//! The tasks that a command line can name.

use crate::word::Word;

/// How many lines a demonstration may draw.
pub const MAX_DEMO_LINES: u32 = 100_000;

/// What the words of the command line ask for.
#[derive(Drop)]
pub enum Asked {
    /// A session over the input.
    Session,
    /// The judgement of the log in the file `log` over the show that the lines of the file `show` make.
    Check { show: Word, log: Word },
    /// The audit of the log in the file `log` over the same show.
    Audit { show: Word, log: Word },
    /// The demonstration of `count` lines that are drawn from `seed`.
    Demo { seed: u32, count: u32 },
}

//! What is answered.

use rf_base::Items;
use rf_log::LogLine;

/// How much wider all spacings and margins that aren't 0 can be, in kHz.
#[derive(Drop)]
pub enum Widest {
    /// By `extra`, at most 999, with a plan; the lines refute the show that is wider by one more.
    Greatest {
        extra: u32,
        plan: Items<u32>,
        log: Items<LogLine>,
    },
    /// By 1,000, with a plan; more isn't asked.
    Most {
        plan: Items<u32>,
    },
    /// The lines refute the show as it is.
    Refuted {
        log: Items<LogLine>,
    },
    /// The budget was used up at `extra`. Below it there is a plan, and above it a refutation, where they are known.
    Spent {
        extra: u32,
        log: Items<LogLine>,
        below: Option<(u32, Items<u32>)>,
        above: Option<(u32, Items<LogLine>)>,
    },
}

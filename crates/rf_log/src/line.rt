//! The lines of a log as values.

use crate::conds::Conds;
use crate::hint::Hint;
use rf_base::Items;

/// How a branch line cuts: at one index, or after it.
#[derive(Clone, Copy, PartialEq, Eq)]
pub enum Cut {
    /// The left side is the index alone.
    Fix,
    /// The left side is the index and all below it.
    Split,
}

/// A line of a log.
#[derive(Drop)]
pub enum LogLine {
    /// No plan meets all the conditions: the hints, in order, empty a carrier's set.
    Nogood { conds: Conds, hints: Items<Hint> },
    /// The search goes down the left side of a cut.
    Branch { cut: Cut, carrier: u32, at: u32 },
    /// By the nogood line of that number the path has no plan: the search turns to the last right side that is open.
    Up { line: u32 },
}

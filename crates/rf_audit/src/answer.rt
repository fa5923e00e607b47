//! What is answered to whoever has a log audited.

use rf_log::Cause;

/// What an audit of a log finds.
#[derive(Clone, Copy, PartialEq, Eq)]
pub enum Audit {
    /// Every line is valid and every branching is honest; the number of branch lines.
    Honest { branchings: u32 },
    /// The first line that is invalid or a dishonest branching is this branch line, the first of a log being 1.
    Dishonest { line: u32 },
    /// That line is invalid; its first cause.
    Refused { line: u32, cause: Cause },
}

//! What can be said of a log, and why a line of it doesn't hold.

/// Why a line is invalid, in the order in which causes are asked.
#[derive(Clone, Copy, PartialEq, Eq)]
pub enum Cause {
    /// The tree was closed before the line.
    Closed,
    /// A carrier's number is not one of the case.
    Name,
    /// A range is not one of indices of its carrier, or a branching's index is not.
    Index,
    /// A hint or an up line names no earlier nogood line.
    Line,
    /// A hint has no effect.
    Hint,
    /// No set is empty after the hints.
    Empty,
    /// A condition of the line that an up line names does not hold throughout the path's box.
    Path,
}

/// How a log is judged.
#[derive(Clone, Copy, PartialEq, Eq)]
pub enum Verdict {
    /// Every line is valid and the tree is closed.
    Closed,
    /// Every line is valid and the tree is not closed.
    Unfinished { branchings: u32 },
    /// The first invalid line, the first of a log being 1, and its first cause.
    Refused { line: u32, cause: Cause },
}

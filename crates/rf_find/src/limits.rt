//! Limits of the look for a plan: steps, moves, starts, samples and size.

/// The most steps that are counted before a search: a step is a range of frequencies that is marked, or four that are looked at.
/// No carrier is moved once they are taken.
pub const MAX_STEPS: u64 = 150_000_000;

/// The most steps of one time that the carriers push one another away.
pub const EJECT_STEPS: u64 = 20_000_000;

/// The most moves of one time that the carriers push one another away.
pub const EJECT_MOVES: usize = 20_000;

/// From how many carriers left out on no push is tried.
pub const MOST_OUT: usize = 9;

/// The most starts, the empty one among them.
pub const STARTS: usize = 5;

/// How many samples the starts are taken from.
pub const SAMPLES: usize = 10_000;

/// The most frequencies that are counted for all classes of carriers. A larger problem isn't looked into.
pub const MAX_CELLS: usize = 4_000_000;

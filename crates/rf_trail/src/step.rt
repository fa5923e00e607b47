//! One entry of a trail with what it takes to undo it.

use crate::entry::Entry;

/// An entry, and how many pieces were there before it.
#[derive(Clone, Copy)]
pub struct Step {
    pub entry: Entry,
    pub pieces: usize,
}

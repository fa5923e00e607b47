//! Moments of a trail, to which it can go back.

/// How many entries a trail has at some moment.
#[derive(Clone, Copy, PartialEq, Eq)]
pub struct Mark {
    pub entries: usize,
}

//! One removal and its reason.

use rf_log::Hint;

/// A removal of the indices from `lo` to `hi` of a carrier, with its reason. A decision has none.
#[derive(Clone, Copy, PartialEq, Eq)]
pub struct Entry {
    pub carrier: usize,
    pub lo: u32,
    pub hi: u32,
    pub hint: Option<Hint>,
}

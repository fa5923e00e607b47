//! Hints, by which a nogood line takes indices out of its box.

use rf_terms::Kind;

/// Why indices are removed from a box.
#[derive(Clone, Copy, PartialEq, Eq)]
pub enum Hint {
    /// By the earlier nogood line of that number. The first line of a log has number 1.
    Earlier {
        line: u32,
    },
    /// None of the indices from `lo` to `hi` of the carrier is allowed.
    Ban {
        carrier: u32,
        lo: u32,
        hi: u32,
    },
    /// Each index from `lo` to `hi` of the target breaks an instance whose other carriers have one index each. The
    /// target is a place among the roles, from 0; roles beyond the kind's are 0.
    Rule {
        kind: Kind,
        roles: [u32; 4],
        target: u32,
        lo: u32,
        hi: u32,
    },
}

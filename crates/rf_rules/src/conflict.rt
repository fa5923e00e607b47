//! Conflicts, as an analysis lists them.

use rf_terms::Kind;

/// A rule that a show breaks. Carriers are places in the show's list, frequencies are in kilohertz.
#[derive(Clone, Copy)]
pub enum Conflict {
    /// A carrier's frequency is no channel of its profile.
    OffGrid {
        carrier: usize,
    },
    /// A carrier's frequency is banned for it.
    Banned {
        carrier: usize,
    },
    /// Two carriers, of which `a` stands first in the show, lie `distance` apart, below the `needs` that they keep.
    Spacing {
        a: usize,
        b: usize,
        distance: u32,
        needs: u32,
    },
    /// An intermodulation product lies `distance` from the victim's frequency, below the `needs` that it keeps. The sources
    /// stand in the order of the kind's roles; a kind with two sources has 0 in the third place.
    Product {
        kind: Kind,
        sources: [usize; 3],
        victim: usize,
        product: i64,
        distance: u32,
        needs: u32,
    },
}

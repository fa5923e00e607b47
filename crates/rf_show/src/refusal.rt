//! Why a show may refuse an edit.

/// Why an edit is refused. Where several reasons hold, the first in this order is the answer.
#[derive(Clone, Copy, PartialEq, Eq)]
pub enum Refusal {
    /// A profile, a zone or a carrier that it names isn't there.
    Unknown,
    /// What it adds has the name of one that is there.
    Taken,
    /// A number is out of its range, or numbers don't go together.
    Number,
    /// A carrier has the profile.
    InUse,
    /// The carrier has no frequency.
    NoFrequency,
    /// The carrier is locked.
    Locked,
    /// There is no room for more.
    Full,
}

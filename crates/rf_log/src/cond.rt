//! One condition of a path or of a nogood line.

/// What an index of one carrier has to meet: that it is from `lo` to `hi`, or, where `inside` is false, that it is not.
/// Carriers are numbered from 0; indices are channel numbers of the carrier's profile.
#[derive(Clone, Copy, Default, PartialEq, Eq)]
pub struct Cond {
    pub carrier: u32,
    pub inside: bool,
    pub lo: u32,
    pub hi: u32,
}

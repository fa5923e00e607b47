//! A scan as a show keeps it, and which frequencies it touches.

ghost use Rattle.std.specs.Prelude.{◌≡◌, ℕ, ◌<◌, ◌≤◌, ◌&&◌, nat_le, length, slice_index, IfOk};
ghost use Rattle.std.specs.List.{list_any};
ghost use Rattle.std.specs.List.Sorted.{IsStrictlyIncreasing};
ghost use Rattle.rf_exclusions.specs.Touched.{is_touched_by_scan};

use crate::hot_points::HotPoints;
use rf_base::{Decimal, FileName, Khz, Name, NoMemory};
use std::alloc::Global;

/// What stands between the fields of a scan file.
#[derive(Clone, Copy, PartialEq, Eq)]
pub enum Sep {
    Comma,
    Semicolon,
    Tab,
}

/// A scan of a zone, of which the hot points are kept.
#[derive(Drop)]
pub struct ScanSet {
    /// The file that was read.
    pub file: FileName,
    /// What stands between its fields.
    pub sep: Sep,
    /// The zone in which it was made.
    pub zone: Name,
    /// The level from which a point is hot.
    pub threshold: Decimal,
    /// How far from a hot point a frequency is touched, in kilohertz, beside the half width.
    pub width: u32,
    /// The hot points, in millihertz.
    pub hot: HotPoints,
}

impl ScanSet {
    /// The same scan again. `NoMemory` where no memory is found.
    pub fn copy(&self, alloc: Global) -> Result<ScanSet, NoMemory>
        ensures { IfOk result (λ scan. scan ≡ self.now) }
    {
        let hot = self.hot.copy(alloc)?;
        Ok(ScanSet {
            file: self.file,
            sep: self.sep,
            zone: self.zone,
            threshold: self.threshold,
            width: self.width,
            hot,
        })
    }
}

const MILLIHERTZ_PER_KHZ: u64 = 1_000_000;

/// Whether a scan touches a frequency under a half width of `half` kHz, without regard to zones: whether a hot point is no
/// farther away than width and half width together.
pub fn touched_by_scan(scan: &ScanSet, half: u32, khz: Khz) -> bool
    ensures { result ≡ is_touched_by_scan scan.now half khz }
{
    let reach = (u64::from(scan.width) + u64::from(half)) * MILLIHERTZ_PER_KHZ;
    let middle = u64::from(khz.get()) * MILLIHERTZ_PER_KHZ;
    has_between(
        scan.hot.as_slice(),
        middle.saturating_sub(reach),
        middle + reach,
    )
}

// Whether one of these points, which rise, is from `low` to `high`.
fn has_between(points: &[u64], low: u64, high: u64) -> bool
    requires { IsStrictlyIncreasing points.now }
    ensures { result ≡ list_any (λ p. nat_le low p && nat_le p high) points.now }
{
    let first = first_from(points, low);
    first < points.len() && points[first] <= high
}

// The place of the first of these points, which rise, that is `low` or above, or their number where there is none.
fn first_from(points: &[u64], low: u64) -> usize
    requires { IsStrictlyIncreasing points.now }
    ensures below { (k : ℕ) → k < result → k < length points.now → slice_index points.now k < low }
    ensures above { (k : ℕ) → result ≤ k → k < length points.now → low ≤ slice_index points.now k }
{
    points.partition_point(|p| *p < low)
}

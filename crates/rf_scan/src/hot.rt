//! The points of a scan that are at or above a threshold.

ghost use Rattle.std.specs.Prelude.{◌≡◌, ◌↔◌, ℕ, IfOk, Contains};
ghost use Rattle.std.specs.List.Sorted.{IsStrictlyIncreasing};
ghost use Rattle.rf_scan.specs.Hot as hot_spec;
ghost use Rattle.rf_scan.specs.Hot.{hot_frequencies, hot_of};

use crate::point::Point;
use rf_base::{Decimal, NoMemory};
use rf_exclusions::HotPoints;
use std::alloc::Global;

/// The frequencies, in millihertz, of the points whose level is at or above the threshold, rising and distinct. `NoMemory` where no
/// memory is found.
pub fn hot_points(
    alloc: Global,
    points: &[Point],
    threshold: Decimal,
) -> Result<HotPoints, NoMemory>
    ensures value { IfOk result (λ hot. hot ≡ hot_of threshold points.now) }
    ensures rising { IfOk result (λ hot. IsStrictlyIncreasing hot) }
    ensures exact { IfOk result (λ hot. (f : ℕ) → Contains hot f ↔ Contains (hot_frequencies threshold points.now) f) }
{
    let mut hot = hot_frequencies(alloc, points, threshold)?;
    hot.sort_unstable();
    hot.dedup();
    Ok(HotPoints::from_vec(hot))
}

fn hot_frequencies(
    alloc: Global,
    points: &[Point],
    threshold: Decimal,
) -> Result<Vec<u64>, NoMemory>
    ensures { IfOk result (λ hot. hot.items ≡ hot_frequencies threshold points.now) }
{
    let mut hot = Vec::new(alloc);
    for point in points {
        if is_hot(point, threshold) {
            hot.push(point.millihertz)?;
        }
    }
    Ok(hot)
}

// Whether the level of a point is at or above the threshold.
fn is_hot(point: &Point, threshold: Decimal) -> bool
    ensures { result ≡ hot_spec.is_hot threshold point.now }
{
    point.level.0 >= threshold.0
}

//! Lists again, with room for more.

ghost use Rattle.std.specs.Prelude.{◌≡◌, ◌≤◌, IfOk, length, vec_capacity};
ghost use Rattle.rf_show.specs.Limits.{most_scans};

use crate::show::Show;
use rf_base::NoMemory;
use rf_exclusions::ScanSet;
use std::alloc::Global;

/// These elements again, with room for so many.
pub(crate) fn copied<T: Copy>(alloc: Global, items: &[T], room: usize) -> Result<Vec<T>, NoMemory>
    ensures items { IfOk result (λ copy. copy.items ≡ items.now) }
    ensures room { IfOk result (λ copy. room ≤ vec_capacity copy) }
{
    let mut copy = Vec::with_capacity(alloc, room)?;
    for item in items {
        copy.push(*item)?;
    }
    Ok(copy)
}

/// These scans again, with room for as many as a show may have.
pub(crate) fn copied_scans(alloc: Global, scans: &[ScanSet]) -> Result<Vec<ScanSet>, NoMemory>
    ensures items { IfOk result (λ copy. copy.items ≡ scans.now) }
    ensures room { IfOk result (λ copy. most_scans ≤ vec_capacity copy) }
{
    let mut copy = Vec::with_capacity(alloc, Show::MAX_SCANS)?;
    for scan in scans {
        copy.push(scan.copy(alloc)?)?;
    }
    Ok(copy)
}

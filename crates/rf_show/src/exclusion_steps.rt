//! Changes of the bans and the scans.

ghost use Rattle.std.specs.Prelude.{◌≡◌, ◌-◌, ◌≤◌, ◌∷◌, ◌++◌, [], true, length, remove};
ghost use Rattle.rf_base.specs.Khz.{is_khz};
ghost use Rattle.rf_show.specs.Change.{changed, fits};

use crate::change::Change;
use rf_base::{Khz, Name};
use rf_exclusions::{Ban, ScanSet};

/// A ban is added.
pub(crate) fn with_ban(bans: &[Ban], lo: u32, hi: u32, zone: Option<Name>) -> Change<Ban>
    requires lo { is_khz lo ≡ true }
    requires hi { is_khz hi ≡ true }
    ensures fits { fits bans.now result ≡ true }
    ensures there { changed bans.now result ≡ bans.now ++ record { lo = lo; hi = hi; zone = zone } ∷ [] }
{
    let item = Ban {
        lo: Khz::new(u64::from(lo)).unwrap(),
        hi: Khz::new(u64::from(hi)).unwrap(),
        zone,
    };
    Change::Put {
        place: bans.len(),
        item,
    }
}

/// A scan is added.
pub(crate) fn with_scan(scans: &[ScanSet], item: ScanSet) -> Change<ScanSet>
    ensures fits { fits scans.now result ≡ true }
    ensures there { changed scans.now result ≡ scans.now ++ item ∷ [] }
{
    Change::Put {
        place: scans.len(),
        item,
    }
}

/// What has a number, counted from 1, is taken away.
pub(crate) fn removal<T>(items: &[T], number: u32) -> Change<T>
    requires some { 1 ≤ number }
    requires within { number ≤ length items.now }
    ensures fits { fits items.now result ≡ true }
    ensures there { changed items.now result ≡ remove items.now (number - 1) }
{
    let _ = items;
    Change::Take {
        place: number as usize - 1,
    }
}

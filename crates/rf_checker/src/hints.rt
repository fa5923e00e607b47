//! Hints by channels that are not allowed.

ghost use Rattle.std.specs.Prelude.{◌≡◌, ◌<◌, ◌≤◌, length, IfOk, if◌then◌else◌};
ghost use Rattle.rf_log.specs.Case.{count_of};
ghost use Rattle.rf_log.specs.Hints as hints;
ghost use Rattle.rf_log.specs.Box as box;
ghost use Rattle.rf_show.specs.Case.{case_of};
ghost use Rattle.rf_checker.specs.Boxes.{box_in, IsBoxFor};

use crate::asked::{allows, count};
use rf_base::NoMemory;
use rf_exclusions::Spans;
use rf_show::Show;

// Whether no index from `lo` to `hi` of the carrier is allowed.
fn is_barred(show: &Show, c: usize, lo: u32, hi: u32) -> bool
    requires known { c < length (case_of show.now).carriers }
    requires rising { lo ≤ hi }
    requires index { hi < count_of (case_of show.now) c }
    ensures { result ≡ hints.is_barred (case_of show.now) c lo hi }
{
    for k in lo..count(show, c) {
        if k > hi {
            return true;
        }
        if allows(show, c, k) {
            return false;
        }
    }
    true
}

/// Takes the indices from `lo` to `hi` out, where none of them is allowed, and says whether that is so.
pub(crate) fn apply_ban(
    show: &Show,
    sets: &mut [Spans],
    c: usize,
    lo: u32,
    hi: u32,
) -> Result<bool, NoMemory>
    requires known { c < length (case_of show.now).carriers }
    requires rising { lo ≤ hi }
    requires index { hi < count_of (case_of show.now) c }
    requires box_for { IsBoxFor (case_of show.now) sets.old }
    ensures effect { IfOk result (λ works. (if hints.is_barred (case_of show.now) c lo hi then Some (box.without (box_in sets.old) c (box.between lo hi)) else None) ≡
        (if works then Some (box_in sets.new) else None)) }
    ensures box_for { IfOk result (λ works. IsBoxFor (case_of show.now) sets.new) }
{
    if !is_barred(show, c, lo, hi) {
        return Ok(false);
    }
    sets[c].cut(lo, hi)?;
    Ok(true)
}

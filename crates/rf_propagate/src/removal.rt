//! Removals, each with the hint that is its reason.

ghost use Rattle.std.specs.Prelude.{◌≡◌, ◌<◌, ◌≤◌, List, true, OnOk};
ghost use Rattle.rf_domain.specs.Indices.{between};
ghost use Rattle.rf_domain.specs.Sets.{size_of, without};
ghost use Rattle.rf_log.specs.Case.{Case, counts_of};
ghost use Rattle.rf_log.specs.Hints.{Line, is_barred};
ghost use Rattle.rf_trail.specs.Trace.{has_of};
ghost use Rattle.rf_propagate.specs.Laws.{Extends};

use rf_base::NoMemory;
use rf_log::Hint;
use rf_trail::Trail;

/// Removes the indices from `lo` to `hi` of a carrier, none of which is allowed, by the hint `Ban`. `NoMemory` where no
/// memory is found.
pub fn remove_banned(trail: &mut Trail, carrier: u32, lo: u32, hi: u32) -> Result<(), NoMemory>
    requires ordered { lo ≤ hi }
    requires in_range { hi < size_of trail.old.counts carrier }
    ensures counts { trail.new.counts ≡ trail.old.counts }
    ensures sound { (case : Case) (lines : List Line) → trail.old.counts ≡ counts_of case → is_barred case carrier lo hi ≡ true → Extends case lines trail.old.entries trail.new.entries }
    ensures ok { OnOk result (has_of trail.new.counts trail.new.entries ≡ without (has_of trail.old.counts trail.old.entries) carrier (between lo hi)) }
{
    trail.remove_because(carrier as usize, lo, hi, Hint::Ban { carrier, lo, hi })
}

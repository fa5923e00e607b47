//! One pass over all lines.

ghost use Rattle.std.specs.Prelude.{◌≡◌, ℕ, List, All, length, OnOk};
ghost use Rattle.rf_domain.specs.Sets.{total_of};
ghost use Rattle.rf_log.specs.Case.{Case, counts_of};
ghost use Rattle.rf_log.specs.Hints.{Line};
ghost use Rattle.rf_trail.specs.Trace.{has_of, box_of};
ghost use Rattle.rf_propagate.specs.Laws.{Extends};
ghost use Rattle.rf_propagate.specs.Openings.{AllFit};
ghost use Rattle.rf_nogoods.specs.Removals.{AreDone, IsFound};

use crate::held_line::HeldLine;
use rf_base::NoMemory;
use rf_trail::Trail;

/// Removes what each line takes out, one after another. Where nothing fell, each of them is done.
pub fn sweep(lines: &mut [HeldLine], trail: &mut Trail) -> Result<(), NoMemory>
    requires { All (λ line. AllFit trail.old.counts line.conds) lines.old }
    ensures same { lines.new ≡ lines.old }
    ensures counts { trail.new.counts ≡ trail.old.counts }
    ensures sound { (case : Case) (all : List Line) → trail.old.counts ≡ counts_of case → All (IsFound all) lines.old → Extends case all trail.old.entries trail.new.entries }
    ensures done { OnOk result ((case : Case) (all : List Line) → trail.old.counts ≡ counts_of case → All (IsFound all) lines.old
        → total_of trail.new.counts (has_of trail.new.counts trail.new.entries) ≡ total_of trail.old.counts (has_of trail.old.counts trail.old.entries)
        → AreDone case (box_of trail.new) lines.old (length lines.old)) }
{
    for place in 0..lines.len() {
        lines[place].apply(trail)?;
    }
    Ok(())
}

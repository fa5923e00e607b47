//! What one line takes out, and the watches that it gets where it takes nothing out.

ghost use Rattle.std.specs.Prelude.{◌≡◌, ◌<◌, ◌≤◌, ℕ, List, Some, false, length, IfOk, OnOk};
ghost use Rattle.rf_domain.specs.Indices.{between};
ghost use Rattle.rf_domain.specs.Sets.{size_of, without};
ghost use Rattle.rf_log.specs.Case.{Case, counts_of};
ghost use Rattle.rf_log.specs.Hints.{Line, line_at};
ghost use Rattle.rf_log.specs.Relations.{HasNone};
ghost use Rattle.rf_log.specs.declared.cond.Cond.{Cond};
ghost use Rattle.rf_trail.specs.Trace.{has_of, box_of};
ghost use Rattle.rf_propagate.specs.Laws.{Extends, IsJustified};
ghost use Rattle.rf_propagate.specs.Openings.{FitsIn, AllFit, HoldFrom, IsOneOpen};
ghost use Rattle.rf_nogoods.specs.Removals.{IsPart, IsTaken, IsDone, entry_by};
ghost use Rattle.rf_nogoods.specs.Watched.{AreKept};

use crate::watch::{Watches, watches_at};
use rf_base::NoMemory;
use rf_log::{Cond, Hint};
use rf_propagate::open_from;
use rf_trail::Trail;

// Removes what is left of the indices from `lo` to `hi` of a carrier, by a line.
fn strike(trail: &mut Trail, line: u32, carrier: usize, lo: u32, hi: u32) -> Result<(), NoMemory>
    requires ordered { lo ≤ hi }
    requires in_range { hi < size_of trail.old.counts carrier }
    ensures counts { trail.new.counts ≡ trail.old.counts }
    ensures sound { (case : Case) (lines : List Line) → IsJustified case lines trail.old.entries (entry_by line carrier lo hi) → Extends case lines trail.old.entries trail.new.entries }
    ensures left { OnOk result (has_of trail.new.counts trail.new.entries ≡ without (has_of trail.old.counts trail.old.entries) carrier (between lo hi)) }
{
    let Some(first) = trail.domains().next(carrier, lo) else {
        return Ok(());
    };
    if first > hi {
        return Ok(());
    }
    trail.remove_because(carrier, lo, hi, Hint::Earlier { line })
}

// Removes what is left of the indices below those of the condition, by a line.
fn strike_below(trail: &mut Trail, line: u32, cond: Cond) -> Result<(), NoMemory>
    requires fits { FitsIn trail.old.counts cond }
    requires outside { cond.inside ≡ false }
    ensures counts { trail.new.counts ≡ trail.old.counts }
    ensures sound { (case : Case) (lines : List Line) (conds : List Cond) (place : ℕ) → trail.old.counts ≡ counts_of case → line_at lines line ≡ Some conds
        → IsOneOpen (has_of trail.old.counts trail.old.entries) conds place cond → Extends case lines trail.old.entries trail.new.entries }
    ensures part { OnOk result (IsPart (has_of trail.old.counts trail.old.entries) (has_of trail.new.counts trail.new.entries) cond) }
    ensures gone { OnOk result ((k : ℕ) → k < cond.lo → has_of trail.new.counts trail.new.entries cond.carrier k ≡ false) }
{
    if cond.lo == 0 {
        return Ok(());
    }
    strike(trail, line, cond.carrier as usize, 0, cond.lo - 1)
}

// Removes what is left of the indices above those of the condition, by a line.
fn strike_above(trail: &mut Trail, line: u32, cond: Cond) -> Result<(), NoMemory>
    requires fits { FitsIn trail.old.counts cond }
    requires outside { cond.inside ≡ false }
    ensures counts { trail.new.counts ≡ trail.old.counts }
    ensures sound { (case : Case) (lines : List Line) (conds : List Cond) (place : ℕ) → trail.old.counts ≡ counts_of case → line_at lines line ≡ Some conds
        → IsOneOpen (has_of trail.old.counts trail.old.entries) conds place cond → Extends case lines trail.old.entries trail.new.entries }
    ensures part { OnOk result (IsPart (has_of trail.old.counts trail.old.entries) (has_of trail.new.counts trail.new.entries) cond) }
    ensures gone { OnOk result ((k : ℕ) → cond.hi < k → has_of trail.new.counts trail.new.entries cond.carrier k ≡ false) }
{
    let carrier = cond.carrier as usize;
    let last = trail.domains().size(carrier) - 1;
    if cond.hi >= last {
        return Ok(());
    }
    strike(trail, line, carrier, cond.hi + 1, last)
}

// Removes what is left of the indices on both sides of those of the condition, by a line.
fn strike_outside(trail: &mut Trail, line: u32, cond: Cond) -> Result<(), NoMemory>
    requires fits { FitsIn trail.old.counts cond }
    requires outside { cond.inside ≡ false }
    ensures counts { trail.new.counts ≡ trail.old.counts }
    ensures sound { (case : Case) (lines : List Line) (conds : List Cond) (place : ℕ) → trail.old.counts ≡ counts_of case → line_at lines line ≡ Some conds
        → IsOneOpen (has_of trail.old.counts trail.old.entries) conds place cond → Extends case lines trail.old.entries trail.new.entries }
    ensures left { OnOk result (IsTaken (has_of trail.old.counts trail.old.entries) (has_of trail.new.counts trail.new.entries) cond) }
{
    strike_below(trail, line, cond)?;
    strike_above(trail, line, cond)
}

// Removes what is left of the indices that meet the condition, by a line.
fn take_met(trail: &mut Trail, line: u32, cond: Cond) -> Result<(), NoMemory>
    requires { FitsIn trail.old.counts cond }
    ensures counts { trail.new.counts ≡ trail.old.counts }
    ensures sound { (case : Case) (lines : List Line) (conds : List Cond) (place : ℕ) → trail.old.counts ≡ counts_of case → line_at lines line ≡ Some conds
        → IsOneOpen (has_of trail.old.counts trail.old.entries) conds place cond → Extends case lines trail.old.entries trail.new.entries }
    ensures left { OnOk result (IsTaken (has_of trail.old.counts trail.old.entries) (has_of trail.new.counts trail.new.entries) cond) }
{
    if cond.inside {
        return strike(trail, line, cond.carrier as usize, cond.lo, cond.hi);
    }
    strike_outside(trail, line, cond)
}

// A carrier of one of the conditions, or the first one where there are none.
fn carrier_of(conds: &[Cond]) -> usize
    ensures { (counts : List ℕ) → AllFit counts conds.now → 0 < length counts → result < length counts }
{
    match conds {
        [] => 0,
        [cond, ..] => cond.carrier as usize,
    }
}

// Removes what is left to a carrier, by a line.
fn wipe(trail: &mut Trail, line: u32, carrier: usize) -> Result<(), NoMemory>
    requires { carrier < length trail.old.counts }
    ensures counts { trail.new.counts ≡ trail.old.counts }
    ensures sound { (case : Case) (lines : List Line) (conds : List Cond) → trail.old.counts ≡ counts_of case → line_at lines line ≡ Some conds
        → HoldFrom (has_of trail.old.counts trail.old.entries) conds 0 → Extends case lines trail.old.entries trail.new.entries }
    ensures none { OnOk result (HasNone (box_of trail.new) carrier) }
{
    let size = trail.domains().size(carrier);
    if size == 0 {
        return Ok(());
    }
    strike(trail, line, carrier, 0, size - 1)
}

// Removes what is left to a carrier of a line all of whose conditions hold.
fn take_all(trail: &mut Trail, line: u32, conds: &[Cond]) -> Result<(), NoMemory>
    requires fit { AllFit trail.old.counts conds.now }
    requires held { HoldFrom (has_of trail.old.counts trail.old.entries) conds.now 0 }
    ensures counts { trail.new.counts ≡ trail.old.counts }
    ensures sound { (case : Case) (lines : List Line) → trail.old.counts ≡ counts_of case → line_at lines line ≡ Some conds.now → Extends case lines trail.old.entries trail.new.entries }
    ensures done { OnOk result ((case : Case) → trail.old.counts ≡ counts_of case → IsDone case (box_of trail.new) conds.now) }
{
    if trail.domains().carriers() == 0 {
        return Ok(());
    }
    wipe(trail, line, carrier_of(conds))
}

/// Removes what a line takes out: where one of its conditions alone does not hold throughout, the indices that meet that
/// one; where all hold, all that is left to a carrier. Where two do not hold, nothing goes, and these are watched from then on.
pub fn take_out(trail: &mut Trail, line: u32, conds: &[Cond]) -> Result<Option<Watches>, NoMemory>
    requires { AllFit trail.old.counts conds.now }
    ensures counts { trail.new.counts ≡ trail.old.counts }
    ensures sound { (case : Case) (lines : List Line) → trail.old.counts ≡ counts_of case → line_at lines line ≡ Some conds.now → Extends case lines trail.old.entries trail.new.entries }
    ensures done { OnOk result ((case : Case) → trail.old.counts ≡ counts_of case → IsDone case (box_of trail.new) conds.now) }
    ensures watches { IfOk result (λ watches. AreKept conds.now watches) }
{
    let Some(first) = open_from(trail.domains(), conds, 0) else {
        take_all(trail, line, conds)?;
        return Ok(None);
    };
    let Some(second) = open_from(trail.domains(), conds, first + 1) else {
        take_met(trail, line, conds[first])?;
        return Ok(None);
    };
    Ok(watches_at(trail.domains(), conds, first, second))
}

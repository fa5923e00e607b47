//! Boxes: for each carrier a set of its indices.

ghost use Rattle.std.specs.Prelude.{◌≡◌, ℕ, ◌<◌, ◌≤◌, ◌&&◌, true, length, IfOk, OnOk, nat_lt};
ghost use Rattle.std.specs.List.{All, list_all};
ghost use Rattle.rf_exclusions.specs.Spans.{has_in};
ghost use Rattle.rf_log.specs.Box as box;
ghost use Rattle.rf_show.specs.Case.{case_of};
ghost use Rattle.rf_checker.specs.Boxes.{box_in, Fits, IsBelow, IsBoxFor};

use crate::asked::{count, size};
use rf_base::NoMemory;
use rf_exclusions::Spans;
use rf_log::Cond;
use rf_show::Show;
use std::alloc::Global;

/// Leaves the indices of the set that meet the condition.
pub(crate) fn narrow(set: &mut Spans, count: u32, cond: &Cond) -> Result<(), NoMemory>
    requires rising { cond.now.lo ≤ cond.now.hi }
    requires index { cond.now.hi < count }
    requires below { IsBelow count set.old }
    ensures { OnOk result ((k : ℕ) → has_in set.new k ≡ (has_in set.old k && box.is_met cond.now k)) }
{
    if cond.inside {
        if cond.lo > 0 {
            set.cut(0, cond.lo - 1)?;
        }
        if cond.hi + 1 < count {
            set.cut(cond.hi + 1, count - 1)?;
        }
    } else {
        set.cut(cond.lo, cond.hi)?;
    }
    Ok(())
}

// The indices of carrier `c` that meet each condition on it.
fn set_of(alloc: Global, count: u32, c: u32, conds: &[Cond]) -> Result<Spans, NoMemory>
    requires { All (λ cond. (cond.lo ≤ cond.hi) × (cond.carrier ≡ c → cond.hi < count)) conds.now }
    ensures { IfOk result (λ set. (k : ℕ) → has_in set k ≡ (nat_lt k count && list_all (box.is_met_by c k) conds.now)) }
{
    let mut set = Spans::new(alloc);
    if count > 0 {
        set.add(0, count - 1)?;
    }
    for cond in conds {
        if cond.carrier == c {
            narrow(&mut set, count, cond)?;
        }
    }
    Ok(set)
}

/// For each carrier, all its indices that meet every condition on it.
pub(crate) fn box_of(alloc: Global, show: &Show, conds: &[Cond]) -> Result<Vec<Spans>, NoMemory>
    requires { All (λ cond. Fits (case_of show.now) cond) conds.now }
    ensures same { IfOk result (λ sets. box_in sets.items ≡ box.box_of (case_of show.now) conds.now) }
    ensures box_for { IfOk result (λ sets. IsBoxFor (case_of show.now) sets.items) }
{
    let mut sets = Vec::new(alloc);
    for c in 0..size(show) {
        let set = set_of(alloc, count(show, c), c as u32, conds)?;
        sets.push(set)?;
    }
    Ok(sets)
}

/// Whether each index of its carrier in the box meets the condition.
pub(crate) fn throughout(show: &Show, sets: &[Spans], cond: &Cond) -> bool
    requires fits { Fits (case_of show.now) cond.now }
    requires box_for { IsBoxFor (case_of show.now) sets.now }
    ensures { result ≡ box.holds_throughout (case_of show.now) (box_in sets.now) cond.now }
{
    let set = &sets[cond.carrier as usize];
    if cond.inside {
        set.is_within(cond.lo, cond.hi)
    } else {
        set.misses(cond.lo, cond.hi)
    }
}

/// Whether some carrier has no index left.
pub(crate) fn is_dead(show: &Show, sets: &[Spans]) -> bool
    requires { IsBoxFor (case_of show.now) sets.now }
    ensures { result ≡ box.is_dead (case_of show.now) (box_in sets.now) }
{
    for set in sets {
        if set.is_empty() {
            return true;
        }
    }
    false
}

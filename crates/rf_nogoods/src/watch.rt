//! Watches: indices by which it is seen at once that a line takes nothing out.

ghost use Rattle.std.specs.Prelude.{◌≡◌, ◌<◌, true, length, IfSome};
ghost use Rattle.rf_domain.specs.Sets.{has, sizes};
ghost use Rattle.rf_log.specs.Case.{Case};
ghost use Rattle.rf_log.specs.Relations.{members};
ghost use Rattle.rf_propagate.specs.Openings.{AllFit, FitsIn, IsUnmet};
ghost use Rattle.rf_nogoods.specs.Removals.{IsDone};
ghost use Rattle.rf_nogoods.specs.Watched.{AreKept, AreWatches, IsWatchOf};

use rf_domain::Domains;
use rf_log::Cond;

/// An index of a condition's carrier that does not meet the condition. While it is left, the condition does not hold
/// throughout.
#[derive(Clone, Copy)]
pub struct Watch {
    pub carrier: u32,
    pub index: u32,
}

/// The watches of two conditions of a line.
#[derive(Clone, Copy)]
pub struct Watches {
    pub first: Watch,
    pub second: Watch,
}

impl Watches {
    /// Whether both indices are left: two conditions of the line do not hold throughout then, so it takes nothing out.
    pub fn are_left(&self, domains: &Domains, conds: &[Cond]) -> bool
        requires fit { AllFit (sizes domains.now) conds.now }
        requires watches { AreWatches conds.now self.now }
        ensures { result ≡ true → (case : Case) → IsDone case (members (has domains.now)) conds.now }
    {
        let first = self.first;
        let second = self.second;
        domains.has(first.carrier as usize, first.index)
            && domains.has(second.carrier as usize, second.index)
    }
}

// An index that is left and lies outside the range of the condition.
fn index_outside(domains: &Domains, cond: Cond) -> Option<u32>
    requires fits { FitsIn (sizes domains.now) cond }
    requires inside { cond.inside ≡ true }
    ensures { IfSome result (λ k. IsUnmet (has domains.now) cond k) }
{
    let carrier = cond.carrier as usize;
    let first = domains.next(carrier, 0)?;
    if first < cond.lo {
        return Some(first);
    }
    let size = domains.size(carrier);
    let hi = cond.hi;
    prove!(hi < size);
    domains.next(carrier, hi + 1)
}

// An index that is left and does not meet the condition.
fn index_of(domains: &Domains, cond: Cond) -> Option<u32>
    requires { FitsIn (sizes domains.now) cond }
    ensures { IfSome result (λ k. IsUnmet (has domains.now) cond k) }
{
    if cond.inside {
        return index_outside(domains, cond);
    }
    let k = domains.next(cond.carrier as usize, cond.lo)?;
    if k > cond.hi {
        return None;
    }
    Some(k)
}

// A watch of the condition, at an index that is left.
fn watch_of(domains: &Domains, cond: Cond) -> Option<Watch>
    requires { FitsIn (sizes domains.now) cond }
    ensures { IfSome result (λ watch. IsWatchOf cond watch) }
{
    let index = index_of(domains, cond)?;
    Some(Watch {
        carrier: cond.carrier,
        index,
    })
}

/// The watches of the conditions at two places, at indices that are left.
pub fn watches_at(domains: &Domains, conds: &[Cond], first: usize, second: usize) -> Option<Watches>
    requires fit { AllFit (sizes domains.now) conds.now }
    requires apart { first < second }
    requires known { second < length conds.now }
    ensures { AreKept conds.now result }
{
    let first = watch_of(domains, conds[first])?;
    let second = watch_of(domains, conds[second])?;
    Some(Watches { first, second })
}

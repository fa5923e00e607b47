//! Which conditions of a nogood line hold throughout what is left.

ghost use Rattle.std.specs.Prelude.{◌≡◌, ◌<◌, ◌≤◌, true, length, MatchOption};
ghost use Rattle.rf_domain.specs.Sets.{has, sizes};
ghost use Rattle.rf_propagate.specs.Openings.{FitsIn, AllFit, Holds, IsUnmet, HoldFrom, IsNextOpen};

use rf_domain::Domains;
use rf_log::Cond;

/// An index that is left and does not meet the condition. None where the condition holds throughout.
pub fn unmet(domains: &Domains, cond: &Cond) -> Option<u32>
    requires { FitsIn (sizes domains.now) cond.now }
    ensures { MatchOption result (Holds (has domains.now) cond.now) (λ k. IsUnmet (has domains.now) cond.now k) }
{
    let carrier = cond.carrier as usize;
    if cond.inside {
        return unmet_inside(domains, carrier, cond);
    }
    let k = domains.next(carrier, cond.lo)?;
    if k > cond.hi {
        return None;
    }
    Some(k)
}

fn unmet_inside(domains: &Domains, carrier: usize, cond: &Cond) -> Option<u32>
    requires fits { FitsIn (sizes domains.now) cond.now }
    requires carrier { carrier ≡ cond.now.carrier }
    requires inside { cond.now.inside ≡ true }
    ensures { MatchOption result (Holds (has domains.now) cond.now) (λ k. IsUnmet (has domains.now) cond.now k) }
{
    let first = domains.next(carrier, 0)?;
    if first < cond.lo {
        return Some(first);
    }
    let size = domains.size(carrier);
    let hi = cond.hi;
    prove!(hi < size);
    domains.next(carrier, hi + 1)
}

/// The first place from `from` on whose condition does not hold throughout.
pub fn open_from(domains: &Domains, conds: &[Cond], from: usize) -> Option<usize>
    requires { AllFit (sizes domains.now) conds.now }
    ensures { MatchOption result (HoldFrom (has domains.now) conds.now from) (λ place. IsNextOpen (has domains.now) conds.now from place) }
{
    for place in from..conds.len() {
        if let Some(_) = unmet(domains, &conds[place]) {
            return Some(place);
        }
    }
    None
}

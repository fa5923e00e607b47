//! A nogood line applied to sets of indices.

ghost use Rattle.std.specs.Prelude.{◌≡◌, ◌≤◌, ◌<◌, Some, None, true, false};
ghost use Rattle.rf_domain.specs.Sets.{has, sizes};
ghost use Rattle.rf_log.specs.Box as box;
ghost use Rattle.rf_log.specs.Case.{Case, counts_of};
ghost use Rattle.rf_log.specs.Hints.{by_line};
ghost use Rattle.rf_propagate.specs.Openings.{AllFit, FitsIn};

use crate::opening::open_from;
use rf_domain::Domains;
use rf_log::Cond;

// Takes out all indices.
fn clear(sets: &mut Domains)
    ensures sizes { sizes sets.new ≡ sizes sets.old }
    ensures none { has sets.new ≡ box.nothing }
{
    for carrier in 0..sets.carriers() {
        let size = sets.size(carrier);
        if size == 0 {
            continue;
        }
        sets.remove_range(carrier, 0, size - 1);
    }
}

// Takes out the indices that meet the condition.
fn take_met(sets: &mut Domains, cond: Cond)
    requires { FitsIn (sizes sets.old) cond }
    ensures sizes { sizes sets.new ≡ sizes sets.old }
    ensures taken { has sets.new ≡ box.without (has sets.old) cond.carrier (box.is_met cond) }
{
    let carrier = cond.carrier as usize;
    if cond.inside {
        sets.remove_range(carrier, cond.lo, cond.hi);
        return;
    }
    sets.keep_range(carrier, cond.lo, cond.hi);
}

/// Applies a nogood line with these conditions, and says whether it has an effect: where all conditions hold throughout, all
/// indices go; where one alone does not, those that meet it.
pub fn apply_line(sets: &mut Domains, conds: &[Cond]) -> bool
    requires { AllFit (sizes sets.old) conds.now }
    ensures sizes { sizes sets.new ≡ sizes sets.old }
    ensures works { (case : Case) → sizes sets.old ≡ counts_of case → result ≡ true → by_line case (has sets.old) (Some conds.now) ≡ Some (has sets.new) }
    ensures fails { (case : Case) → sizes sets.old ≡ counts_of case → result ≡ false → by_line case (has sets.old) (Some conds.now) ≡ None }
{
    let Some(place) = open_from(sets, conds, 0) else {
        clear(sets);
        return true;
    };
    if let Some(_) = open_from(sets, conds, place + 1) {
        return false;
    }
    take_met(sets, conds[place]);
    true
}

//! What one instance takes from its target.

ghost use Rattle.std.specs.Prelude.{◌≡◌, ℕ, ◌+◌, ◌<◌, ◌≤◌, All, List, OnOk, false, true, insert, length, MatchOption, take};
ghost use Rattle.rf_terms.specs.Kinds.{roles_of};
ghost use Rattle.rf_zones.specs.declared.mask.TheConstants.{MAX_CARRIERS};
ghost use Rattle.rf_log.specs.Case.{counts_of};
ghost use Rattle.rf_log.specs.Hints.{Line};
ghost use Rattle.rf_domain.specs.Indices.{between};
ghost use Rattle.rf_domain.specs.Sets.{size_of};
ghost use Rattle.rf_problem.specs.Problem.{case_of};
ghost use Rattle.rf_propagate.specs.Laws.{Extends};
ghost use Rattle.rf_terms.specs.Forms.{AreFrequencies};
ghost use Rattle.rf_props.specs.Sweeps.{left, HasNoneOf, AreFixed, IsClear, KeepsRows, IsHarmless, AreBroken};

use crate::instance::is_instance;
use crate::range::{count_below_near, from, indices_within};
use crate::roles::{padded, with_target};
use rf_base::NoMemory;
use rf_log::Hint;
use rf_problem::Problem;
use rf_terms::{Kind, window};
use rf_trail::Trail;

/// Removes the indices of a target that break an instance, in which the target has the role `place` and the others, each of
/// which has one index, the other roles. `NoMemory` where no memory is found.
pub fn strike(
    problem: &Problem,
    kind: Kind,
    place: usize,
    others: &[usize],
    freqs: &[u32],
    target: usize,
    trail: &mut Trail,
) -> Result<(), NoMemory>
    requires counts { trail.old.counts ≡ counts_of (case_of problem.now) }
    requires place { place < roles_of kind }
    requires others { length others.now + 1 ≡ roles_of kind }
    requires known { All (λ c. c < length problem.now.carriers) others.now }
    requires small { AreFrequencies freqs.now }
    requires fixed { AreFixed (case_of problem.now) (left trail.old) others.now freqs.now }
    requires target { target < length problem.now.carriers }
    requires few { length problem.now.carriers ≤ MAX_CARRIERS }
    ensures counts { trail.new.counts ≡ trail.old.counts }
    ensures sound { (lines : List Line) → Extends (case_of problem.now) lines trail.old.entries trail.new.entries }
    ensures rows { KeepsRows others.now trail.old trail.new }
    ensures clear { OnOk result (IsClear (case_of problem.now) (left trail.new) kind (insert others.now place target) target) }
{
    let all = with_target(others, place, target);
    let roles = &all[..others.len() + 1];
    if !is_instance(problem, kind, roles) {
        return Ok(());
    }
    let (first, last) = match broken_range(problem, kind, place, roles, freqs, target) {
        Some(range) => range,
        None => return Ok(()),
    };
    if !is_left(trail, target, first, last) {
        return Ok(());
    }
    let hint = Hint::Rule {
        kind,
        roles: padded(roles),
        target: place as u32,
        lo: first,
        hi: last,
    };
    trail.remove_because(target, first, last, hint)
}

/// The indices of a target that break the kind with these frequencies in the other roles, as the least and the greatest.
pub fn broken_range(
    problem: &Problem,
    kind: Kind,
    place: usize,
    roles: &[usize],
    freqs: &[u32],
    target: usize,
) -> Option<(u32, u32)>
    requires place { place < roles_of kind }
    requires roles { length roles.now ≡ roles_of kind }
    requires known { All (λ c. c < length problem.now.carriers) roles.now }
    requires freqs { length freqs.now + 1 ≡ roles_of kind }
    requires small { AreFrequencies freqs.now }
    requires target { target < length problem.now.carriers }
    ensures { MatchOption result (IsHarmless (case_of problem.now) kind place roles.now freqs.now target) (λ r. AreBroken (case_of problem.now) kind place roles.now freqs.now target r.0 r.1) }
{
    let margin = problem.margin(kind, roles);
    let (lo, hi) = window(kind, place, freqs, margin)?;
    indices_within(problem.freqs(target), lo, hi)
}

/// Whether an index from `first` to `last` is left to a carrier.
pub fn is_left(trail: &Trail, carrier: usize, first: u32, last: u32) -> bool
    requires { carrier < length trail.now.counts }
    ensures { result ≡ false → (k : ℕ) → between first last k ≡ true → left trail.now carrier k ≡ false }
{
    match trail.domains().next(carrier, first) {
        Some(k) => k <= last,
        None => false,
    }
}

/// Whether an index that is left to the carrier has a frequency from `lo` to `hi` kilohertz. The search for the least such index
/// begins near `near`, and leaves there where it ended: carriers of one profile have it at the same place.
pub fn has_some_within(
    problem: &Problem,
    trail: &Trail,
    carrier: usize,
    lo: i64,
    hi: i64,
    near: &mut usize,
) -> bool
    requires counts { trail.now.counts ≡ counts_of (case_of problem.now) }
    requires carrier { carrier < length problem.now.carriers }
    ensures { result ≡ false → HasNoneOf (case_of problem.now) (left trail.now) carrier lo hi }
{
    let freqs = problem.freqs(carrier);
    *near = count_below_near(freqs, from(lo), *near);
    match trail.domains().next(carrier, *near as u32) {
        Some(k) => i64::from(freqs[k as usize]) <= hi,
        None => false,
    }
}

//! What a hint takes out of sets of indices, by the definition of its effect.

ghost use Rattle.std.specs.Prelude.{◌≡◌, ◌↔◌, ◌<◌, ◌≤◌, ◌-◌, All, EachIndex, IsTrue, true, false, length, take, drop, slice_index};
ghost use Rattle.std.specs.List.{remove};
ghost use Rattle.rf_terms.specs.Kinds.{roles_of};
ghost use Rattle.rf_log.specs.Case.{count_of, counts_of};
ghost use Rattle.rf_log.specs.Hints as hints;
ghost use Rattle.rf_problem.specs.Problem.{case_of};
ghost use Rattle.rf_domain.specs.Indices.{between};
ghost use Rattle.rf_domain.specs.Sets.{has, sizes, without};
ghost use Rattle.rf_propagate.specs.Applied.{IsRangeIn, AreRolesIn};

use crate::instance::is_instance;
use crate::single::singles_in;
use crate::strike::broken_range;
use rf_domain::Domains;
use rf_problem::Problem;
use rf_terms::{Kind, roles as roles_of};

// Whether the range is one of a carrier of the problem, and of its indices.
fn is_range(problem: &Problem, carrier: usize, lo: u32, hi: u32) -> bool
    ensures { (result ≡ true) ↔ IsRangeIn (case_of problem.now) carrier lo hi }
{
    carrier < problem.carriers() && lo <= hi && hi < problem.count(carrier)
}

// Whether no index from `lo` to `hi` of the carrier is allowed.
fn is_barred(problem: &Problem, carrier: usize, lo: u32, hi: u32) -> bool
    requires range { IsRangeIn (case_of problem.now) carrier lo hi }
    requires carrier { carrier < length problem.now.carriers }
    ensures { result ≡ hints.is_barred (case_of problem.now) carrier lo hi }
{
    for k in lo..problem.count(carrier) {
        if k > hi {
            return true;
        }
        if problem.allowed(carrier, k) {
            return false;
        }
    }
    true
}

/// Takes the indices from `lo` to `hi` out where none of them is allowed, and says whether that is so.
pub fn apply_ban(problem: &Problem, sets: &mut Domains, carrier: usize, lo: u32, hi: u32) -> bool
    requires sized { sizes sets.old ≡ counts_of (case_of problem.now) }
    ensures sizes { sizes sets.new ≡ sizes sets.old }
    ensures fits { result ≡ true → IsRangeIn (case_of problem.now) carrier lo hi }
    ensures barred { result ≡ true → hints.is_barred (case_of problem.now) carrier lo hi ≡ true }
    ensures taken { result ≡ true → has sets.new ≡ without (has sets.old) carrier (between lo hi) }
    ensures fails { result ≡ false → IsRangeIn (case_of problem.now) carrier lo hi → hints.is_barred (case_of problem.now) carrier lo hi ≡ false }
{
    if !is_range(problem, carrier, lo, hi) {
        return false;
    }
    if !is_barred(problem, carrier, lo, hi) {
        return false;
    }
    sets.remove_range(carrier, lo, hi);
    true
}

// The roles but the one at the place.
fn others_of(roles: &[usize], place: usize) -> [usize; 4]
    requires few { length roles.now ≤ 4 }
    requires place { place < length roles.now }
    ensures { take (length roles.now - 1) result ≡ remove roles.now place }
{
    let mut others = [0; 4];
    others[..place].copy_from_slice(&roles[..place]);
    others[place..roles.len() - 1].copy_from_slice(&roles[place + 1..]);
    others
}

// Whether the roles are an instance whose other carriers have one index each, and which each index from `lo` to `hi` of the
// carrier in the role `place` breaks.
fn is_ruled_out(
    problem: &Problem,
    sets: &Domains,
    kind: Kind,
    roles: &[usize],
    place: usize,
    lo: u32,
    hi: u32,
) -> bool
    requires sized { sizes sets.now ≡ counts_of (case_of problem.now) }
    requires full { length roles.now ≡ roles_of kind }
    requires known { All (λ c. c < length problem.now.carriers) roles.now }
    requires place { place < length roles.now }
    requires range { IsRangeIn (case_of problem.now) (slice_index roles.now place) lo hi }
    ensures { result ≡ hints.is_ruled_out (case_of problem.now) (has sets.now) kind roles.now (slice_index roles.now place) lo hi }
{
    if !is_instance(problem, kind, roles) {
        return false;
    }
    let all = others_of(roles, place);
    let others = &all[..roles.len() - 1];
    let Some(freqs) = singles_in(problem, sets, others) else {
        return false;
    };
    let freqs = &freqs[..roles.len() - 1];
    match broken_range(problem, kind, place, roles, freqs, roles[place]) {
        Some((first, last)) => first <= lo && hi <= last,
        None => false,
    }
}

// Whether the roles are those of a hint over the problem: carriers, as many as the kind has roles, then 0, and the target one
// of them.
fn are_roles(problem: &Problem, kind: Kind, all: &[u32; 4], target: u32) -> bool
    ensures { (result ≡ true) ↔ AreRolesIn (case_of problem.now) (roles_of kind) all.now target }
{
    let count = roles_of(kind);
    if target as usize >= count {
        return false;
    }
    if !are_carriers(problem, &all[..count]) {
        return false;
    }
    are_zero(all, count)
}

fn are_carriers(problem: &Problem, roles: &[u32]) -> bool
    ensures { IsTrue result ↔ EachIndex roles.now (λ k. slice_index roles.now k < length (case_of problem.now).carriers) }
{
    let carriers = problem.carriers();
    roles.iter().all(|role| (*role as usize) < carriers)
}

fn are_zero(roles: &[u32], from: usize) -> bool
    ensures { IsTrue result ↔ EachIndex (drop from roles.now) (λ k. slice_index (drop from roles.now) k ≡ 0) }
{
    roles.iter().skip(from).all(|role| *role == 0)
}

/// Takes the indices from `lo` to `hi` of the target out, where each of them breaks the instance, and says whether that is so.
pub fn apply_rule(
    problem: &Problem,
    sets: &mut Domains,
    kind: Kind,
    all: &[u32; 4],
    target: u32,
    lo: u32,
    hi: u32,
) -> bool
    requires sized { sizes sets.old ≡ counts_of (case_of problem.now) }
    ensures sizes { sizes sets.new ≡ sizes sets.old }
    ensures roles { result ≡ true → AreRolesIn (case_of problem.now) (roles_of kind) all.now target }
    ensures range { result ≡ true → IsRangeIn (case_of problem.now) (slice_index all.now target) lo hi }
    ensures ruled { result ≡ true → hints.is_ruled_out (case_of problem.now) (has sets.old) kind (take (roles_of kind) all.now) (slice_index all.now target) lo hi ≡ true }
    ensures taken { result ≡ true → has sets.new ≡ without (has sets.old) (slice_index all.now target) (between lo hi) }
    ensures fails { result ≡ false → AreRolesIn (case_of problem.now) (roles_of kind) all.now target → IsRangeIn (case_of problem.now) (slice_index all.now target) lo hi
        → hints.is_ruled_out (case_of problem.now) (has sets.old) kind (take (roles_of kind) all.now) (slice_index all.now target) lo hi ≡ false }
{
    if !are_roles(problem, kind, all, target) {
        return false;
    }
    let places = [
        all[0] as usize,
        all[1] as usize,
        all[2] as usize,
        all[3] as usize,
    ];
    let place = target as usize;
    let carrier = places[place];
    if !is_range(problem, carrier, lo, hi) {
        return false;
    }
    if !is_ruled_out(
        problem,
        sets,
        kind,
        &places[..roles_of(kind)],
        place,
        lo,
        hi,
    ) {
        return false;
    }
    sets.remove_range(carrier, lo, hi);
    true
}

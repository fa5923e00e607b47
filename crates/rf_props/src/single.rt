//! Carriers that have come to one index, and its frequency.

ghost use Rattle.std.specs.Prelude.{◌≡◌, ◌<◌, ◌≤◌, All, length, take, MatchOption};
ghost use Rattle.rf_log.specs.Case.{counts_of};
ghost use Rattle.rf_problem.specs.Problem.{case_of};
ghost use Rattle.rf_domain.specs.Indices.{count_below};
ghost use Rattle.rf_domain.specs.Sets.{has, sizes};
ghost use Rattle.rf_props.specs.Sweeps.{left, has_at_most_one, IsSingle, HasMany, AreSingle, HaveMany};

use rf_domain::Domains;
use rf_problem::Problem;
use rf_trail::Trail;

// The frequency of a carrier's one index in kilohertz. None where it has not exactly one.
fn single(problem: &Problem, sets: &Domains, carrier: usize) -> Option<u32>
    requires counts { sizes sets.now ≡ counts_of (case_of problem.now) }
    requires carrier { carrier < length problem.now.carriers }
    ensures { MatchOption result (HasMany (case_of problem.now) (has sets.now) carrier) (λ f. IsSingle (case_of problem.now) (has sets.now) carrier f) }
{
    match sets.only(carrier) {
        Some(k) => Some(problem.freqs(carrier)[k as usize]),
        None => None,
    }
}

/// The frequencies of carriers with one index each, as many as the carriers. None where one of them has not exactly one.
pub fn singles_in(problem: &Problem, sets: &Domains, carriers: &[usize]) -> Option<[u32; 4]>
    requires counts { sizes sets.now ≡ counts_of (case_of problem.now) }
    requires few { length carriers.now ≤ 4 }
    requires known { All (λ c. c < length problem.now.carriers) carriers.now }
    ensures { MatchOption result (HaveMany (case_of problem.now) (has sets.now) carriers.now) (λ fs. AreSingle (case_of problem.now) (has sets.now) carriers.now (take (length carriers.now) fs)) }
{
    let mut freqs = [0; 4];
    for i in 0..carriers.len() {
        match single(problem, sets, carriers[i]) {
            Some(freq) => freqs[i] = freq,
            None => return None,
        }
    }
    Some(freqs)
}

/// The frequencies of carriers with one index left each, as many as the carriers. None where one of them has not exactly one.
pub fn singles(problem: &Problem, trail: &Trail, carriers: &[usize]) -> Option<[u32; 4]>
    requires counts { trail.now.counts ≡ counts_of (case_of problem.now) }
    requires few { length carriers.now ≤ 4 }
    requires known { All (λ c. c < length problem.now.carriers) carriers.now }
    ensures { MatchOption result (HaveMany (case_of problem.now) (left trail.now) carriers.now) (λ fs. AreSingle (case_of problem.now) (left trail.now) carriers.now (take (length carriers.now) fs)) }
{
    singles_in(problem, trail.domains(), carriers)
}

/// How many carriers have at most one index left.
pub fn count_fixed(trail: &Trail) -> usize
    ensures { result ≡ count_below (has_at_most_one trail.now) (length trail.now.counts) }
{
    let domains = trail.domains();
    let mut fixed = 0;
    for carrier in 0..domains.carriers() {
        if domains.count(carrier) > 1 {
            continue;
        }
        fixed += 1;
    }
    fixed
}

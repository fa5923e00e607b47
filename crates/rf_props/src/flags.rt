//! Flags, one a carrier: who is single, and who is newly so.

ghost use Rattle.std.specs.Prelude.{◌≡◌, ℕ, ◌<◌, All, true, false, length, IfOk};
ghost use Rattle.std.specs.List.{list_all};
ghost use Rattle.rf_log.specs.Case.{counts_of};
ghost use Rattle.rf_domain.specs.Sets.{has, sizes};
ghost use Rattle.rf_problem.specs.Problem.{case_of};
ghost use Rattle.rf_props.specs.Flags.{is_flagged, AreSingles, AreFresh};

use rf_base::NoMemory;
use rf_domain::Domains;
use rf_problem::Problem;
use rf_zones::MAX_CARRIERS;
use std::alloc::Global;

/// A flag for each carrier.
pub type Flags = [bool; MAX_CARRIERS];

/// No carrier has the flag.
pub fn no_flags() -> Flags
    ensures { (c : ℕ) → is_flagged result c ≡ false }
{
    [false; MAX_CARRIERS]
}

/// Which carriers have exactly one index.
pub fn singles_of(problem: &Problem, domains: &Domains) -> Flags
    requires { sizes domains.now ≡ counts_of (case_of problem.now) }
    ensures { AreSingles (case_of problem.now) (has domains.now) result }
{
    let mut flags = [false; MAX_CARRIERS];
    for carrier in 0..problem.carriers() {
        flags[carrier] = domains.only(carrier).is_some();
    }
    flags
}

/// Whether each carrier that has the first flag has the second too.
pub fn are_within(flags: &Flags, others: &Flags) -> bool
    ensures { result ≡ true → (c : ℕ) → is_flagged flags.now c ≡ true → is_flagged others.now c ≡ true }
{
    for carrier in 0..MAX_CARRIERS {
        if flags[carrier] && !others[carrier] {
            return false;
        }
    }
    true
}

/// The carriers with one index that are not known. `NoMemory` where no memory is found.
pub fn fresh_of(
    alloc: Global,
    problem: &Problem,
    single: &Flags,
    known: &Flags,
) -> Result<Vec<usize>, NoMemory>
    ensures { IfOk result (λ fresh. AreFresh (length problem.now.carriers) single.now known.now fresh.items) }
{
    let mut fresh = Vec::new(alloc);
    for carrier in 0..problem.carriers() {
        if !single[carrier] {
            continue;
        }
        if known[carrier] {
            continue;
        }
        fresh.push(carrier)?;
    }
    Ok(fresh)
}

/// Whether all these carriers have the flag.
pub fn are_flagged(flags: &Flags, carriers: &[usize]) -> bool
    requires { All (λ c. c < MAX_CARRIERS) carriers.now }
    ensures { result ≡ list_all (is_flagged flags.now) carriers.now }
{
    match carriers {
        [] => true,
        [carrier, rest @ ..] => flags[*carrier] && are_flagged(flags, rest),
    }
}

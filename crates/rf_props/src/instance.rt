//! Whether carriers can take a kind's roles at all.

ghost use Rattle.std.specs.Prelude.{◌≡◌, ◌<◌, ◌≤◌, All, length};
ghost use Rattle.rf_terms.specs.Kinds.{roles_of};
ghost use Rattle.rf_log.specs.Case as case;
ghost use Rattle.rf_problem.specs.Problem.{case_of};

use rf_problem::Problem;
use rf_terms::{Kind, order};

/// The carriers, as many as the kind has roles, are distinct, stand in its order, and are together.
pub fn is_instance(problem: &Problem, kind: Kind, roles: &[usize]) -> bool
    requires roles { length roles.now ≡ roles_of kind }
    requires known { All (λ c. c < length problem.now.carriers) roles.now }
    ensures { result ≡ case.is_instance (case_of problem.now) kind roles.now }
{
    if !are_distinct(roles) || !is_in_order(kind, roles) {
        return false;
    }
    problem.together_of(roles)
}

fn are_distinct(carriers: &[usize]) -> bool
    ensures { result ≡ case.are_distinct carriers.now }
{
    match carriers {
        [] => true,
        [c, rest @ ..] => !rest.contains(c) && are_distinct(rest),
    }
}

fn is_in_order(kind: Kind, roles: &[usize]) -> bool
    requires { length roles.now ≡ roles_of kind }
    ensures { result ≡ case.is_in_order kind roles.now }
{
    match order(kind) {
        None => true,
        Some((a, b)) => roles[a] < roles[b],
    }
}

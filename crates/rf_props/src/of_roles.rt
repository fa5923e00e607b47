//! The propagators of the rule table, one for each number of roles.

ghost use Rattle.std.specs.Prelude.{◌≡◌, [], None, false};
ghost use Rattle.rf_terms.specs.Kinds.{kinds_with};
ghost use Rattle.rf_problem.specs.Problem.{case_of};
ghost use Rattle.rf_props.specs.Rests.{Rests, rests_last};

use crate::rest::Rest;
use crate::theory::ProblemTheory;
use rf_base::NoMemory;
use rf_propagate::{Outcome, Propagator};
use rf_terms::kinds_with;
use rf_trail::Trail;

/// Keeps the rules of all kinds with so many roles.
#[derive(Drop)]
pub struct OfRoles<const ROLES: usize> {
    rest: Rest,
}

/// Keeps the spacing of carriers that are together.
pub type Spacing = OfRoles<2>;

/// Keeps carriers away from the products of two others.
pub type TwoSource = OfRoles<3>;

/// Keeps carriers away from the products of three others.
pub type ThreeSource = OfRoles<4>;

impl<const ROLES: usize> OfRoles<ROLES> {
    /// Nothing was ever at rest.
    pub fn new() -> OfRoles<ROLES>
        ensures { result.rest.domains ≡ None }
    {
        OfRoles { rest: Rest::new() }
    }
}

impl<'a, const ROLES: usize> Propagator<ProblemTheory<'a>> for OfRoles<ROLES> {
    ghost kinds = { λ _. kinds_with ROLES };

    ghost bans = { λ _. false };

    ghost held = { λ _. [] };

    ghost fits = { λ p t. Rests (case_of t.problem.now) (kinds_with ROLES) p.rest.domains };

    fn settle(
        &mut self,
        theory: &ProblemTheory<'a>,
        trail: &mut Trail,
    ) -> Result<Outcome, NoMemory> {
        self.rest
            .settle(theory.alloc(), theory.problem(), kinds_with(ROLES), trail)
    }

    ghost lasts = { λ p t u fit same more. rests_last fit same };
}

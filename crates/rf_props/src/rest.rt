//! Where a propagator came to rest, so that it needn't look at everything anew.

ghost use Rattle.std.specs.Prelude.{◌≡◌, ℕ, List, Ok, None, false};
ghost use Rattle.rf_terms.specs.declared.kind.Kind.{Kind};
ghost use Rattle.rf_log.specs.Case.{counts_of};
ghost use Rattle.rf_log.specs.Hints.{Line};
ghost use Rattle.rf_log.specs.Relations.{IsEmptied};
ghost use Rattle.rf_problem.specs.Problem.{case_of};
ghost use Rattle.rf_trail.specs.Trace.{box_of};
ghost use Rattle.rf_propagate.specs.Laws.{Extends, IsQuiet};
ghost use Rattle.rf_props.specs.Flags.{HaveFew};
ghost use Rattle.rf_props.specs.Sweeps.{left, AreKindsDone};
ghost use Rattle.rf_props.specs.Rests.{IsOfCase, Rests};

use crate::flags::{Flags, no_flags, singles_of};
use crate::round::sweep_round;
use crate::single::count_fixed;
use rf_base::NoMemory;
use rf_domain::Domains;
use rf_problem::Problem;
use rf_propagate::{Outcome, outcome_of};
use rf_terms::Kind;
use rf_trail::Trail;
use std::alloc::Global;

/// What was left when nothing more fell, if that was ever so. Where no index has come back since, only instances of which a
/// carrier came to its last index since then can break anything.
#[derive(Drop)]
pub struct Rest {
    domains: Option<Domains>,
}

impl Rest {
    /// Nothing was ever at rest.
    pub fn new() -> Rest
        ensures { result.domains ≡ None }
    {
        Rest { domains: None }
    }

    /// Removes what breaks an instance of these kinds whose other carriers have one index each, until nothing more falls. A
    /// further round is needed only where a carrier came to its last index. `NoMemory` where no memory is found; the removals
    /// made before it stand.
    pub fn settle(
        &mut self,
        alloc: Global,
        problem: &Problem,
        kinds: &[Kind],
        trail: &mut Trail,
    ) -> Result<Outcome, NoMemory>
        requires counts { trail.old.counts ≡ counts_of (case_of problem.now) }
        requires rests { Rests (case_of problem.now) kinds.now self.old.domains }
        ensures counts { trail.new.counts ≡ trail.old.counts }
        ensures rests { Rests (case_of problem.now) kinds.now self.new.domains }
        ensures sound { (lines : List Line) → Extends (case_of problem.now) lines trail.old.entries trail.new.entries }
        ensures quiet { result ≡ Ok Outcome.Quiet → IsQuiet (case_of problem.now) kinds.now false (box_of trail.new) }
        ensures wiped { (c : ℕ) → result ≡ Ok (Outcome.Wiped c) → IsEmptied (case_of problem.now) (box_of trail.new) c }
    {
        let mut known = self.known(problem, trail);
        'rounds: loop {
            let before = count_fixed(trail);
            let single = singles_of(problem, trail.domains());
            sweep_round(alloc, problem, kinds, &single, &known, trail)?;
            if let Outcome::Wiped(carrier) = outcome_of(trail) {
                return Ok(Outcome::Wiped(carrier));
            }
            if count_fixed(trail) == before {
                self.domains = Some(trail.domains().copy(alloc)?);
                return Ok(Outcome::Quiet);
            }
            known = single;
        }
    }

    // The carriers whose instances with each other are done: those that had one index at rest, where no index has come back.
    fn known(&self, problem: &Problem, trail: &Trail) -> Flags
        requires counts { trail.now.counts ≡ counts_of (case_of problem.now) }
        requires sized { IsOfCase (case_of problem.now) self.now.domains }
        ensures few { HaveFew (left trail.now) result }
        ensures done { (kinds : List Kind) → Rests (case_of problem.now) kinds self.now.domains → AreKindsDone (case_of problem.now) (left trail.now) result kinds }
    {
        let Some(rest) = &self.domains else {
            return no_flags();
        };
        if !trail.domains().is_within(rest) {
            return no_flags();
        }
        singles_of(problem, rest)
    }
}

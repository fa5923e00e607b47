//! The engine of all rules over a problem.

ghost use Rattle.std.specs.Prelude.{◌≡◌, ℕ, List, Ok};
ghost use Rattle.rf_log.specs.Case.{counts_of};
ghost use Rattle.rf_log.specs.Hints.{Line};
ghost use Rattle.rf_log.specs.Relations.{IsEmptied};
ghost use Rattle.rf_log.specs.declared.cond.Cond.{Cond};
ghost use Rattle.rf_problem.specs.Problem.{case_of};
ghost use Rattle.rf_trail.specs.Trace.{box_of};
ghost use Rattle.rf_propagate.specs.Laws.{Extends, IsOnPath, IsClosed};

use crate::bans::Bans;
use crate::of_roles::{Spacing, ThreeSource, TwoSource};
use crate::theory::ProblemTheory;
use rf_base::NoMemory;
use rf_propagate::{Both, Engine, Outcome, Propagator};
use rf_trail::Trail;

/// Every propagator of the rules: what is not allowed, and each kind of the rule table. Those that cost little come to rest
/// before one that costs more goes on.
pub type Rules = Both<Both<Both<Bans, Spacing>, TwoSource>, ThreeSource>;

/// The engine of every propagator over a theory.
pub fn engine_of<'a>(theory: ProblemTheory<'a>) -> Engine<ProblemTheory<'a>, Rules>
    ensures { result.theory ≡ theory.entry }
{
    let spaced = Both {
        first: Bans::new(),
        second: Spacing::new(),
    };
    let clear_of_two = Both {
        first: spaced,
        second: TwoSource::new(),
    };
    let rules = Both {
        first: clear_of_two,
        second: ThreeSource::new(),
    };
    Engine::new(theory, rules)
}

/// The engine of every propagator and a further one, which fits the theory.
pub fn engine_with<'a, Q: Propagator<ProblemTheory<'a>>>(
    theory: ProblemTheory<'a>,
    second: Q,
) -> Engine<ProblemTheory<'a>, Both<Rules, Q>>
    requires { Q.fits second theory }
    ensures theory { result.theory ≡ theory.entry }
    ensures second { result.propagator.second ≡ second }
{
    let spaced = Both {
        first: Bans::new(),
        second: Spacing::new(),
    };
    let clear_of_two = Both {
        first: spaced,
        second: TwoSource::new(),
    };
    let rules = Both {
        first: clear_of_two,
        second: ThreeSource::new(),
    };
    let both = Both {
        first: rules,
        second,
    };
    Engine::new(theory, both)
}

/// Settles the engine. Where it is quiet, what is left lies within the closure of each path that the trail was on, and
/// that closure has no empty set. `NoMemory` where no memory is found; the removals made before it stand.
pub fn settle<'a>(
    engine: &mut Engine<ProblemTheory<'a>, Rules>,
    trail: &mut Trail,
) -> Result<Outcome, NoMemory>
    requires { trail.old.counts ≡ counts_of (case_of engine.old.theory.problem.now) }
    ensures theory { engine.new.theory ≡ engine.old.theory }
    ensures counts { trail.new.counts ≡ trail.old.counts }
    ensures sound { Extends (case_of engine.old.theory.problem.now) engine.old.theory.lines trail.old.entries trail.new.entries }
    ensures closed { (path : List Cond) → result ≡ Ok Outcome.Quiet → IsOnPath (case_of engine.old.theory.problem.now) path (box_of trail.old) →
        IsClosed (case_of engine.old.theory.problem.now) path (box_of trail.new) }
    ensures wiped { (c : ℕ) → result ≡ Ok (Outcome.Wiped c) → IsEmptied (case_of engine.old.theory.problem.now) (box_of trail.new) c }
{
    engine.settle(trail)
}

//! One round over the kinds with one number of roles.

ghost use Rattle.std.specs.Prelude.{◌≡◌, ◌<◌, List, OnOk, length};
ghost use Rattle.rf_terms.specs.Kinds.{roles_of};
ghost use Rattle.rf_log.specs.Case.{counts_of};
ghost use Rattle.rf_log.specs.Hints.{Line};
ghost use Rattle.rf_problem.specs.Problem.{case_of};
ghost use Rattle.rf_propagate.specs.Laws.{Extends};
ghost use Rattle.rf_props.specs.Flags.{HaveFew, AreFresh};
ghost use Rattle.rf_props.specs.Sweeps.{left, IsReach, IsKindDone, AreKindsDone};
ghost use Rattle.rf_props.specs.Sweeps as sweeps;
ghost use Rattle.rf_props.specs.Live.{AreMarked};

use crate::flags::{Flags, are_within, fresh_of};
use crate::live::Live;
use crate::sweep::Sweep;
use rf_base::NoMemory;
use rf_problem::Problem;
use rf_terms::{Kind, has_victim, roles};
use rf_trail::Trail;
use std::alloc::Global;

/// Removes what breaks an instance of these kinds whose other carriers are single. Those whose other carriers are all known
/// are done already. `NoMemory` where no memory is found; the removals made before it stand.
pub fn sweep_round(
    alloc: Global,
    problem: &Problem,
    kinds: &[Kind],
    single: &Flags,
    known: &Flags,
    trail: &mut Trail,
) -> Result<(), NoMemory>
    requires counts { trail.old.counts ≡ counts_of (case_of problem.now) }
    requires few { HaveFew (left trail.old) single.now }
    requires few_known { HaveFew (left trail.old) known.now }
    requires done { AreKindsDone (case_of problem.now) (left trail.old) known.now kinds.now }
    ensures counts { trail.new.counts ≡ trail.old.counts }
    ensures sound { (lines : List Line) → Extends (case_of problem.now) lines trail.old.entries trail.new.entries }
    ensures swept { OnOk result (AreKindsDone (case_of problem.now) (left trail.new) single.now kinds.now) }
{
    if are_within(single, known) {
        return Ok(());
    }
    let fresh = fresh_of(alloc, problem, single, known)?;
    let mut live = Live::of(alloc, problem, trail)?;
    sweep_kinds(problem, kinds, single, known, &fresh, trail, &mut live)
}

// The kinds, one after another.
fn sweep_kinds(
    problem: &Problem,
    kinds: &[Kind],
    single: &Flags,
    known: &Flags,
    fresh: &[usize],
    trail: &mut Trail,
    live: &mut Live,
) -> Result<(), NoMemory>
    requires counts { trail.old.counts ≡ counts_of (case_of problem.now) }
    requires live { AreMarked (case_of problem.now) (left trail.old) live.old }
    requires fresh { AreFresh (length problem.now.carriers) single.now known.now fresh.now }
    requires few { HaveFew (left trail.old) single.now }
    requires few_known { HaveFew (left trail.old) known.now }
    requires done { AreKindsDone (case_of problem.now) (left trail.old) known.now kinds.now }
    ensures counts { trail.new.counts ≡ trail.old.counts }
    ensures sound { (lines : List Line) → Extends (case_of problem.now) lines trail.old.entries trail.new.entries }
    ensures live { OnOk result (AreMarked (case_of problem.now) (left trail.new) live.new) }
    ensures swept { OnOk result (AreKindsDone (case_of problem.now) (left trail.new) single.now kinds.now) }
{
    match kinds {
        [] => Ok(()),
        [kind, rest @ ..] => {
            sweep_kind(problem, *kind, single, known, fresh, trail, live)?;
            sweep_kinds(problem, rest, single, known, fresh, trail, live)
        }
    }
}

// The roles of a kind, one after another.
fn sweep_kind(
    problem: &Problem,
    kind: Kind,
    single: &Flags,
    known: &Flags,
    fresh: &[usize],
    trail: &mut Trail,
    live: &mut Live,
) -> Result<(), NoMemory>
    requires counts { trail.old.counts ≡ counts_of (case_of problem.now) }
    requires live { AreMarked (case_of problem.now) (left trail.old) live.old }
    requires fresh { AreFresh (length problem.now.carriers) single.now known.now fresh.now }
    requires few { HaveFew (left trail.old) single.now }
    requires few_known { HaveFew (left trail.old) known.now }
    requires done { IsKindDone (case_of problem.now) (left trail.old) known.now kind }
    ensures counts { trail.new.counts ≡ trail.old.counts }
    ensures sound { (lines : List Line) → Extends (case_of problem.now) lines trail.old.entries trail.new.entries }
    ensures live { OnOk result (AreMarked (case_of problem.now) (left trail.new) live.new) }
    ensures swept { OnOk result (IsKindDone (case_of problem.now) (left trail.new) single.now kind) }
{
    let reach = reach(problem, kind);
    if reach == 0 {
        return Ok(());
    }
    for turn in 0..roles(kind) {
        let sweep = Sweep {
            problem,
            kind,
            place: target_role(kind, turn),
            reach,
            single,
            known,
            fresh,
        };
        sweep.extend([0; 4], 0, trail, live)?;
    }
    Ok(())
}

// The role that the target has in a turn. The victim's comes first: no order of roles keeps a carrier from it, so that most falls
// there, and little is left near when the sources have their turns.
fn target_role(kind: Kind, turn: usize) -> usize
    requires { turn < roles_of kind }
    ensures { result ≡ sweeps.target_role kind turn }
{
    if has_victim(kind) {
        roles(kind) - 1 - turn
    } else {
        turn
    }
}

/// The most that a carrier asks of a kind, in kilohertz.
pub fn reach(problem: &Problem, kind: Kind) -> u32
    ensures { IsReach (case_of problem.now) kind result }
{
    let mut reach = 0;
    for carrier in 0..problem.carriers() {
        reach = reach.max(problem.asked(kind, carrier));
    }
    reach
}

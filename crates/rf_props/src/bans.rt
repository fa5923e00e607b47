//! The propagator of what is not allowed.

ghost use Rattle.std.specs.Prelude.{◌≡◌, ◌<◌, ◌≤◌, [], List, OnOk, IfOk, None, true, length};
ghost use Rattle.rf_log.specs.Case.{count_of, counts_of};
ghost use Rattle.rf_log.specs.Hints.{Line};
ghost use Rattle.rf_zones.specs.declared.mask.TheConstants.{MAX_CARRIERS};
ghost use Rattle.rf_problem.specs.Problem.{case_of};
ghost use Rattle.rf_propagate.specs.Laws.{Extends};
ghost use Rattle.rf_props.specs.Sweeps.{left};
ghost use Rattle.rf_props.specs.Bans.{IsAllowedAt, AreAllowedBelow, IsRunDone, IsFirstFlag, KeepsAllowed, allowed_last};

use crate::strike::is_left;
use crate::theory::ProblemTheory;
use rf_base::NoMemory;
use rf_domain::Domains;
use rf_problem::Problem;
use rf_propagate::{Outcome, Propagator, outcome_of, remove_banned};
use rf_trail::Trail;

/// Takes out the channels that are not allowed. It keeps what was left then: where no channel has come back since, there is
/// nothing to take out.
#[derive(Drop)]
pub struct Bans {
    rest: Option<Domains>,
}

impl Bans {
    /// Nothing was taken out yet.
    pub fn new() -> Bans
        ensures { result.rest ≡ None }
    {
        Bans { rest: None }
    }

    // Whether no channel has come back since all that were left were allowed.
    fn is_done(&self, problem: &Problem, trail: &Trail) -> bool
        requires counts { trail.now.counts ≡ counts_of (case_of problem.now) }
        requires kept { KeepsAllowed (case_of problem.now) self.now.rest }
        ensures { result ≡ true → AreAllowedBelow (case_of problem.now) (left trail.now) (length (case_of problem.now).carriers) }
    {
        let Some(rest) = &self.rest else {
            return false;
        };
        trail.domains().is_within(rest)
    }
}

impl<'a> Propagator<ProblemTheory<'a>> for Bans {
    ghost kinds = { λ _. [] };

    ghost bans = { λ _. true };

    ghost held = { λ _. [] };

    ghost fits = { λ p t. KeepsAllowed (case_of t.problem.now) p.rest };

    fn settle(
        &mut self,
        theory: &ProblemTheory<'a>,
        trail: &mut Trail,
    ) -> Result<Outcome, NoMemory> {
        let problem = theory.problem();
        if self.is_done(problem, trail) {
            return Ok(outcome_of(trail));
        }
        strike_all_bans(problem, trail)?;
        self.rest = Some(trail.domains().copy(theory.alloc())?);
        Ok(outcome_of(trail))
    }

    ghost lasts = { λ p t u fit same more. allowed_last fit same };
}

// Takes out what is not allowed to any carrier.
fn strike_all_bans(problem: &Problem, trail: &mut Trail) -> Result<(), NoMemory>
    requires { trail.old.counts ≡ counts_of (case_of problem.now) }
    ensures counts { trail.new.counts ≡ trail.old.counts }
    ensures sound { (lines : List Line) → Extends (case_of problem.now) lines trail.old.entries trail.new.entries }
    ensures allowed { OnOk result (AreAllowedBelow (case_of problem.now) (left trail.new) (length (case_of problem.now).carriers)) }
{
    for carrier in 0..problem.carriers() {
        strike_bans(problem, carrier, trail)?;
    }
    Ok(())
}

// Takes out what is not allowed to a carrier, by ranges that are as long as can be.
fn strike_bans(problem: &Problem, carrier: usize, trail: &mut Trail) -> Result<(), NoMemory>
    requires counts { trail.old.counts ≡ counts_of (case_of problem.now) }
    requires carrier { carrier < length problem.now.carriers }
    requires few { length problem.now.carriers ≤ MAX_CARRIERS }
    ensures counts { trail.new.counts ≡ trail.old.counts }
    ensures sound { (lines : List Line) → Extends (case_of problem.now) lines trail.old.entries trail.new.entries }
    ensures allowed { OnOk result (IsAllowedAt (case_of problem.now) (left trail.new) carrier) }
{
    let mut from = 0;
    while from < problem.count(carrier) as usize {
        from = strike_run(problem, carrier, from, trail)?;
    }
    Ok(())
}

// Takes out the next range from `from` on that is not allowed, and answers where the flags after it begin.
fn strike_run(
    problem: &Problem,
    carrier: usize,
    from: usize,
    trail: &mut Trail,
) -> Result<usize, NoMemory>
    requires counts { trail.old.counts ≡ counts_of (case_of problem.now) }
    requires carrier { carrier < length problem.now.carriers }
    requires few { length problem.now.carriers ≤ MAX_CARRIERS }
    requires from { from < count_of (case_of problem.now) carrier }
    ensures counts { trail.new.counts ≡ trail.old.counts }
    ensures sound { (lines : List Line) → Extends (case_of problem.now) lines trail.old.entries trail.new.entries }
    ensures run { IfOk result (λ to. IsRunDone (case_of problem.now) (left trail.new) carrier from to) }
{
    let flags = problem.flags(carrier);
    let count = problem.count(carrier) as usize;
    let first = next_flag(flags, from, false);
    if first >= count {
        return Ok(count);
    }
    let end = next_flag(flags, first, true);
    if !is_left(trail, carrier, first as u32, end as u32 - 1) {
        return Ok(end);
    }
    remove_banned(trail, carrier as u32, first as u32, end as u32 - 1)?;
    Ok(end)
}

// The first flag from `from` on that is as wanted, or how many flags there are.
fn next_flag(flags: &[bool], from: usize, wanted: bool) -> usize
    requires { from ≤ length flags.now }
    ensures { IsFirstFlag flags.now from wanted result }
{
    let mut at = from;
    while at < flags.len() {
        if flags[at] == wanted {
            return at;
        }
        at += 1;
    }
    at
}

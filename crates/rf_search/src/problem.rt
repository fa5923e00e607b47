//! The search of a problem, with every propagator and with advice.

ghost use Rattle.std.specs.Prelude.{◌≡◌, ◌≤◌, List, Err, IfOk, length};
ghost use Rattle.rf_base.specs.Cause.{Rose};
ghost use Rattle.rf_log.specs.Solved.{IsStarted, IsSolved};
ghost use Rattle.rf_log.specs.declared.line.LogLine.{LogLine};
ghost use Rattle.rf_problem.specs.Problem.{case_of};
ghost use Rattle.rf_search.specs.declared.limits.TheConstants.{MAX_BUDGET};
ghost use Rattle.rf_search.specs.Answers.{ending_of};
ghost use Rattle.rf_search.specs.Out.{Leads, LeadsToFailed};

use crate::answer::Answer;
use crate::out::LogOut;
use crate::solving::{SolveFault, solve_by};
use rf_base::{Items, NoMemory};
use rf_domain::Domains;
use rf_find::{Advice, find};
use rf_nogoods::Nogoods;
use rf_problem::Problem;
use rf_propagate::{Both, Engine, Outcome};
use rf_props::{ProblemTheory, Rules, engine_with, trail_of};
use std::alloc::Global;

/// Searches for a plan of a problem with at most `budget` branchings. Each line of the log is handed out as soon as it is made.
/// `LogFault` comes only where the output's count rose, `Memory` where no memory is found.
pub fn solve<L: LogOut>(
    alloc: Global,
    problem: &Problem,
    budget: u32,
    out: &mut L,
) -> Result<Answer, SolveFault>
    requires budget { budget ≤ MAX_BUDGET }
    requires carriers { L.carriers out.old ≡ length (case_of problem.now).carriers }
    ensures carriers { L.carriers out.new ≡ L.carriers out.old }
    // the lines that were taken and the answer are what a solver owes
    ensures solved { IfOk result (λ answer. (lines : List LogLine) × Leads L.taken out.old lines out.new
        × IsSolved (case_of problem.now) budget lines (ending_of answer)) }
    // after a fault the lines handed out, a failed last one among them, are started
    ensures failed { result ≡ Err SolveFault.LogFault → (lines : List LogLine) × LeadsToFailed L.taken L.failed out.old lines out.new
        × IsStarted (case_of problem.now) budget lines }
    ensures memory { result ≡ Err SolveFault.Memory → (lines : List LogLine) × Leads L.taken out.old lines out.new
        × IsStarted (case_of problem.now) budget lines }
    ensures cause { result ≡ Err SolveFault.LogFault → Rose (L.faults out.old) (L.faults out.new) }
    ensures later { L.faults out.old ≤ L.faults out.new }
{
    let Ok(theory) = ProblemTheory::new(alloc, problem) else {
        return Err(SolveFault::Memory);
    };
    let Ok(trail) = trail_of(alloc, problem) else {
        return Err(SolveFault::Memory);
    };
    let mut engine = engine_with(theory, Nogoods::new(alloc));
    let Ok(advice) = advice_for(alloc, problem, &mut engine, budget) else {
        return Err(SolveFault::Memory);
    };
    solve_by(alloc, &mut engine, trail, advice.as_slice(), budget, out)
}

// What is advised for each carrier, where a search is to branch: where there is something left to decide, and a branching to do it.
fn advice_for<'a>(
    alloc: Global,
    problem: &Problem,
    engine: &mut Engine<ProblemTheory<'a>, Both<Rules, Nogoods>>,
    budget: u32,
) -> Result<Items<Advice>, NoMemory>
    requires { engine.old.theory.problem.now ≡ problem.now }
    ensures { engine.new.theory ≡ engine.old.theory }
{
    if budget == 0 {
        return Ok(Items::from_vec(Vec::new(alloc)));
    }
    let mut trail = trail_of(alloc, problem)?;
    match engine.settle(&mut trail)? {
        Outcome::Quiet if is_open(trail.domains()) => Ok(find(alloc, problem)?.advice),
        _ => Ok(Items::from_vec(Vec::new(alloc))),
    }
}

// Whether some carrier has two indices left or more.
fn is_open(domains: &Domains) -> bool {
    for carrier in 0..domains.carriers() {
        if domains.count(carrier) > 1 {
            return true;
        }
    }
    false
}

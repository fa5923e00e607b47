//! The locks that can't be spared, one after another.

ghost use Rattle.std.specs.Prelude.{◌≡◌, ◌+◌, ◌<◌, ◌≤◌, ℕ, IfOk, length, remove, slice_index};
ghost use Rattle.rf_log.specs.Solved.{refuted};
ghost use Rattle.rf_show.specs.Show.{ShowData};
ghost use Rattle.rf_search.specs.declared.limits.TheConstants.{MAX_BUDGET};
ghost use Rattle.rf_solving.specs.Solving.{IsSolvedBy};
ghost use Rattle.rf_tighter.specs.Locked.{kept};
ghost use Rattle.rf_decide.specs.Decisions.{Calls, IsDecision};
ghost use Rattle.rf_core.specs.Answers.{IsBlocked};
ghost use Rattle.rf_core.specs.Blocking.{locks_of};
ghost use Rattle.rf_core.specs.Sparing.{AtMostOnce, IsHeld, IsTurn};

use crate::answer::Blocked;
use crate::locks::{eased, locks_in, without};
use rf_base::{Items, NoMemory};
use rf_decide::{Decide, Decision};
use rf_log::LogLine;
use rf_show::Show;
use rf_tighter::fewer_locks_keep_plans;
use std::alloc::Global;

// Locks with a refutation; of the first of them it is known that there is a plan without each.
#[derive(Drop)]
struct Held {
    keep: Vec<u32>,
    plans: Vec<Items<u32>>,
    log: Items<LogLine>,
}

// What a try without one lock comes to.
#[derive(Drop)]
enum Turn {
    Next(Held),
    Stuck(Blocked),
}

/// Which locks block a plan, each decision with at most `budget` branchings, at most 20,000.
pub fn least<D: Decide>(
    alloc: Global,
    show: &Show,
    budget: u32,
    decide: &mut D,
) -> Result<Blocked, NoMemory>
    requires { budget ≤ MAX_BUDGET }
    ensures blocked { IfOk result (λ answer. IsBlocked show.now budget answer) }
    ensures calls { (n : ℕ) × (n ≤ length (locks_of show.now) + 1) × Calls D.asked n decide.old decide.new }
{
    let keep = locks_in(alloc, show)?;
    match decide.decide(show, budget)? {
        Decision::Plan(plan) => Ok(Blocked::Plan { plan }),
        Decision::Refuted(log) => spare(alloc, show, budget, decide, keep, log),
        Decision::Spent(log) => Ok(Blocked::Spent {
            keep: Items::from_vec(keep),
            log,
            dropped: None,
        }),
    }
}

// Tries without each lock, from a refutation with all of them.
fn spare<D: Decide>(
    alloc: Global,
    show: &Show,
    budget: u32,
    decide: &mut D,
    keep: Vec<u32>,
    log: Items<LogLine>,
) -> Result<Blocked, NoMemory>
    requires budget { budget ≤ MAX_BUDGET }
    requires keep { keep.items ≡ locks_of show.now }
    requires log { IsSolvedBy show.now budget refuted log }
    ensures blocked { IfOk result (λ answer. IsBlocked show.now budget answer) }
    ensures calls { (n : ℕ) × (n ≤ length (locks_of show.now)) × Calls D.asked n decide.old decide.new }
{
    let mut held = Held {
        keep,
        plans: Vec::new(alloc),
        log,
    };
    'locks: while held.plans.len() < held.keep.len() {
        match spare_one(alloc, show, budget, decide, held)? {
            Turn::Next(next) => held = next,
            Turn::Stuck(answer) => return Ok(answer),
        }
    }
    Ok(Blocked::Locks {
        keep: Items::from_vec(held.keep),
        plans: Items::from_vec(held.plans),
        log: held.log,
    })
}

// A try without the next lock.
fn spare_one<D: Decide>(
    alloc: Global,
    show: &Show,
    budget: u32,
    decide: &mut D,
    held: Held,
) -> Result<Turn, NoMemory>
    requires budget { budget ≤ MAX_BUDGET }
    requires held { IsHeld show.now budget held }
    requires room { length held.plans.items < length held.keep.items }
    ensures turn { IfOk result (λ turn. IsTurn show.now budget held turn) }
    ensures calls { AtMostOnce D.asked decide.old decide.new }
{
    fewer_locks_keep_plans();
    let at = held.plans.len();
    let fewer = without(alloc, held.keep.as_slice(), at)?;
    let eased = eased(alloc, show, fewer.as_slice())?;
    let decision = decide.decide(&eased, budget)?;
    spared(held, fewer, decision)
}

// What a decision without the next lock makes of the locks that are held.
fn spared(held: Held, fewer: Vec<u32>, decision: Decision) -> Result<Turn, NoMemory>
    requires fewer { fewer.items ≡ remove held.keep.items (length held.plans.items) }
    requires room { length held.plans.items < length held.keep.items }
    ensures { IfOk result (λ turn. (show : ShowData) (n : ℕ) → IsHeld show n held → IsDecision (kept show fewer.items) n decision → IsTurn show n held turn) }
{
    fewer_locks_keep_plans();
    let Held {
        keep,
        mut plans,
        log: all,
    } = held;
    match decision {
        Decision::Plan(plan) => {
            plans.push(plan)?;
            Ok(Turn::Next(Held {
                keep,
                plans,
                log: all,
            }))
        }
        Decision::Refuted(log) => Ok(Turn::Next(Held {
            keep: fewer,
            plans,
            log,
        })),
        Decision::Spent(log) => Ok(Turn::Stuck(Blocked::Spent {
            keep: Items::from_vec(fewer),
            log,
            dropped: Some((keep[plans.len()], all)),
        })),
    }
}

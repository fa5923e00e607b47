//! The greatest widening, by halving.

ghost use Rattle.std.specs.Prelude.{◌≡◌, ◌+◌, ◌≤◌, ℕ, true, IfOk};
ghost use Rattle.rf_log.specs.Case.{IsPlan};
ghost use Rattle.rf_show.specs.Case.{case_of};
ghost use Rattle.rf_show.specs.Show.{ShowData};
ghost use Rattle.rf_show.specs.Raised.{is_textual, raised};
ghost use Rattle.rf_search.specs.declared.limits.TheConstants.{MAX_BUDGET};
ghost use Rattle.rf_decide.specs.Decisions.{Calls, IsDecision};
ghost use Rattle.rf_margin.specs.Brackets.{high_of, middle};
ghost use Rattle.rf_margin.specs.Answers.{IsWidened};
ghost use Rattle.rf_margin.specs.Texts.{CanBeWritten};
ghost use Rattle.rf_margin.specs.Halving.{AtMostOnce, IsHeld, IsTurn};

use crate::answer::Widest;
use crate::laws::widened_can_be_written;
use rf_base::{Items, NoMemory};
use rf_decide::{Decide, Decision};
use rf_log::LogLine;
use rf_show::Show;
use rf_tighter::raised_by_none;
use std::alloc::Global;

// The least extra margin that isn't asked for.
const BEYOND: u32 = 1001;

// A bracket: below it a plan, above it a refutation, or none where its upper end is beyond what is asked for.
#[derive(Drop)]
struct Held {
    below: (u32, Items<u32>),
    above: Option<(u32, Items<LogLine>)>,
}

impl Held {
    fn high(&self) -> u32
        ensures { result ≡ high_of self.now.above }
    {
        match &self.above {
            None => BEYOND,
            Some(above) => above.0,
        }
    }
}

// What one halving comes to.
#[derive(Drop)]
enum Turn {
    Narrower(Held),
    Stuck(Widest),
}

/// How much wider the spacings and margins of a show can be, of which none is above 100,000: each decision has at most
/// `budget` branchings, at most `MAX_BUDGET`. `NoMemory` where no memory is found.
pub fn widest<D: Decide>(
    alloc: Global,
    show: &Show,
    budget: u32,
    decide: &mut D,
) -> Result<Widest, NoMemory>
    requires budget { budget ≤ MAX_BUDGET }
    requires textual { is_textual show.now ≡ true }
    ensures widened { IfOk result (λ answer. IsWidened show.now budget answer) }
    ensures written { IfOk result (λ answer. CanBeWritten show.now answer) }
    ensures calls { (n : ℕ) × (n ≤ 11) × Calls D.asked n decide.old decide.new }
{
    let answer = decided(alloc, show, budget, decide)?;
    widened_can_be_written();
    Ok(answer)
}

// The first decision, of the show as it is, and what follows.
fn decided<D: Decide>(
    alloc: Global,
    show: &Show,
    budget: u32,
    decide: &mut D,
) -> Result<Widest, NoMemory>
    requires budget { budget ≤ MAX_BUDGET }
    requires textual { is_textual show.now ≡ true }
    ensures widened { IfOk result (λ answer. IsWidened show.now budget answer) }
    ensures calls { (n : ℕ) × (n ≤ 11) × Calls D.asked n decide.old decide.new }
{
    match decide.decide(show, budget)? {
        Decision::Plan(plan) => bisect(alloc, show, budget, decide, plan),
        Decision::Refuted(log) => Ok(Widest::Refuted { log }),
        Decision::Spent(log) => Ok(Widest::Spent {
            extra: 0,
            log,
            below: None,
            above: None,
        }),
    }
}

// Halves until the bracket is narrow, from a plan of the show as it is.
fn bisect<D: Decide>(
    alloc: Global,
    show: &Show,
    budget: u32,
    decide: &mut D,
    plan: Items<u32>,
) -> Result<Widest, NoMemory>
    requires budget { budget ≤ MAX_BUDGET }
    requires textual { is_textual show.now ≡ true }
    requires plan { IsPlan (case_of show.now) plan }
    ensures widened { IfOk result (λ answer. IsWidened show.now budget answer) }
    ensures calls { (n : ℕ) × (n ≤ 10) × Calls D.asked n decide.old decide.new }
{
    raised_by_none();
    let mut held = Held {
        below: (0, plan),
        above: None,
    };
    'halvings: while held.high() - held.below.0 >= 2 {
        match narrow(alloc, show, budget, decide, held)? {
            Turn::Narrower(next) => held = next,
            Turn::Stuck(answer) => return Ok(answer),
        }
    }
    Ok(answer_of(held))
}

fn answer_of(held: Held) -> Widest
    requires { high_of held.above ≤ held.below.0 + 1 }
    ensures { (show : ShowData) (n : ℕ) → IsHeld show n held → IsWidened show n result }
{
    let (extra, plan) = held.below;
    match held.above {
        None => Widest::Most { plan },
        Some((_, log)) => Widest::Greatest { extra, plan, log },
    }
}

// One halving: the middle of the bracket is decided.
fn narrow<D: Decide>(
    alloc: Global,
    show: &Show,
    budget: u32,
    decide: &mut D,
    held: Held,
) -> Result<Turn, NoMemory>
    requires budget { budget ≤ MAX_BUDGET }
    requires textual { is_textual show.now ≡ true }
    requires held { IsHeld show.now budget held }
    requires room { held.below.0 + 2 ≤ high_of held.above }
    ensures turn { IfOk result (λ turn. IsTurn show.now budget held turn) }
    ensures calls { AtMostOnce D.asked decide.old decide.new }
{
    let middle = (held.below.0 + held.high()) / 2;
    let wider = raised_copy(alloc, show, middle)?;
    let decision = decide.decide(&wider, budget)?;
    Ok(narrowed(held, middle, decision))
}

// A copy of the show, raised.
fn raised_copy(alloc: Global, show: &Show, extra: u32) -> Result<Show, NoMemory>
    requires extra { extra ≤ 1000 }
    requires textual { is_textual show.now ≡ true }
    ensures { IfOk result (λ wider. wider ≡ raised show.now extra) }
{
    let mut wider = show.copy(alloc)?;
    wider.raise(extra);
    Ok(wider)
}

// What a decision at the middle makes of a bracket.
fn narrowed(held: Held, extra: u32, decision: Decision) -> Turn
    requires middle { extra ≡ middle held.below.0 (high_of held.above) }
    requires room { held.below.0 + 2 ≤ high_of held.above }
    ensures { (show : ShowData) (n : ℕ) → IsHeld show n held → IsDecision (raised show extra) n decision → IsTurn show n held result }
{
    match decision {
        Decision::Plan(plan) => Turn::Narrower(Held {
            below: (extra, plan),
            above: held.above,
        }),
        Decision::Refuted(log) => Turn::Narrower(Held {
            below: held.below,
            above: Some((extra, log)),
        }),
        Decision::Spent(log) => Turn::Stuck(Widest::Spent {
            extra,
            log,
            below: Some(held.below),
            above: held.above,
        }),
    }
}

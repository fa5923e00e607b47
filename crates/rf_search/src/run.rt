//! The loop of a search: settle, close, branch.

ghost use Rattle.std.specs.Prelude.{◌≡◌, ◌<◌, ◌≤◌, ℕ, None, Some, Ok, Err, IfOk, IfErr, OnOk, length};
ghost use Rattle.rf_base.specs.Cause.{Rose};
ghost use Rattle.rf_log.specs.Relations.{IsEmptied};
ghost use Rattle.rf_trail.specs.Trace.{box_of};
ghost use Rattle.rf_search.specs.declared.answer.Answer.{Answer};
ghost use Rattle.rf_search.specs.Answers.{ending_of};
ghost use Rattle.rf_search.specs.State.{IsWriting, IsStopped, IsFailed, effort};
ghost use Rattle.rf_search.specs.Turns.{IsWhole, IsAtRest, IsBranching, HasEnded};

use crate::answer::Answer;
use crate::choice::{Choice, choose, plan_of};
use crate::closing::{go_up_all, hand_nogood};
use crate::handing::hand;
use crate::level::Level;
use crate::out::LogOut;
use crate::refuting::{conds_of, refute};
use crate::search::Search;
use crate::solving::SolveFault;
use rf_base::Items;
use rf_find::Advice;
use rf_log::{Cond, Cut, LogLine};
use rf_propagate::{Applies, Engine, Grows, Learns, Outcome, Propagator, Theory};
use std::alloc::Global;

/// Closes the side of the tree in which a carrier has no index left, and learns why. It is the end where no side is left.
fn close<T: Grows + Applies, P: Learns<T>, L: LogOut>(
    alloc: Global,
    engine: &mut Engine<T, P>,
    search: &mut Search,
    carrier: usize,
    out: &mut L,
) -> Result<Option<Answer>, SolveFault>
    ghost first: { L }
    requires writing { IsWriting L.taken (T.case engine.old.theory) (T.lines engine.old.theory) search.old first out.old }
    requires emptied { IsEmptied (T.case engine.old.theory) (box_of search.old.trail) carrier }
    requires carriers { L.carriers out.old ≡ length (T.case engine.old.theory).carriers }
    ensures carriers { L.carriers out.new ≡ L.carriers out.old }
    ensures case { T.case engine.new.theory ≡ T.case engine.old.theory }
    ensures kinds { P.kinds engine.new.propagator ≡ P.kinds engine.old.propagator }
    ensures bans { P.bans engine.new.propagator ≡ P.bans engine.old.propagator }
    ensures on { result ≡ Ok None → IsWriting L.taken (T.case engine.old.theory) (T.lines engine.new.theory) search.new first out.new }
    ensures less { result ≡ Ok None → effort search.new < effort search.old }
    ensures ended { (answer : Answer) → result ≡ Ok (Some answer) → HasEnded L.taken (T.case engine.old.theory) search.old.budget first out.new (ending_of answer) }
    ensures budget { OnOk result (search.new.budget ≡ search.old.budget) }
    ensures failed { result ≡ Err SolveFault.LogFault → IsFailed L.taken L.failed (T.case engine.old.theory) search.old.budget first out.new }
    ensures memory { result ≡ Err SolveFault.Memory → IsStopped L.taken (T.case engine.old.theory) search.old.budget first out.new }
    ensures cause { result ≡ Err SolveFault.LogFault → Rose (L.faults out.old) (L.faults out.new) }
    ensures later { L.faults out.old ≤ L.faults out.new }
{
    let Ok(line) = refute(alloc, engine.theory(), search, carrier) else {
        return Err(SolveFault::Memory);
    };
    let conds = conds_of(&line);
    let number = search.lines + 1;
    hand_nogood(engine.theory(), search, &line, conds, out)?;
    if !go_up_all(engine.theory(), search, number, conds, out)? {
        return Ok(Some(Answer::Refuted));
    }
    match engine.learn(number, conds) {
        Ok(()) => Ok(None),
        Err(_) => Err(SolveFault::Memory),
    }
}

/// Branches, where nothing more falls. It is the end where each carrier has one index, or where the budget is used up.
fn go_down<T: Theory, L: LogOut>(
    alloc: Global,
    theory: &T,
    search: &mut Search,
    advice: &[Advice],
    out: &mut L,
) -> Result<Option<Answer>, SolveFault>
    ghost first: { L }
    requires writing { IsWriting L.taken (T.case theory.now) (T.lines theory.now) search.old first out.old }
    requires rest { IsAtRest (T.case theory.now) search.old }
    requires carriers { L.carriers out.old ≡ length (T.case theory.now).carriers }
    ensures carriers { L.carriers out.new ≡ L.carriers out.old }
    ensures on { result ≡ Ok None → IsWriting L.taken (T.case theory.now) (T.lines theory.now) search.new first out.new }
    ensures less { result ≡ Ok None → effort search.new < effort search.old }
    ensures ended { (answer : Answer) → result ≡ Ok (Some answer) → HasEnded L.taken (T.case theory.now) search.old.budget first out.new (ending_of answer) }
    ensures budget { OnOk result (search.new.budget ≡ search.old.budget) }
    ensures failed { result ≡ Err SolveFault.LogFault → IsFailed L.taken L.failed (T.case theory.now) search.old.budget first out.new }
    ensures memory { result ≡ Err SolveFault.Memory → IsStopped L.taken (T.case theory.now) search.old.budget first out.new }
    ensures cause { result ≡ Err SolveFault.LogFault → Rose (L.faults out.old) (L.faults out.new) }
    ensures later { L.faults out.old ≤ L.faults out.new }
{
    let Some(choice) = choose(&search.trail, advice) else {
        let Ok(plan) = plan_of(alloc, &search.trail) else {
            return Err(SolveFault::Memory);
        };
        return Ok(Some(Answer::Plan(Items::from_vec(plan))));
    };
    if search.branches >= search.budget {
        return Ok(Some(Answer::Spent));
    }
    branch(theory, search, choice, out)?;
    Ok(None)
}

// Hands out a branch line, and goes down its left side: the choice's index alone.
fn branch<T: Theory, L: LogOut>(
    theory: &T,
    search: &mut Search,
    choice: Choice,
    out: &mut L,
) -> Result<(), SolveFault>
    ghost first: { L }
    requires writing { IsWriting L.taken (T.case theory.now) (T.lines theory.now) search.old first out.old }
    requires branching { IsBranching (T.case theory.now) search.old choice }
    requires left { search.old.branches < search.old.budget }
    requires carriers { L.carriers out.old ≡ length (T.case theory.now).carriers }
    ensures carriers { L.carriers out.new ≡ L.carriers out.old }
    ensures ok { OnOk result (IsWriting L.taken (T.case theory.now) (T.lines theory.now) search.new first out.new) }
    ensures less { OnOk result (effort search.new < effort search.old) }
    ensures budget { OnOk result (search.new.budget ≡ search.old.budget) }
    ensures failed { result ≡ Err SolveFault.LogFault → IsFailed L.taken L.failed (T.case theory.now) search.old.budget first out.new }
    ensures memory { result ≡ Err SolveFault.Memory → IsStopped L.taken (T.case theory.now) search.old.budget first out.new }
    ensures cause { result ≡ Err SolveFault.LogFault → Rose (L.faults out.old) (L.faults out.new) }
    ensures later { L.faults out.old ≤ L.faults out.new }
{
    let carrier = choice.carrier as u32;
    let cond = Cond {
        carrier,
        inside: true,
        lo: choice.at,
        hi: choice.at,
    };
    hand(
        out,
        &LogLine::Branch {
            cut: Cut::Fix,
            carrier,
            at: choice.at,
        },
    )?;
    search.lines += 1;
    search.branches += 1;
    let mark = search.trail.mark();
    let Ok(()) = search.levels.push(Level {
        cond,
        mark,
        closed_by: None,
    })
    else {
        return Err(SolveFault::Memory);
    };
    let Ok(()) = search.trail.decide(cond) else {
        return Err(SolveFault::Memory);
    };
    Ok(())
}

/// Has the engine remove what it can.
fn settle<T: Theory, P: Propagator<T>, L: LogOut>(
    engine: &mut Engine<T, P>,
    search: &mut Search,
    out: &L,
) -> Result<Outcome, SolveFault>
    ghost first: { L }
    requires writing { IsWriting L.taken (T.case engine.old.theory) (T.lines engine.old.theory) search.old first out.now }
    requires whole { IsWhole (P.kinds engine.old.propagator) (P.bans engine.old.propagator) }
    ensures theory { engine.new.theory ≡ engine.old.theory }
    ensures whole { IsWhole (P.kinds engine.new.propagator) (P.bans engine.new.propagator) }
    ensures writing { IsWriting L.taken (T.case engine.old.theory) (T.lines engine.old.theory) search.new first out.now }
    ensures rest { result ≡ Ok Outcome.Quiet → IsAtRest (T.case engine.old.theory) search.new }
    ensures wiped { (c : ℕ) → result ≡ Ok (Outcome.Wiped c) → IsEmptied (T.case engine.old.theory) (box_of search.new.trail) c }
    ensures budget { search.new.budget ≡ search.old.budget }
    ensures effort { effort search.new ≡ effort search.old }
    ensures err { IfErr result (λ fault. fault ≡ SolveFault.Memory) }
{
    match engine.settle(&mut search.trail) {
        Ok(outcome) => Ok(outcome),
        Err(_) => Err(SolveFault::Memory),
    }
}

/// One turn of a search: what the engine can remove, and then a closed side, a branching or an end.
fn step<T: Grows + Applies, P: Learns<T>, L: LogOut>(
    alloc: Global,
    engine: &mut Engine<T, P>,
    search: &mut Search,
    advice: &[Advice],
    out: &mut L,
) -> Result<Option<Answer>, SolveFault>
    ghost first: { L }
    requires writing { IsWriting L.taken (T.case engine.old.theory) (T.lines engine.old.theory) search.old first out.old }
    requires whole { IsWhole (P.kinds engine.old.propagator) (P.bans engine.old.propagator) }
    requires carriers { L.carriers out.old ≡ length (T.case engine.old.theory).carriers }
    ensures carriers { L.carriers out.new ≡ L.carriers out.old }
    ensures case { T.case engine.new.theory ≡ T.case engine.old.theory }
    ensures whole { IsWhole (P.kinds engine.new.propagator) (P.bans engine.new.propagator) }
    ensures on { result ≡ Ok None → IsWriting L.taken (T.case engine.old.theory) (T.lines engine.new.theory) search.new first out.new }
    ensures less { result ≡ Ok None → effort search.new < effort search.old }
    ensures ended { (answer : Answer) → result ≡ Ok (Some answer) → HasEnded L.taken (T.case engine.old.theory) search.old.budget first out.new (ending_of answer) }
    ensures budget { OnOk result (search.new.budget ≡ search.old.budget) }
    ensures failed { result ≡ Err SolveFault.LogFault → IsFailed L.taken L.failed (T.case engine.old.theory) search.old.budget first out.new }
    ensures memory { result ≡ Err SolveFault.Memory → IsStopped L.taken (T.case engine.old.theory) search.old.budget first out.new }
    ensures cause { result ≡ Err SolveFault.LogFault → Rose (L.faults out.old) (L.faults out.new) }
    ensures later { L.faults out.old ≤ L.faults out.new }
{
    match settle(engine, search, out)? {
        Outcome::Wiped(carrier) => close(alloc, engine, search, carrier, out),
        Outcome::Quiet => go_down(alloc, engine.theory(), search, advice, out),
    }
}

/// Searches to an end. Where it branches goes by what is advised.
pub fn run<T: Grows + Applies, P: Learns<T>, L: LogOut>(
    alloc: Global,
    engine: &mut Engine<T, P>,
    search: &mut Search,
    advice: &[Advice],
    out: &mut L,
) -> Result<Answer, SolveFault>
    ghost first: { L }
    requires writing { IsWriting L.taken (T.case engine.old.theory) (T.lines engine.old.theory) search.old first out.old }
    requires whole { IsWhole (P.kinds engine.old.propagator) (P.bans engine.old.propagator) }
    requires carriers { L.carriers out.old ≡ length (T.case engine.old.theory).carriers }
    ensures carriers { L.carriers out.new ≡ L.carriers out.old }
    ensures ended { IfOk result (λ answer. HasEnded L.taken (T.case engine.old.theory) search.old.budget first out.new (ending_of answer)) }
    ensures failed { result ≡ Err SolveFault.LogFault → IsFailed L.taken L.failed (T.case engine.old.theory) search.old.budget first out.new }
    ensures memory { result ≡ Err SolveFault.Memory → IsStopped L.taken (T.case engine.old.theory) search.old.budget first out.new }
    ensures cause { result ≡ Err SolveFault.LogFault → Rose (L.faults out.old) (L.faults out.new) }
    ensures later { L.faults out.old ≤ L.faults out.new }
{
    'turns: loop {
        if let Some(answer) = step(alloc, engine, search, advice, out)? {
            return Ok(answer);
        }
    }
}

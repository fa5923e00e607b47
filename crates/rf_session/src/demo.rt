//! The demonstration: the session's machine answers the script that a number makes.

ghost use Rattle.std.specs.Prelude.{◌≡◌, ◌≤◌, ◌<◌, ◌+◌, ◌-◌, ◌^◌, IfOk, string_bytes, if◌then◌else◌};
ghost use Rattle.rf_base.specs.Cause.{Rose};
ghost use Rattle.rf_session.specs.Demonstrated as spec;

use crate::machine::{Machine, Stop};
use crate::show_machine::ShowMachine;
use rf_base::{CleanShelf, CleanSink, Failed, NoMemory, Sink, Status, put};
use rf_demo::Script;
use std::alloc::Global;

/// What a demonstration counts.
#[derive(Clone, Copy, PartialEq, Eq)]
pub struct Tally {
    /// The lines of the script.
    pub lines: u64,
    /// Those that were refused.
    pub refused: u64,
    /// The carriers of the show at the end.
    pub carriers: u64,
    /// The conflicts of the show at the end.
    pub conflicts: u64,
}

/// Runs the script of a number, and writes what came of it.
pub(crate) fn demonstrate<O: Sink>(alloc: Global, seed: u32, count: u32, output: &mut O) -> Status
    ensures ends { spec.Demonstrates seed count result (O.contents output.old) (O.contents output.new) }
    ensures later { O.faults output.old ≤ O.faults output.new }
    ensures fault { result ≡ Status.Write → Rose (O.faults output.old) (O.faults output.new) }
{
    let Ok(text) = demo_text(alloc, seed, count) else {
        return Status::Memory;
    };
    match put(output, text.as_bytes()) {
        Ok(()) => Status::Done,
        Err(Failed) => Status::Write,
    }
}

/// The lines that a demonstration writes.
fn demo_text(alloc: Global, seed: u32, count: u32) -> Result<String, NoMemory>
    ensures { IfOk result (λ text. spec.Demonstrated seed count (string_bytes text)) }
{
    let tally = play(alloc, seed, count)?;
    tally_text(alloc, tally)
}

fn tally_text(alloc: Global, tally: Tally) -> Result<String, NoMemory>
    ensures { IfOk result (λ text. string_bytes text ≡ spec.tally_text tally) }
{
    let Tally {
        lines,
        refused,
        carriers,
        conflicts,
    } = tally;
    let mut text = String::new(alloc);
    writeln!(text, "lines {lines}")?;
    writeln!(text, "refused {refused}")?;
    writeln!(text, "carriers {carriers}")?;
    writeln!(text, "conflicts {conflicts}")?;
    Ok(text)
}

/// Runs the script of a number.
fn play(alloc: Global, seed: u32, count: u32) -> Result<Tally, NoMemory>
    ensures { IfOk result (λ tally. spec.IsTally seed count tally) }
{
    let mut machine = ShowMachine::new(alloc)?;
    let mut script = Script::new(seed, count);
    let mut lines = 0_u64;
    let mut refused = 0_u64;
    while let Some(line) = script.next(alloc)? {
        lines += 1;
        let refusal = play_line(alloc, &mut machine, line.as_bytes())?;
        refused = with_refusal(refused, refusal);
    }
    let editor = machine.editor();
    Ok(Tally {
        lines,
        refused,
        carriers: editor.show().carriers().len() as u64,
        conflicts: editor.conflicts().total,
    })
}

/// How many lines are refused, after one more line.
fn with_refusal(refused: u64, refusal: bool) -> u64
    requires { refused < 2 ^ 64 - 1 }
    ensures refused { result ≡ refused + (if refusal then 1 else 0) }
    ensures within { result ≤ refused + 1 }
{
    if refusal { refused + 1 } else { refused }
}

/// Has a line answered, and answers whether it is refused. The reply is kept nowhere.
fn play_line(alloc: Global, machine: &mut ShowMachine, line: &[u8]) -> Result<bool, NoMemory>
    ensures { IfOk result (λ refusal. spec.Plays line.now machine.old refusal machine.new) }
{
    let mut shelf = CleanShelf::new(Vec::new(alloc));
    let mut output = CleanSink::new();
    match machine.answer(line, &mut shelf, &mut output) {
        Ok(refusal) => Ok(refusal),
        Err(Stop::Memory) => Err(NoMemory),
        Err(Stop::Write) => unreachable!(),
    }
}

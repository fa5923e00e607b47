//! The loop of a session, over any machine that answers lines.

ghost use Rattle.std.specs.Prelude.{◌≡◌, ◌≤◌, [], if◌then◌else◌};
ghost use Rattle.rf_base.specs.Cause.{Rose};
ghost use Rattle.rf_base.specs.Script.{short};
ghost use Rattle.rf_base.specs.Reader.{input_of, limit_of, pending_of, Reads};
ghost use Rattle.rf_base.specs.Told.{WhereTold};
ghost use Rattle.rf_session.specs.Fetches.{outside};
ghost use Rattle.rf_session.specs.Run.{is_passed, is_quit, Step, Cut};
ghost use Rattle.rf_session.specs.Session.{Ends};
ghost use Rattle.rf_session.specs.Turn.{Turns, Handles, RefusesLong, GoesOn};

use crate::machine::{Machine, Stop};
use crate::reply::{Code, Reply, say};
use rf_base::{LineReader, Next, Shelf, Sink, Source, Status};

/// What a turn of the loop came to.
#[derive(Clone, Copy)]
enum Turn {
    /// A line was passed over or answered; `true` if it was refused.
    Went(bool),
    /// The line that ends the session was answered; `true` if it was refused.
    Quit(bool),
    Stopped(Stop),
    End,
    TooLong,
    ReadFault,
}

/// Answers the lines of the input, up to its end or to `quit`.
pub fn serve<M: Machine, I: Source, F: Shelf, O: Sink>(
    reader: &mut LineReader,
    machine: &mut M,
    input: &mut I,
    shelf: &mut F,
    output: &mut O,
) -> Status
    requires { Reads reader.old (I.left input.old) }
    ensures session { WhereTold (I.left input.old) (I.left input.new)
        (λ before after. Ends (Step M.steps) (Cut M.cuts) result machine.old machine.new
        (outside (O.contents output.old) (F.file shelf.old) (F.faults shelf.old) (F.asked shelf.old))
        (outside (O.contents output.new) (F.file shelf.new) (F.faults shelf.new) (F.asked shelf.new))
        (input_of reader.old before) (input_of reader.new after)) }
    ensures drained { result ≡ Status.Read → pending_of reader.new ≡ [] }
    ensures input_later { I.faults input.old ≤ I.faults input.new }
    ensures output_later { O.faults output.old ≤ O.faults output.new }
    ensures read { result ≡ Status.Read → Rose (I.faults input.old) (I.faults input.new) }
    ensures write { result ≡ Status.Write → Rose (O.faults output.old) (O.faults output.new) }
    ensures no_words { result ≡ Status.Words → ⊥ }
    ensures no_shelf { result ≡ Status.Shelf → ⊥ }
{
    let mut refused = false;
    loop {
        match take_turn(reader, machine, input, shelf, output) {
            Turn::Went(refusal) => refused |= refusal,
            Turn::Quit(refusal) => return ended(refused | refusal),
            Turn::End => return ended(refused),
            Turn::Stopped(Stop::Write) => return Status::Write,
            Turn::Stopped(Stop::Memory) => return Status::Memory,
            Turn::TooLong => return Status::Long,
            Turn::ReadFault => return Status::Read,
        }
    }
}

/// How a session ends whose input was answered to its end or to `quit`.
fn ended(refused: bool) -> Status
    ensures { result ≡ (if refused then Status.Refused else Status.Done) }
{
    if refused {
        Status::Refused
    } else {
        Status::Done
    }
}

/// Reads the next line and answers it.
fn take_turn<M: Machine, I: Source, F: Shelf, O: Sink>(
    reader: &mut LineReader,
    machine: &mut M,
    input: &mut I,
    shelf: &mut F,
    output: &mut O,
) -> Turn
    requires { Reads reader.old (I.left input.old) }
    ensures turns { Turns (Step M.steps) (Cut M.cuts) result machine.old machine.new
        (outside (O.contents output.old) (F.file shelf.old) (F.faults shelf.old) (F.asked shelf.old))
        (outside (O.contents output.new) (F.file shelf.new) (F.faults shelf.new) (F.asked shelf.new))
        reader.old reader.new (I.left input.old) (I.left input.new) }
    ensures reads { Reads reader.new (I.left input.new) }
    ensures goes_on { GoesOn result (limit_of reader.old) (limit_of reader.new) }
    ensures drained { result ≡ Turn.ReadFault → pending_of reader.new ≡ [] }
    ensures input_later { I.faults input.old ≤ I.faults input.new }
    ensures output_later { O.faults output.old ≤ O.faults output.new }
    ensures read { result ≡ Turn.ReadFault → Rose (I.faults input.old) (I.faults input.new) }
    ensures write { result ≡ Turn.Stopped Stop.Write → Rose (O.faults output.old) (O.faults output.new) }
{
    match reader.next(input) {
        Next::Line => handle(machine, reader.line(), shelf, output),
        Next::LongLine => refuse_long(output),
        Next::End => Turn::End,
        Next::TooLong => Turn::TooLong,
        Next::ReadFault => Turn::ReadFault,
    }
}

/// Answers a line, unless it is passed over.
fn handle<M: Machine, F: Shelf, O: Sink>(
    machine: &mut M,
    line: &[u8],
    shelf: &mut F,
    output: &mut O,
) -> Turn
    ensures handles { Handles (Step M.steps) (Cut M.cuts) result machine.old machine.new
        (outside (O.contents output.old) (F.file shelf.old) (F.faults shelf.old) (F.asked shelf.old))
        (outside (O.contents output.new) (F.file shelf.new) (F.faults shelf.new) (F.asked shelf.new)) (short line.now) }
    ensures later { O.faults output.old ≤ O.faults output.new }
    ensures fault { result ≡ Turn.Stopped Stop.Write → Rose (O.faults output.old) (O.faults output.new) }
{
    if is_passed(line) {
        return Turn::Went(false);
    }
    match machine.answer(line, shelf, output) {
        Ok(refusal) => went(line, refusal),
        Err(stop) => Turn::Stopped(stop),
    }
}

/// Whether a line gets no reply: it is empty or a comment.
pub(crate) fn is_passed(line: &[u8]) -> bool
    ensures { result ≡ is_passed (short line.now) }
{
    line.is_empty() || line[0] == b'#'
}

/// What an answered line comes to.
fn went(line: &[u8], refusal: bool) -> Turn
    ensures { result ≡ (if is_quit (short line.now) then Turn.Quit refusal else Turn.Went refusal) }
{
    if line == b"quit".as_slice() {
        Turn::Quit(refusal)
    } else {
        Turn::Went(refusal)
    }
}

/// Refuses a line that is too long.
fn refuse_long<O: Sink>(output: &mut O) -> Turn
    ensures refuses { RefusesLong result (O.contents output.old) (O.contents output.new) }
    ensures later { O.faults output.old ≤ O.faults output.new }
    ensures fault { result ≡ Turn.Stopped Stop.Write → Rose (O.faults output.old) (O.faults output.new) }
{
    match say(output, &Reply::Error(Code::LongLine)) {
        Ok(refusal) => Turn::Went(refusal),
        Err(stop) => Turn::Stopped(stop),
    }
}

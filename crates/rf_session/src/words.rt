//! The words of the command line.

ghost use Rattle.std.specs.Prelude.{◌≡◌, ◌≤◌};
ghost use Rattle.rf_base.specs.Cause.{Rose};
ghost use Rattle.rf_session.specs.Words.{Usage};

use rf_base::{Failed, Sink, Status, put};

/// Says that the words of the command line run no command.
pub(crate) fn refuse_words<O: Sink>(output: &mut O) -> Status
    ensures usage { Usage result (O.contents output.old) (O.contents output.new) }
    ensures later { O.faults output.old ≤ O.faults output.new }
    ensures fault { result ≡ Status.Write → Rose (O.faults output.old) (O.faults output.new) }
{
    match put(output, b"error usage\n") {
        Ok(()) => Status::Words,
        Err(Failed) => Status::Write,
    }
}

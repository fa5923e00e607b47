//! What answers the lines of a session.

ghost use Rattle.std.specs.Prelude.{◌≡◌, ◌≤◌, ℕ, List, IfOk, IfErr, Err};
ghost use Rattle.rf_base.specs.Cause.{Rose};
ghost use Rattle.rf_session.specs.Fetches.{Fetched, outside};
ghost use Rattle.rf_session.specs.declared.reply.Reply.{Reply};
ghost use Rattle.rf_session.specs.Run.{Replied, IsCut};

use rf_base::{Shelf, Sink};

/// Why an answer was not written whole.
#[derive(Clone, Copy, PartialEq, Eq)]
pub enum Stop {
    /// The output failed.
    Write,
    /// No memory was found.
    Memory,
}

/// What answers lines that are not too long.
pub trait Machine {
    ghost use Rattle.rf_session.specs.declared.machine.Stop.{Stop};
    ghost use Rattle.rf_session.specs.declared.reply.Reply.{Reply};

    /// From this state the machine may give this reply to the line, whose fetch came to this, and go on to that state.
    ghost steps: { Self → List ℕ → Fetched → Reply → Self → Type 0 };

    /// In this state, stopped so, the machine may have written this in answer to the line, whose fetch came to this.
    ghost cuts: { Self → Stop → List ℕ → Fetched → List ℕ → Type 0 };

    /// Writes the reply to a line, and answers whether it is a refusal. A file that the line names is fetched from the shelf.
    fn answer<F: Shelf, O: Sink>(
        &mut self,
        line: &[u8],
        shelf: &mut F,
        output: &mut O,
    ) -> Result<bool, Stop>
        ensures replied { IfOk result (Replied (steps self.old line.now) self.new
            (outside (O.contents output.old) (F.file shelf.old) (F.faults shelf.old) (F.asked shelf.old))
            (outside (O.contents output.new) (F.file shelf.new) (F.faults shelf.new) (F.asked shelf.new))) }
        ensures cut { IfErr result (λ stop. IsCut (cuts self.old stop line.now)
            (outside (O.contents output.old) (F.file shelf.old) (F.faults shelf.old) (F.asked shelf.old))
            (outside (O.contents output.new) (F.file shelf.new) (F.faults shelf.new) (F.asked shelf.new))) }
        ensures later { O.faults output.old ≤ O.faults output.new }
        ensures fault { result ≡ Err Stop.Write → Rose (O.faults output.old) (O.faults output.new) };
}

//! The log of a search on its way to a sink, once each line is seen to be one that can be written.

ghost use Rattle.std.specs.Prelude.{◌≡◌, All, length};
ghost use Rattle.rf_search.specs.Out.{IsWritable};
ghost use Rattle.rf_solving.specs.LogWriter.{HasRoles};
ghost use Rattle.rf_solving.specs.Solving.{IsWritten};

use rf_base::{Failed, Name, Sink, put};
use rf_log::{Hint, LogLine, line_text};
use rf_search::{LogFail, LogOut};
use std::alloc::Global;

/// Writes a log over the carriers of these names to a sink, line by line.
#[derive(Drop)]
pub(crate) struct LogWriter<'a, 'b, O> {
    pub(crate) alloc: Global,
    pub(crate) names: &'a [Name],
    pub(crate) sink: &'b mut O,
}

impl<'a, 'b, O: Sink> LogOut for LogWriter<'a, 'b, O> {
    ghost use Rattle.std.specs.Prelude.{◌≡◌, length};
    ghost use Rattle.rf_solving.specs.LogWriter.{Wrote, WrotePart};

    ghost carriers = { λ log. length log.names.now };

    ghost faults = { λ log. O.faults log.sink.now };

    ghost taken = { λ old line new. (new.sink.ghost_name ≡ old.sink.ghost_name) × (new.names.now ≡ old.names.now)
        × Wrote old.names.now (O.contents old.sink.now) (O.contents new.sink.now) line };

    ghost failed = { λ old line new. (new.sink.ghost_name ≡ old.sink.ghost_name) × (new.names.now ≡ old.names.now)
        × WrotePart old.names.now (O.contents old.sink.now) (O.contents new.sink.now) line };

    fn line(&mut self, line: &LogLine) -> Result<(), LogFail> {
        can_be_written(line, self.names);
        let Ok(text) = line_text(self.alloc, line, self.names) else {
            return Err(LogFail::Memory);
        };
        match put(self.sink, text.as_slice()) {
            Ok(()) => Ok(()),
            Err(Failed) => Err(LogFail::Failed),
        }
    }
}

// A line that a search hands out can be written.
fn can_be_written(line: &LogLine, names: &[Name])
    requires { IsWritable (length names.now) line.now }
    ensures { IsWritten (length names.now) line.now }
{
    match line {
        LogLine::Nogood { hints, .. } => have_roles(hints.as_slice()),
        LogLine::Branch { .. } | LogLine::Up { .. } => {}
    }
}

// Each rule among these hints has room for four roles.
fn have_roles(hints: &[Hint])
    ensures { All HasRoles hints.now }
{
    for hint in hints {
        has_roles(hint);
    }
}

fn has_roles(hint: &Hint)
    ensures { HasRoles hint.now }
{
    match hint {
        Hint::Rule { roles, .. } => are_four(*roles),
        Hint::Earlier { .. } | Hint::Ban { .. } => {}
    }
}

fn are_four(roles: [u32; 4])
    ensures { length roles ≡ 4 }
{}

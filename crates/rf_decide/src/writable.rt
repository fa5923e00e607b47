//! A line that a search hands out can be written.

ghost use Rattle.std.specs.Prelude.{◌≡◌, All, length};
ghost use Rattle.rf_search.specs.Out.{IsWritable};
ghost use Rattle.rf_solving.specs.LogWriter.{HasRoles};
ghost use Rattle.rf_solving.specs.Solving.{IsWritten};

use rf_log::{Hint, LogLine};

/// A line over so many carriers that a search hands out can be written.
pub(crate) fn can_be_written(line: &LogLine, carriers: usize)
    requires { IsWritable carriers line.now }
    ensures { IsWritten carriers line.now }
{
    match line {
        LogLine::Nogood { hints, .. } => have_roles(hints.as_slice()),
        LogLine::Branch { .. } | LogLine::Up { .. } => {}
    }
}

// Each rule among these hints has room for four roles.
fn have_roles(hints: &[Hint])
    ensures { All HasRoles hints.now }
{
    for hint in hints {
        has_roles(hint);
    }
}

fn has_roles(hint: &Hint)
    ensures { HasRoles hint.now }
{
    match hint {
        Hint::Rule { roles, .. } => are_four(*roles),
        Hint::Earlier { .. } | Hint::Ban { .. } => {}
    }
}

fn are_four(roles: [u32; 4])
    ensures { length roles ≡ 4 }
{}

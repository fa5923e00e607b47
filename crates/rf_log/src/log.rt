//! A whole log, read from its text.

ghost use Rattle.std.specs.Prelude.{◌≡◌, ◌<◌, ◌++◌, ◌∷◌, [], Ok, length, OnOk, MatchResult};
ghost use Rattle.rf_log.specs.LogText as spec;

use crate::line::LogLine;
use crate::lines::Lines;
use crate::names::Names;
use crate::reading::read_line;
use rf_base::{Items, Name, NoMemory};
use std::alloc::Global;
use std::marker::Model;

/// A log: its names, numbered in order of first appearance, and its lines, whose carriers are places among the names. It
/// has fewer than 4,294,967,296 lines and names.
#[derive(Drop)]
pub struct Log {
    names: Names,
    lines: Items<LogLine>,
}

impl Model for Log {
    ghost use Rattle.rf_log.specs.LogText.{LogData, IsLog};

    ghost Value = { LogData };

    ghost view = { λ log. record { names = log.names; lines = log.lines } };

    ghost invariant = { λ log. IsLog (record { names = log.names; lines = log.lines }) };
}

/// Why no log was read.
#[derive(Clone, Copy, PartialEq, Eq)]
pub enum LogText {
    /// The first line that is outside the grammar, the first line of a text being 1.
    BadLine { line: u32 },
    /// No memory was found.
    Memory,
}

impl From<NoMemory> for LogText {
    ghost use Rattle.rf_log.specs.declared.log.LogText.TheVariants.{Memory};

    ghost from_gives = { λ _ e. e ≡ Memory };

    fn from(_: NoMemory) -> LogText {
        LogText::Memory
    }
}

impl Log {
    /// The names in the order of their numbers.
    pub fn names(&self) -> &[Name]
        ensures names { result.now ≡ self.now.names }
        ensures few { length self.now.names < 4294967296 }
    {
        self.names.as_slice()
    }

    /// The lines in their order.
    pub fn lines(&self) -> &[LogLine]
        ensures lines { result.now ≡ self.now.lines }
        ensures log { spec.IsLog self.now }
    {
        self.lines.as_slice()
    }
}

/// The log that a text of fewer than 4,294,967,296 bytes writes: its lines up to the first that is `plan`, `refuted`, or
/// `spent` with a number. `BadLine` exactly where one of these lines is outside the grammar.
pub fn read_log(alloc: Global, bytes: &[u8]) -> Result<Log, LogText>
    requires { length bytes.now < 4294967296 }
    ensures { MatchResult result (λ log. spec.log_of bytes.now ≡ Ok log) (spec.Tells (spec.log_of bytes.now)) }
{
    let mut names = Names::new(alloc);
    let mut lines = Vec::new(alloc);
    let mut rest = Lines::of(bytes);
    while let Some(line) = rest.next() {
        let Some(line) = read_line(alloc, &mut names, line)? else {
            return Err(LogText::BadLine {
                line: lines.len() as u32 + 1,
            });
        };
        keep(&mut lines, line)?;
    }
    Ok(Log {
        names,
        lines: Items::from_vec(lines),
    })
}

fn keep(lines: &mut Vec<LogLine>, line: LogLine) -> Result<(), NoMemory>
    ensures { OnOk result (lines.new.items ≡ lines.old.items ++ line ∷ []) }
{
    lines.push(line)?;
    Ok(())
}

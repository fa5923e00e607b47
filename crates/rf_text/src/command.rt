//! Commands, and how a line is read as one.

ghost use Rattle.std.specs.Prelude.{◌≡◌, codes, IfOk};
ghost use Rattle.rf_text.specs.Commands as spec;

use crate::edit::edit_by;
use crate::operand::{none, one, three, two};
use crate::words::Words;
use rf_base::{Decimal, FileName, Name};
use rf_exclusions::Sep;
use rf_show::Edit;

/// What a script line asks for.
#[derive(Drop)]
pub enum Command {
    /// An edit of the show that names no file.
    Change(Edit),
    /// The profiles of a file are added.
    Profiles {
        file: FileName,
    },
    /// A scan of a file is added.
    Scan {
        file: FileName,
        zone: Name,
        threshold: Decimal,
        width: u32,
        sep: Sep,
    },
    /// The show before the last edit.
    Undo,
    /// The show before the last undo.
    Redo,
    /// The conflicts of the show.
    Report,
    /// The conflicts of the show as rows of comma-separated fields.
    Csv,
    /// The show as the lines that make it.
    Show,
    /// The allowed channels of a carrier.
    Free {
        name: Name,
    },
    /// The intermodulation products from `lo` to `hi`, in kilohertz.
    Products {
        lo: u32,
        hi: u32,
    },
    /// Searches for a plan with at most so many branchings, and writes the log of the search and its verdict.
    Solve {
        budget: u32,
    },
    /// The same, and a plan is applied as one edit.
    Place {
        budget: u32,
    },
    /// By how much all spacings and margins that aren't 0 could be wider, in kilohertz, found by searches of at most so many branchings
    /// each.
    Widen {
        budget: u32,
    },
    /// Which locks leave no plan, found by searches of at most so many branchings each.
    Why {
        budget: u32,
    },
    /// The channels of a profile on which a further carrier could be added in a zone, and up to `count` that could be added together.
    Spares {
        profile: Name,
        zone: Name,
        count: u32,
    },
    /// The end of the session.
    Quit,
}

/// The line is in no command's grammar.
#[derive(Clone, Copy, PartialEq, Eq)]
pub struct UnknownLine;

/// The command that a line writes, or `UnknownLine` exactly where it is in no command's grammar. Its edit is one that a
/// show can be asked for.
#[tactic(auto, unfolding(crate::specs::Commands::command_of))]
pub fn read_command(line: &[u8]) -> Result<Command, UnknownLine>
    ensures exact { result ≡ spec.command_of line.now }
    ensures edit { IfOk result spec.IsAskable }
{
    match command_in(line) {
        Some(command) => Ok(command),
        None => Err(UnknownLine),
    }
}

fn command_in(line: &[u8]) -> Option<Command>
    ensures { result ≡ spec.command_in line.now }
{
    let mut words = Words::of(line)?;
    let verb = str::from_utf8(words.next()?).ok()?;
    command_by(verb, words)
}

fn command_by(verb: &str, operands: Words<'_>) -> Option<Command>
    ensures { result ≡ spec.command_by verb.now operands.entry }
{
    match verb {
        "profiles" => one(operands).map(|file| Command::Profiles { file }),
        "scan" => scan_by(operands),
        "undo" => none(operands).map(|()| Command::Undo),
        "redo" => none(operands).map(|()| Command::Redo),
        "report" => none(operands).map(|()| Command::Report),
        "csv" => none(operands).map(|()| Command::Csv),
        "show" => none(operands).map(|()| Command::Show),
        "free" => one(operands).map(|name| Command::Free { name }),
        "products" => two(operands).map(|(lo, hi)| Command::Products { lo, hi }),
        "solve" => one(operands).map(|budget| Command::Solve { budget }),
        "place" => one(operands).map(|budget| Command::Place { budget }),
        "widen" => one(operands).map(|budget| Command::Widen { budget }),
        "why" => one(operands).map(|budget| Command::Why { budget }),
        "spares" => spares_by(operands),
        "quit" => none(operands).map(|()| Command::Quit),
        _ => edit_by(verb, operands).map(Command::Change),
    }
}

fn spares_by(operands: Words<'_>) -> Option<Command>
    ensures { result ≡ spec.command_by (codes "spares") operands.entry }
{
    let (profile, zone, count) = three(operands)?;
    Some(Command::Spares {
        profile,
        zone,
        count,
    })
}

fn scan_by(mut operands: Words<'_>) -> Option<Command>
    ensures { result ≡ spec.command_by (codes "scan") operands.entry }
{
    let file = FileName::read(operands.next()?)?;
    let zone = Name::read(operands.next()?)?;
    let (threshold, width, sep) = three(operands)?;
    Some(Command::Scan {
        file,
        zone,
        threshold,
        width,
        sep,
    })
}

//! How the line of a command is written.

ghost use Rattle.std.specs.Prelude.{◌≡◌, ◌++◌, ◌∷◌, [], IfOk, OnOk, Ok, decimal, string_bytes};
ghost use Rattle.rf_text.specs.CommandTexts as spec;
ghost use Rattle.rf_text.specs.Commands.{command_of};
ghost use Rattle.rf_text.specs.Decimals.{decimal_text};
ghost use Rattle.rf_base.specs.Lines.{joined, spaced};
ghost use Rattle.rf_text.specs.Separators.{sep_text};

use crate::command::Command;
use crate::decimal_text::write_decimal;
use crate::edit_text::{
    write_edit, write_name, write_named, write_numbered, write_numbers, write_pair, write_verb,
};
use crate::separator::sep_text;
use rf_base::{Decimal, FileName, NoMemory};
use rf_exclusions::Sep;
use std::alloc::Global;

/// The line of a command that some line has, without a line feed. Reading it gives the command.
pub fn command_text(alloc: Global, command: &Command) -> Result<Vec<u8>, NoMemory>
    requires { spec.IsWritten command.now }
    ensures text { IfOk result (λ text. text.items ≡ spec.command_text_of command.now) }
    ensures back { IfOk result (λ text. command_of text.items ≡ Ok command.now) }
{
    let mut text = String::new(alloc);
    write_command(&mut text, command)?;
    Ok(text.into_bytes())
}

/// Writes the line of a command, without a line feed; nothing where no line has it.
#[tactic(auto, using(crate::proofs::LineLemmas::pieces), unfolding(crate::specs::EditTexts::edit_text))]
pub(crate) fn write_command(text: &mut String, command: &Command) -> Result<(), NoMemory>
    ensures { OnOk result (string_bytes text.new ≡ string_bytes text.old ++ spec.command_text_of command.now) }
{
    match command {
        Command::Change(edit) => write_edit(text, edit),
        Command::Profiles { file } => write_filed(text, "profiles", file),
        Command::Scan {
            file,
            zone,
            threshold,
            width,
            sep,
        } => {
            write_filed(text, "scan", file)?;
            write_name(text, zone)?;
            write_reading(text, *threshold, *width, *sep)
        }
        Command::Undo => write_verb(text, "undo"),
        Command::Redo => write_verb(text, "redo"),
        Command::Report => write_verb(text, "report"),
        Command::Csv => write_verb(text, "csv"),
        Command::Show => write_verb(text, "show"),
        Command::Free { name } => write_named(text, "free", name),
        Command::Products { lo, hi } => write_numbered(text, "products", &[*lo, *hi]),
        Command::Solve { budget } => write_numbered(text, "solve", &[*budget]),
        Command::Place { budget } => write_numbered(text, "place", &[*budget]),
        Command::Widen { budget } => write_numbered(text, "widen", &[*budget]),
        Command::Why { budget } => write_numbered(text, "why", &[*budget]),
        Command::Spares {
            profile,
            zone,
            count,
        } => {
            write_pair(text, "spares", profile, zone)?;
            write_numbers(text, &[*count])
        }
        Command::Quit => write_verb(text, "quit"),
    }
}

// Writes a verb and the name of a file.
fn write_filed(text: &mut String, verb: &str, file: &FileName) -> Result<(), NoMemory>
    ensures { OnOk result (string_bytes text.new ≡ string_bytes text.old ++ joined (verb.now ∷ file.now ∷ [])) }
{
    let file = file.text();
    write!(text, "{verb} {file}")?;
    Ok(())
}

// Writes how a scan is read, each part after a space.
fn write_reading(
    text: &mut String,
    threshold: Decimal,
    width: u32,
    sep: Sep,
) -> Result<(), NoMemory>
    ensures { OnOk result (string_bytes text.new ≡ string_bytes text.old ++ spaced (decimal_text threshold.0 ∷ decimal width ∷ sep_text sep ∷ [])) }
{
    write!(text, " ")?;
    write_decimal(text, threshold)?;
    let sep = sep_text(sep);
    write!(text, " {width} {sep}")?;
    Ok(())
}

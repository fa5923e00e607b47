//! How one line of a log is written.

ghost use Rattle.std.specs.Prelude.{◌≡◌, ◌<◌, ◌≤◌, ◌++◌, ◌∷◌, [], ◌+◌, IfOk, OnOk, length, map, decimal, string_bytes};
ghost use Rattle.std.specs.List.{All, flat_map};
ghost use Rattle.rf_log.specs.LogText.{IsCondBelow, IsHintBelow, IsLineBelow};
ghost use Rattle.rf_log.specs.LineTexts as spec;

use crate::cond::Cond;
use crate::hint::Hint;
use crate::line::{Cut, LogLine};
use rf_base::{Name, NoMemory};
use rf_terms::{roles, text as kind_text};
use std::alloc::Global;

/// The line with its line feed. Its carriers are places among the names, its numbers are at most 999,999,999.
pub fn line_text(alloc: Global, line: &LogLine, names: &[Name]) -> Result<Vec<u8>, NoMemory>
    requires known { IsLineBelow (length names.now) line.now }
    requires short { spec.IsShortLine line.now }
    ensures { IfOk result (λ text. text.items ≡ spec.line_text_of names.now line.now) }
{
    let mut text = String::new(alloc);
    write_line(&mut text, line, names)?;
    Ok(text.into_bytes())
}

#[tactic(auto, using(crate::proofs::TextLemmas::pieces))]
fn write_line(text: &mut String, line: &LogLine, names: &[Name]) -> Result<(), NoMemory>
    requires { IsLineBelow (length names.now) line.now }
    ensures { OnOk result (string_bytes text.new ≡ string_bytes text.old ++ spec.line_text_of names.now line.now) }
{
    match line {
        LogLine::Nogood { conds, hints } => {
            write!(text, "n")?;
            write_conds(text, conds.as_slice(), names)?;
            write!(text, " ;")?;
            write_hints(text, hints.as_slice(), names)?;
            writeln!(text, "")?;
        }
        LogLine::Branch { cut, carrier, at } => {
            let cut = cut_text(*cut);
            let name = name_at(names, *carrier);
            writeln!(text, "b {cut} {name} {at}")?;
        }
        LogLine::Up { line } => writeln!(text, "u {line}")?,
    }
    Ok(())
}

fn write_conds(text: &mut String, conds: &[Cond], names: &[Name]) -> Result<(), NoMemory>
    requires { All (IsCondBelow (length names.now)) conds.now }
    ensures { OnOk result (string_bytes text.new ≡ string_bytes text.old ++ flat_map (λ cond. spec.spaced (spec.cond_words names.now cond)) conds.now) }
{
    for cond in conds {
        write_cond(text, cond, names)?;
    }
    Ok(())
}

fn write_cond(text: &mut String, cond: &Cond, names: &[Name]) -> Result<(), NoMemory>
    requires { IsCondBelow (length names.now) cond.now }
    ensures { OnOk result (string_bytes text.new ≡ string_bytes text.old ++ spec.spaced (spec.cond_words names.now cond.now)) }
{
    let side = side_text(cond.inside);
    write!(text, " {side}")?;
    write_place(text, names, cond.carrier, cond.lo, cond.hi)
}

// Writes NAME LO HI, each after a space.
fn write_place(
    text: &mut String,
    names: &[Name],
    carrier: u32,
    lo: u32,
    hi: u32,
) -> Result<(), NoMemory>
    requires { carrier < length names.now }
    ensures { OnOk result (string_bytes text.new ≡ string_bytes text.old ++ spec.spaced (spec.name_at names.now carrier ∷ decimal lo ∷ decimal hi ∷ [])) }
{
    let name = name_at(names, carrier);
    write!(text, " {name} {lo} {hi}")?;
    Ok(())
}

fn write_hints(text: &mut String, hints: &[Hint], names: &[Name]) -> Result<(), NoMemory>
    requires { All (IsHintBelow (length names.now)) hints.now }
    ensures { OnOk result (string_bytes text.new ≡ string_bytes text.old ++ flat_map (λ hint. spec.spaced (spec.hint_words names.now hint)) hints.now) }
{
    for hint in hints {
        write_hint(text, hint, names)?;
    }
    Ok(())
}

#[tactic(auto, using(crate::proofs::TextLemmas::pieces))]
fn write_hint(text: &mut String, hint: &Hint, names: &[Name]) -> Result<(), NoMemory>
    requires { IsHintBelow (length names.now) hint.now }
    ensures { OnOk result (string_bytes text.new ≡ string_bytes text.old ++ spec.spaced (spec.hint_words names.now hint.now)) }
{
    match hint {
        Hint::Earlier { line } => write!(text, " line {line}")?,
        Hint::Ban { carrier, lo, hi } => {
            write!(text, " ban")?;
            write_place(text, names, *carrier, *lo, *hi)?;
        }
        Hint::Rule {
            kind,
            roles: carriers,
            target,
            lo,
            hi,
        } => {
            let kind_text = kind_text(*kind);
            write!(text, " rule {kind_text}")?;
            write_names(text, names, &carriers[..roles(*kind)])?;
            let role = *target + 1;
            write!(text, " {role} {lo} {hi}")?;
        }
    }
    Ok(())
}

// Writes the names of carriers, each after a space.
fn write_names(text: &mut String, names: &[Name], carriers: &[u32]) -> Result<(), NoMemory>
    requires { All (λ c. c < length names.now) carriers.now }
    ensures { OnOk result (string_bytes text.new ≡ string_bytes text.old ++ spec.spaced (map (spec.name_at names.now) carriers.now)) }
{
    for carrier in carriers {
        let name = name_at(names, *carrier);
        write!(text, " {name}")?;
    }
    Ok(())
}

fn name_at(names: &[Name], carrier: u32) -> &str
    requires { carrier < length names.now }
    ensures { result.now ≡ spec.name_at names.now carrier }
{
    names[carrier as usize].text()
}

fn side_text(inside: bool) -> &'static str
    ensures { result.now ≡ spec.side_text inside }
{
    if inside { "in" } else { "out" }
}

fn cut_text(cut: Cut) -> &'static str
    ensures { result.now ≡ spec.cut_text cut }
{
    match cut {
        Cut::Fix => "fix",
        Cut::Split => "split",
    }
}

//! How the lines of edits are written.

ghost use Rattle.std.specs.Prelude.{◌≡◌, ◌++◌, ◌∷◌, [], OnOk, map, decimal, string_bytes};
ghost use Rattle.rf_base.specs.Lines.{joined, spaced};
ghost use Rattle.rf_text.specs.EditTexts as spec;

use crate::operand::FEWEST_NUMBERS;
use rf_base::{Name, NoMemory};
use rf_profiles::Profile;
use rf_show::Edit;

/// Writes the line of an edit, without a line feed; nothing where no line has it.
#[tactic(auto, using(crate::proofs::LineLemmas::pieces), unfolding(crate::specs::EditTexts::edit_text))]
pub(crate) fn write_edit(text: &mut String, edit: &Edit) -> Result<(), NoMemory>
    ensures { OnOk result (string_bytes text.new ≡ string_bytes text.old ++ spec.edit_text edit.now) }
{
    match edit {
        Edit::AddProfile { name, numbers } => {
            write_named(text, "profile", name)?;
            write_profile_numbers(text, numbers)
        }
        Edit::AddRange {
            name,
            from,
            to,
            step,
        } => {
            write_named(text, "range", name)?;
            write_numbers(text, &[*from, *to, *step])
        }
        Edit::DropProfile { name } => write_named(text, "drop-profile", name),
        Edit::AddZone { name } => write_named(text, "zone", name),
        Edit::Couple { a, b } => write_pair(text, "couple", a, b),
        Edit::Uncouple { a, b } => write_pair(text, "uncouple", a, b),
        Edit::Far { a, b } => write_pair(text, "far", a, b),
        Edit::AddCarrier {
            name,
            profile,
            zone,
        } => {
            write_pair(text, "carrier", name, profile)?;
            write_name(text, zone)
        }
        Edit::Remove { name } => write_named(text, "remove", name),
        Edit::AddTime { name, from, to } => {
            write_named(text, "time", name)?;
            write_numbers(text, &[*from, *to])
        }
        Edit::Always { name } => write_named(text, "always", name),
        Edit::SetAt { name, khz } => {
            write_named(text, "set", name)?;
            write_numbers(text, &[*khz])
        }
        Edit::Clear { name } => write_named(text, "clear", name),
        Edit::Lock { name } => write_named(text, "lock", name),
        Edit::Unlock { name } => write_named(text, "unlock", name),
        Edit::AddBan { lo, hi, zone } => {
            write_numbered(text, "ban", &[*lo, *hi])?;
            write_zone(text, zone)
        }
        Edit::Unban { number } => write_numbered(text, "unban", &[*number]),
        Edit::Unscan { number } => write_numbered(text, "unscan", &[*number]),
        Edit::AddProfiles { .. } | Edit::AddScan { .. } | Edit::Place { .. } => Ok(()),
    }
}

/// Writes a verb.
pub(crate) fn write_verb(text: &mut String, verb: &str) -> Result<(), NoMemory>
    ensures { OnOk result (string_bytes text.new ≡ string_bytes text.old ++ joined (verb.now ∷ [])) }
{
    write!(text, "{verb}")?;
    Ok(())
}

/// Writes a verb and a name.
pub(crate) fn write_named(text: &mut String, verb: &str, name: &Name) -> Result<(), NoMemory>
    ensures { OnOk result (string_bytes text.new ≡ string_bytes text.old ++ joined (verb.now ∷ name.now ∷ [])) }
{
    let name = name.text();
    write!(text, "{verb} {name}")?;
    Ok(())
}

/// Writes a verb and two names.
pub(crate) fn write_pair(
    text: &mut String,
    verb: &str,
    first: &Name,
    second: &Name,
) -> Result<(), NoMemory>
    ensures { OnOk result (string_bytes text.new ≡ string_bytes text.old ++ joined (verb.now ∷ first.now ∷ second.now ∷ [])) }
{
    write_named(text, verb, first)?;
    write_name(text, second)
}

/// Writes a verb and numbers.
pub(crate) fn write_numbered(text: &mut String, verb: &str, numbers: &[u32]) -> Result<(), NoMemory>
    ensures { OnOk result (string_bytes text.new ≡ string_bytes text.old ++ joined (verb.now ∷ map decimal numbers.now)) }
{
    write_verb(text, verb)?;
    write_numbers(text, numbers)
}

// Writes the numbers of a profile, each after a space; the last is left out where it is 0.
fn write_profile_numbers(
    text: &mut String,
    numbers: &[u32; Profile::NUMBERS],
) -> Result<(), NoMemory>
    ensures { OnOk result (string_bytes text.new ≡ string_bytes text.old ++ spaced (spec.number_words numbers.now)) }
{
    if numbers[FEWEST_NUMBERS] == 0 {
        write_numbers(text, &numbers[..FEWEST_NUMBERS])
    } else {
        write_numbers(text, numbers.as_slice())
    }
}

// Writes a space and a zone, where one is named.
fn write_zone(text: &mut String, zone: &Option<Name>) -> Result<(), NoMemory>
    ensures { OnOk result (string_bytes text.new ≡ string_bytes text.old ++ spaced (spec.zone_words zone.now)) }
{
    match zone {
        None => Ok(()),
        Some(zone) => write_name(text, zone),
    }
}

/// Writes a space and a name.
pub(crate) fn write_name(text: &mut String, name: &Name) -> Result<(), NoMemory>
    ensures { OnOk result (string_bytes text.new ≡ string_bytes text.old ++ spaced (name.now ∷ [])) }
{
    let name = name.text();
    write!(text, " {name}")?;
    Ok(())
}

/// Writes numbers, each after a space.
pub(crate) fn write_numbers(text: &mut String, numbers: &[u32]) -> Result<(), NoMemory>
    ensures { OnOk result (string_bytes text.new ≡ string_bytes text.old ++ spaced (map decimal numbers.now)) }
{
    for number in numbers {
        write!(text, " {number}")?;
    }
    Ok(())
}

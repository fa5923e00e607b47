//! The texts of what is decided.

ghost use Rattle.std.specs.Prelude.{◌≡◌, ◌<◌, ◌++◌, All, OnOk, length, slice_index, string_bytes};
ghost use Rattle.std.specs.List.{flat_map};
ghost use Rattle.rf_log.specs.Case.{freq_of};
ghost use Rattle.rf_log.specs.LineTexts.{line_text_of};
ghost use Rattle.rf_show.specs.Case.{case_of};
ghost use Rattle.rf_solving.specs.Solving.{IsWritten, at_line, log_text};
ghost use Rattle.rf_decide.specs.Texts as spec;

use crate::names::names_of;
use rf_base::{Khz, Name, NoMemory};
use rf_log::{LogLine, line_text};
use rf_show::{Show, case_is_asked};
use std::alloc::Global;

/// Adds a line `at NAME KHZ` for each carrier of a show: the frequency of the channel that the plan gives it. `NoMemory`
/// where no memory is found; a part of the lines may be there then.
pub fn add_plan(
    alloc: Global,
    text: &mut Vec<u8>,
    show: &Show,
    plan: &[u32],
) -> Result<(), NoMemory>
    requires { spec.IsIndexed show.now plan.now }
    ensures { OnOk result (text.new.items ≡ text.old.items ++ spec.plan_text show.now plan.now) }
{
    let mut lines = String::new(alloc);
    for carrier in 0..show.carriers().len() {
        let khz = khz_of(show, plan, carrier);
        write_at(&mut lines, &show.carriers()[carrier].name, khz)?;
    }
    text.extend_from_slice(lines.as_bytes())?;
    Ok(())
}

// The frequency that a plan gives a carrier.
fn khz_of(show: &Show, plan: &[u32], carrier: usize) -> Khz
    requires plan { spec.IsIndexed show.now plan.now }
    requires carrier { carrier < length show.now.carriers }
    ensures { result ≡ freq_of (case_of show.now) carrier (slice_index plan.now carrier) }
{
    case_is_asked();
    show.profile_of(carrier).channels.freq(plan[carrier])
}

fn write_at(text: &mut String, name: &Name, khz: Khz) -> Result<(), NoMemory>
    ensures { OnOk result (string_bytes text.new ≡ string_bytes text.old ++ at_line name.now khz) }
{
    let name = name.text();
    let khz = khz.get();
    writeln!(text, "at {name} {khz}")?;
    Ok(())
}

/// Adds the lines of a log over the carriers of a show. `NoMemory` where no memory is found; a part of the lines may be
/// there then.
pub fn add_log(
    alloc: Global,
    text: &mut Vec<u8>,
    show: &Show,
    log: &[LogLine],
) -> Result<(), NoMemory>
    requires { All (IsWritten (length show.now.carriers)) log.now }
    ensures { OnOk result (text.new.items ≡ text.old.items ++ log_text show.now log.now) }
{
    let names = names_of(alloc, show.carriers())?;
    add_lines(alloc, text, names.as_slice(), log)
}

fn add_lines(
    alloc: Global,
    text: &mut Vec<u8>,
    names: &[Name],
    log: &[LogLine],
) -> Result<(), NoMemory>
    requires { All (IsWritten (length names.now)) log.now }
    ensures { OnOk result (text.new.items ≡ text.old.items ++ flat_map (line_text_of names.now) log.now) }
{
    for line in log {
        let written = line_text(alloc, line, names)?;
        text.extend_from_slice(written.as_slice())?;
    }
    Ok(())
}

/// Adds a line with a word and a number. `NoMemory` where no memory is found, which leaves the text as it was.
pub fn add_number(
    alloc: Global,
    text: &mut Vec<u8>,
    word: &str,
    number: u64,
) -> Result<(), NoMemory>
    ensures { OnOk result (text.new.items ≡ text.old.items ++ spec.number_line word.now number) }
{
    let mut line = String::new(alloc);
    writeln!(line, "{word} {number}")?;
    text.extend_from_slice(line.as_bytes())?;
    Ok(())
}

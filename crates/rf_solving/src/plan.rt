//! The frequencies of a plan, and how they are written.

ghost use Rattle.std.specs.Prelude.{◌≡◌, ◌<◌, ◌++◌, Some, IfOk, OnOk, length, map, slice_index, string_bytes};
ghost use Rattle.rf_log.specs.Case.{IsPlan, freq_of};
ghost use Rattle.rf_show.specs.Case.{case_of};
ghost use Rattle.rf_solving.specs.Solving as spec;

use rf_base::{Khz, Name, NoMemory};
use rf_show::{Show, case_is_asked};
use std::alloc::Global;

/// The frequencies that a plan gives the carriers of a show.
pub(crate) fn plan_freqs(alloc: Global, show: &Show, plan: &[u32]) -> Result<Vec<Khz>, NoMemory>
    requires { IsPlan (case_of show.now) plan.now }
    ensures { IfOk result (λ freqs. freqs.items ≡ spec.plan_freqs show.now plan.now) }
{
    let mut freqs = Vec::new(alloc);
    for carrier in 0..show.carriers().len() {
        freqs.push(khz_of(show, plan, carrier))?;
    }
    Ok(freqs)
}

// The frequency that a plan gives a carrier.
fn khz_of(show: &Show, plan: &[u32], carrier: usize) -> Khz
    requires plan { IsPlan (case_of show.now) plan.now }
    requires carrier { carrier < length show.now.carriers }
    ensures { result ≡ freq_of (case_of show.now) carrier (slice_index plan.now carrier) }
{
    case_is_asked();
    show.profile_of(carrier).channels.freq(plan[carrier])
}

/// The frequencies as what a plan is applied as.
pub(crate) fn ats_of(alloc: Global, freqs: &[Khz]) -> Result<Vec<Option<Khz>>, NoMemory>
    ensures { IfOk result (λ ats. ats.items ≡ map Some freqs.now) }
{
    let mut ats = Vec::new(alloc);
    for khz in freqs {
        ats.push(Some(*khz))?;
    }
    Ok(ats)
}

/// Writes a line for each name with its frequency.
pub(crate) fn write_ats(text: &mut String, names: &[Name], freqs: &[Khz]) -> Result<(), NoMemory>
    requires { length names.now ≡ length freqs.now }
    ensures { OnOk result (string_bytes text.new ≡ string_bytes text.old ++ spec.at_lines names.now freqs.now) }
{
    for i in 0..names.len() {
        write_at(text, &names[i], freqs[i])?;
    }
    Ok(())
}

fn write_at(text: &mut String, name: &Name, khz: Khz) -> Result<(), NoMemory>
    ensures { OnOk result (string_bytes text.new ≡ string_bytes text.old ++ spec.at_line name.now khz) }
{
    let name = name.text();
    let khz = khz.get();
    writeln!(text, "at {name} {khz}")?;
    Ok(())
}

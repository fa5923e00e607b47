//! The text of a show, as the lines that make it.

ghost use Rattle.std.specs.Prelude.{◌≡◌, ◌<◌, ◌∷◌, [], IfOk, OnOk, length, map, string_bytes};
ghost use Rattle.std.specs.List.{flat_map};
ghost use Rattle.rf_text.specs.Shows as spec;

use crate::command::Command;
use crate::command_lines::CommandLines;
use rf_base::{Khz, Name, NoMemory};
use rf_exclusions::{Ban, ScanSet};
use rf_profiles::{Profile, Range};
use rf_show::{Carrier, Edit, Show};
use rf_zones::{Coupling, Zones};
use std::alloc::Global;

/// The reply to `show`: how many lines there are, and then the lines that make the show of a first one.
pub fn show_text(alloc: Global, show: &Show) -> Result<Vec<u8>, NoMemory>
    ensures { IfOk result (λ text. text.items ≡ spec.show_text_of show.now) }
{
    let lines = lines_of(alloc, show)?;
    let mut text = String::new(alloc);
    let (count, lines) = (lines.count, lines.text.as_str());
    writeln!(text, "# show {count}")?;
    write!(text, "{lines}")?;
    Ok(text.into_bytes())
}

fn lines_of(alloc: Global, show: &Show) -> Result<CommandLines, NoMemory>
    ensures text { IfOk result (λ lines. string_bytes lines.text ≡ flat_map spec.command_line (spec.show_lines show.now)) }
    ensures count { IfOk result (λ lines. lines.count ≡ length (spec.show_lines show.now)) }
{
    let mut lines = CommandLines::new(alloc);
    add_zones(&mut lines, show.zones())?;
    add_couplings(&mut lines, show.zones(), Coupling::Coupled)?;
    add_couplings(&mut lines, show.zones(), Coupling::Far)?;
    add_profiles(&mut lines, show.profiles())?;
    add_bans(&mut lines, show.bans())?;
    add_scans(&mut lines, show.scans())?;
    add_carriers(&mut lines, show.carriers())?;
    Ok(lines)
}

fn add_zones(lines: &mut CommandLines, zones: &Zones) -> Result<(), NoMemory>
    requires { spec.IsCounted lines.old }
    ensures { OnOk result (spec.Adds lines.old lines.new (spec.zone_lines zones.now)) }
{
    for z in 1..zones.count() {
        let name = zones.name(z);
        lines.add(&Command::Change(Edit::AddZone { name }))?;
    }
    Ok(())
}

// Adds a line for each two zones that stand so to each other.
fn add_couplings(
    lines: &mut CommandLines,
    zones: &Zones,
    coupling: Coupling,
) -> Result<(), NoMemory>
    requires { spec.IsCounted lines.old }
    ensures { OnOk result (spec.Adds lines.old lines.new (spec.pairs_that coupling zones.now)) }
{
    for a in 0..zones.count() {
        add_couplings_with(lines, zones, coupling, a)?;
    }
    Ok(())
}

// Adds a line for each later zone that stands so to a zone.
fn add_couplings_with(
    lines: &mut CommandLines,
    zones: &Zones,
    coupling: Coupling,
    a: u8,
) -> Result<(), NoMemory>
    requires counted { spec.IsCounted lines.old }
    requires within { a < length zones.now.names }
    ensures { OnOk result (spec.Adds lines.old lines.new (spec.pairs_with coupling zones.now a)) }
{
    let count = zones.count();
    for b in a + 1..count {
        if zones.coupling(a, b) != coupling {
            continue;
        }
        let edit = coupling_edit(coupling, zones.name(a), zones.name(b));
        lines.add(&Command::Change(edit))?;
    }
    Ok(())
}

// The edit that makes two zones stand so to each other.
fn coupling_edit(coupling: Coupling, a: Name, b: Name) -> Edit
    ensures { result ≡ spec.coupling_edit coupling a b }
{
    match coupling {
        Coupling::Apart => Edit::Uncouple { a, b },
        Coupling::Coupled => Edit::Couple { a, b },
        Coupling::Far => Edit::Far { a, b },
    }
}

fn add_profiles(lines: &mut CommandLines, profiles: &[Profile]) -> Result<(), NoMemory>
    requires { spec.IsCounted lines.old }
    ensures { OnOk result (spec.Adds lines.old lines.new (flat_map spec.profile_lines profiles.now)) }
{
    for profile in profiles {
        add_profile(lines, profile)?;
    }
    Ok(())
}

fn add_profile(lines: &mut CommandLines, profile: &Profile) -> Result<(), NoMemory>
    requires { spec.IsCounted lines.old }
    ensures { OnOk result (spec.Adds lines.old lines.new (spec.profile_lines profile.now)) }
{
    let ranges = profile.channels.ranges();
    add_first_range(lines, profile, ranges[0])?;
    add_ranges(lines, profile.name, &ranges[1..])
}

fn add_first_range(
    lines: &mut CommandLines,
    profile: &Profile,
    range: Range,
) -> Result<(), NoMemory>
    requires { spec.IsCounted lines.old }
    ensures { OnOk result (spec.Adds lines.old lines.new (spec.first_range_line profile.now range ∷ [])) }
{
    let margins = profile.margins;
    lines.add(&Command::Change(Edit::AddProfile {
        name: profile.name,
        numbers: [
            range.from(),
            range.to(),
            range.step(),
            profile.spacing,
            profile.half,
            margins.m2t3,
            margins.m3t3,
            margins.m2t5,
            margins.m3t5,
            margins.m2t7,
        ],
    }))
}

fn add_ranges(lines: &mut CommandLines, name: Name, ranges: &[Range]) -> Result<(), NoMemory>
    requires { spec.IsCounted lines.old }
    ensures { OnOk result (spec.Adds lines.old lines.new (map (spec.range_line name) ranges.now)) }
{
    for range in ranges {
        lines.add(&Command::Change(Edit::AddRange {
            name,
            from: range.from(),
            to: range.to(),
            step: range.step(),
        }))?;
    }
    Ok(())
}

fn add_bans(lines: &mut CommandLines, bans: &[Ban]) -> Result<(), NoMemory>
    requires { spec.IsCounted lines.old }
    ensures { OnOk result (spec.Adds lines.old lines.new (map spec.ban_line bans.now)) }
{
    for ban in bans {
        lines.add(&Command::Change(Edit::AddBan {
            lo: ban.lo.get(),
            hi: ban.hi.get(),
            zone: ban.zone,
        }))?;
    }
    Ok(())
}

fn add_scans(lines: &mut CommandLines, scans: &[ScanSet]) -> Result<(), NoMemory>
    requires { spec.IsCounted lines.old }
    ensures { OnOk result (spec.Adds lines.old lines.new (map spec.scan_line scans.now)) }
{
    for scan in scans {
        lines.add(&Command::Scan {
            file: scan.file,
            zone: scan.zone,
            threshold: scan.threshold,
            width: scan.width,
            sep: scan.sep,
        })?;
    }
    Ok(())
}

fn add_carriers(lines: &mut CommandLines, carriers: &[Carrier]) -> Result<(), NoMemory>
    requires { spec.IsCounted lines.old }
    ensures { OnOk result (spec.Adds lines.old lines.new (flat_map spec.carrier_lines carriers.now)) }
{
    for carrier in carriers {
        add_carrier(lines, carrier)?;
    }
    Ok(())
}

fn add_carrier(lines: &mut CommandLines, carrier: &Carrier) -> Result<(), NoMemory>
    requires { spec.IsCounted lines.old }
    ensures { OnOk result (spec.Adds lines.old lines.new (spec.carrier_lines carrier.now)) }
{
    let name = carrier.name;
    lines.add(&Command::Change(Edit::AddCarrier {
        name,
        profile: carrier.profile,
        zone: carrier.zone,
    }))?;
    add_times(lines, name, carrier.times.list())?;
    add_at(lines, name, carrier.at)?;
    add_lock(lines, name, carrier.locked)
}

fn add_times(lines: &mut CommandLines, name: Name, times: &[(u16, u16)]) -> Result<(), NoMemory>
    requires { spec.IsCounted lines.old }
    ensures { OnOk result (spec.Adds lines.old lines.new (map (spec.time_line name) times.now)) }
{
    for (from, to) in times {
        lines.add(&Command::Change(Edit::AddTime {
            name,
            from: u32::from(*from),
            to: u32::from(*to),
        }))?;
    }
    Ok(())
}

fn add_at(lines: &mut CommandLines, name: Name, at: Option<Khz>) -> Result<(), NoMemory>
    requires { spec.IsCounted lines.old }
    ensures { OnOk result (spec.Adds lines.old lines.new (spec.at_lines name at)) }
{
    match at {
        Some(khz) => lines.add(&Command::Change(Edit::SetAt {
            name,
            khz: khz.get(),
        })),
        None => Ok(()),
    }
}

fn add_lock(lines: &mut CommandLines, name: Name, locked: bool) -> Result<(), NoMemory>
    requires { spec.IsCounted lines.old }
    ensures { OnOk result (spec.Adds lines.old lines.new (spec.lock_lines name locked)) }
{
    if locked {
        lines.add(&Command::Change(Edit::Lock { name }))
    } else {
        Ok(())
    }
}

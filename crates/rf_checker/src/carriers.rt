//! The names of a log as carriers of a show.

ghost use Rattle.std.specs.Prelude.{◌≡◌, ◌≤◌, length, map, position, IfOk};
ghost use Rattle.rf_show.specs.Limits.{most_carriers};
ghost use Rattle.rf_show.specs.Show.{is_carrier};
ghost use Rattle.rf_checker.specs.Carriers as spec;

use rf_base::{Items, Name, NoMemory};
use rf_log::{Cond, Conds, Hint, LogLine};
use rf_show::Carrier;
use std::alloc::Global;

/// The places of names among the carriers; how many carriers there are for a name that none has.
pub(crate) fn places_named(
    alloc: Global,
    carriers: &[Carrier],
    names: &[Name],
) -> Result<Vec<u32>, NoMemory>
    requires { length carriers.now ≤ most_carriers }
    ensures { IfOk result (λ places. places.items ≡ spec.places_named carriers.now names.now) }
{
    let mut places = Vec::new(alloc);
    for name in names {
        places.push(place_named(carriers, *name))?;
    }
    Ok(places)
}

fn place_named(carriers: &[Carrier], name: Name) -> u32
    requires { length carriers.now ≤ most_carriers }
    ensures { result ≡ spec.place_named carriers.now name }
{
    match position_of(carriers, name) {
        Some(place) => place as u32,
        None => carriers.len() as u32,
    }
}

fn position_of(carriers: &[Carrier], name: Name) -> Option<usize>
    ensures { result ≡ position (is_carrier name) carriers.now }
{
    carriers.iter().position(|carrier| carrier.name == name)
}

/// The lines with these places as their carriers, and another number past the end of the places.
pub(crate) fn lines_with(
    alloc: Global,
    places: &[u32],
    other: u32,
    lines: &[LogLine],
) -> Result<Vec<LogLine>, NoMemory>
    ensures { IfOk result (λ all. all.items ≡ map (spec.line_with (spec.place_at places.now other)) lines.now) }
{
    let mut all = Vec::new(alloc);
    for line in lines {
        let line = line_with(alloc, places, other, line)?;
        all.push(line)?;
    }
    Ok(all)
}

fn line_with(alloc: Global, places: &[u32], other: u32, line: &LogLine) -> Result<LogLine, NoMemory>
    ensures { IfOk result (λ new. new ≡ spec.line_with (spec.place_at places.now other) line.now) }
{
    match line {
        LogLine::Nogood { conds, hints } => {
            let conds = conds_with(alloc, places, other, conds.as_slice())?;
            let hints = hints_with(alloc, places, other, hints.as_slice())?;
            Ok(LogLine::Nogood { conds, hints })
        }
        LogLine::Branch { cut, carrier, at } => Ok(LogLine::Branch {
            cut: *cut,
            carrier: place_at(places, other, *carrier),
            at: *at,
        }),
        LogLine::Up { line } => Ok(LogLine::Up { line: *line }),
    }
}

fn conds_with(alloc: Global, places: &[u32], other: u32, conds: &[Cond]) -> Result<Conds, NoMemory>
    ensures { IfOk result (λ all. all ≡ map (spec.cond_with (spec.place_at places.now other)) conds.now) }
{
    let mut all = Conds::new(alloc);
    for cond in conds {
        all.push(Cond {
            carrier: place_at(places, other, cond.carrier),
            ..*cond
        })?;
    }
    Ok(all)
}

fn hints_with(
    alloc: Global,
    places: &[u32],
    other: u32,
    hints: &[Hint],
) -> Result<Items<Hint>, NoMemory>
    ensures { IfOk result (λ all. all ≡ map (spec.hint_with (spec.place_at places.now other)) hints.now) }
{
    let mut all = Vec::new(alloc);
    for hint in hints {
        all.push(hint_with(places, other, hint))?;
    }
    Ok(Items::from_vec(all))
}

fn hint_with(places: &[u32], other: u32, hint: &Hint) -> Hint
    ensures { result ≡ spec.hint_with (spec.place_at places.now other) hint.now }
{
    match hint {
        Hint::Earlier { line } => Hint::Earlier { line: *line },
        Hint::Ban { carrier, lo, hi } => Hint::Ban {
            carrier: place_at(places, other, *carrier),
            lo: *lo,
            hi: *hi,
        },
        Hint::Rule {
            kind,
            roles,
            target,
            lo,
            hi,
        } => Hint::Rule {
            kind: *kind,
            roles: roles_with(places, other, roles),
            target: *target,
            lo: *lo,
            hi: *hi,
        },
    }
}

fn roles_with(places: &[u32], other: u32, roles: &[u32; 4]) -> [u32; 4]
    ensures { result ≡ map (spec.place_at places.now other) roles.now }
{
    [
        place_at(places, other, roles[0]),
        place_at(places, other, roles[1]),
        place_at(places, other, roles[2]),
        place_at(places, other, roles[3]),
    ]
}

fn place_at(places: &[u32], other: u32, carrier: u32) -> u32
    ensures { result ≡ spec.place_at places.now other carrier }
{
    match places.get(carrier as usize) {
        Some(place) => *place,
        None => other,
    }
}

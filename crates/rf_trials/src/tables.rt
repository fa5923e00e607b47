//! The product table under edits, beside analyses and lists of products that are made afresh.
ghost use Rattle.std.specs.Prelude.{IfSome, IsTrue};
ghost use Rattle.rf_show.specs.After.{is_edit};

use crate::editors::Draws;
use crate::hold::{Broken, hold, told};
use rf_base::{Khz, Name, NoMemory};
use rf_editor::Editor;
use rf_profiles::Profile;
use rf_rules::{Analysis, Conflict, Product, Products, analyse, products};
use rf_show::{Edit, Show};
use rf_table::Table;
use std::alloc::Global;
use std::test::Fail;

const NUMBERS: [u32; Profile::NUMBERS] = [500_000, 502_000, 25, 350, 0, 90, 50, 60, 40, 25];

// Few of the products of carriers in it are near a victim, so that the conflicts are fewer than are shown.
const WIDE: [u32; Profile::NUMBERS] = [470_000, 700_000, 25, 350, 0, 10, 10, 10, 10, 10];

/// A name of one letter.
fn letter(number: u64) -> Option<Name> {
    Name::read(&[b'a' + (number % 26) as u8])
}

/// One of the zones `main`, `x` and `y`.
fn zone(number: u64) -> Option<Name> {
    match number {
        0 => Name::read(b"x"),
        1 => Name::read(b"y"),
        _ => Name::read(b"main"),
    }
}

fn drawn_edit(draws: &mut Draws) -> Option<Edit>
    ensures { IfSome result (λ edit. IsTrue (is_edit edit)) }
{
    let name = letter(draws.below(10))?;
    let profile = letter(draws.below(2))?;
    let a = zone(draws.below(4))?;
    let b = zone(draws.below(4))?;
    let number = draws.below(80) as u32;
    Some(match draws.below(32) {
        0 => Edit::AddZone { name: a },
        1 => Edit::Couple { a, b },
        2 => Edit::Uncouple { a, b },
        3 => Edit::Far { a, b },
        4 | 5 | 6 | 7 | 8 | 9 => Edit::AddCarrier {
            name,
            profile,
            zone: a,
        },
        10 | 11 | 12 => Edit::Remove { name },
        13 => Edit::AddTime {
            name,
            from: 60 * number,
            to: 5_000,
        },
        14 => Edit::Always { name },
        15 => Edit::Clear { name },
        16 => Edit::AddBan {
            lo: 500_000,
            hi: 500_000 + 10 * number,
            zone: Some(a),
        },
        17 => Edit::Unban { number: 1 },
        _ => Edit::SetAt {
            name,
            khz: 500_000 + 25 * number,
        },
    })
}

fn same_conflict(a: &Conflict, b: &Conflict) -> bool {
    match (*a, *b) {
        (Conflict::OffGrid { carrier: c }, Conflict::OffGrid { carrier: d }) => c == d,
        (Conflict::Banned { carrier: c }, Conflict::Banned { carrier: d }) => c == d,
        (
            Conflict::Spacing {
                a: c,
                b: d,
                distance: m,
                needs: n,
            },
            Conflict::Spacing {
                a,
                b,
                distance,
                needs,
            },
        ) => [c, d] == [a, b] && [m, n] == [distance, needs],
        (
            Conflict::Product {
                kind: k,
                sources: s,
                victim: v,
                product: p,
                distance: m,
                needs: n,
            },
            Conflict::Product {
                kind,
                sources,
                victim,
                product,
                distance,
                needs,
            },
        ) => k == kind
            && s == sources
            && v == victim
            && p == product
            && [m, n] == [distance, needs],
        _ => false,
    }
}

fn same_analysis(a: &Analysis, b: &Analysis) -> bool {
    a.total == b.total
        && a.shown.as_slice().len() == b.shown.as_slice().len()
        && a.shown
            .as_slice()
            .iter()
            .zip(b.shown.as_slice())
            .all(|(c, d)| same_conflict(c, d))
}

fn same_product(a: &Product, b: &Product) -> bool {
    a.value == b.value && a.kind == b.kind && a.sources == b.sources
}

fn same_products(a: &Products, b: &Products) -> bool {
    a.total == b.total
        && a.shown.as_slice().len() == b.shown.as_slice().len()
        && a.shown
            .as_slice()
            .iter()
            .zip(b.shown.as_slice())
            .all(|(p, q)| same_product(p, q))
}

/// Whether the editor's conflicts and products are those that a fresh look at its show finds.
fn is_fresh(alloc: Global, editor: &Editor, lo: Khz, hi: Khz) -> Result<bool, NoMemory> {
    let show = editor.show();
    let conflicts = analyse(alloc, show)?;
    let found = products(alloc, show, lo, hi)?;
    let kept = editor.products(lo, hi)?;
    Ok(same_analysis(editor.conflicts(), &conflicts) && same_products(&kept, &found))
}

/// One edit, undo or redo.
fn step(draws: &mut Draws, editor: &mut Editor) {
    match draws.below(5) {
        0 => {
            let _ = editor.undo();
        }
        1 => {
            let _ = editor.redo();
        }
        _ => {
            if let Some(edit) = drawn_edit(draws) {
                let _ = editor.apply(edit);
            }
        }
    }
}

/// The profiles `a` and `b`.
fn begin(editor: &mut Editor) {
    for number in 0..2 {
        if let Some(name) = letter(number) {
            let _ = editor.apply(Edit::AddProfile {
                name,
                numbers: NUMBERS,
            });
        }
    }
}

/// The most conflicts that stood at a time in four thousand steps. None where they or the products were not the fresh ones.
fn stormed(alloc: Global) -> Result<Option<u64>, NoMemory> {
    let mut draws = Draws { state: 11 };
    let mut editor = Editor::new(alloc)?;
    begin(&mut editor);
    let Some(lo) = Khz::new(499_000) else {
        return Ok(None);
    };
    let Some(hi) = Khz::new(503_000) else {
        return Ok(None);
    };
    let mut most = 0;
    for _ in 0..4_000 {
        step(&mut draws, &mut editor);
        if !is_fresh(alloc, &editor, lo, hi)? {
            return Ok(None);
        }
        most = most.max(editor.conflicts().total);
    }
    Ok(Some(most))
}

/// The name of one of 64 carriers.
fn carrier_name(number: u64) -> Option<Name> {
    Name::read(&[
        b'c',
        b'0' + (number / 10 % 10) as u8,
        b'0' + (number % 10) as u8,
    ])
}

/// The edit that gives one of 64 carriers a drawn frequency.
fn setting(number: u64, draws: &mut Draws) -> Option<Edit>
    ensures { IfSome result (λ edit. IsTrue (is_edit edit)) }
{
    Some(Edit::SetAt {
        name: carrier_name(number)?,
        khz: 470_000 + 25 * draws.below(9_000) as u32,
    })
}

/// Makes an edit, if there is one. Whether it was made.
fn made(show: &mut Show, edit: Option<Edit>) -> bool
    requires { IfSome edit (λ e. IsTrue (is_edit e)) }
{
    match edit {
        Some(edit) => show.apply(edit).is_ok(),
        None => false,
    }
}

/// The edit that adds one of 64 carriers, always on in `main`.
fn adding(number: u64) -> Option<Edit>
    ensures { IfSome result (λ edit. IsTrue (is_edit edit)) }
{
    Some(Edit::AddCarrier {
        name: carrier_name(number)?,
        profile: letter(0)?,
        zone: zone(2)?,
    })
}

/// The edit that adds the profile of the 64 carriers.
fn profiling() -> Option<Edit>
    ensures { IfSome result (λ edit. IsTrue (is_edit edit)) }
{
    Some(Edit::AddProfile {
        name: letter(0)?,
        numbers: WIDE,
    })
}

/// By how much the count of evaluated products rises where one of 64 carriers goes to another frequency. None where the show
/// could not be made, or has so many conflicts that the table is made afresh.
fn risen(alloc: Global) -> Result<Option<u64>, NoMemory> {
    let mut draws = Draws { state: 7 };
    let mut show = Show::new(alloc)?;
    let mut all = made(&mut show, profiling());
    for number in 0..64 {
        let there = made(&mut show, adding(number));
        let set = made(&mut show, setting(number, &mut draws));
        all = all && there && set;
    }
    let mut table = Table::of(alloc, &show)?;
    let before = table.evaluated();
    all = made(&mut show, setting(30, &mut draws)) && all;
    table.change(&show)?;
    if !all || table.conflicts().total > 10_000 {
        return Ok(None);
    }
    Ok(Some(table.evaluated().saturating_sub(before)))
}

/// How many products have a given one of 64 carriers among their sources: for each of the three kinds with two sources 63 as
/// the first and 63 as the second; for each of the two kinds with three sources of which two stand in order, half of the
/// 3 * 63 * 62 lists with the carrier; and for the one without an order, all of them.
const WITH_ONE: u64 = 3 * 126 + 2 * 5_859 + 11_718;

fn all(alloc: Global) -> Result<(), Broken> {
    let most = stormed(alloc)?;
    let rose = risen(alloc)?;
    hold(&[
        (
            most.is_some(),
            "conflicts and products are those of a fresh look",
        ),
        (most.is_some_and(|n| n > 100), "there were conflicts"),
        (
            WITH_ONE == 23_814,
            "so many products have a given carrier for a source",
        ),
        (
            rose.is_some(),
            "64 carriers stand with fewer conflicts than are shown",
        ),
        (
            rose.is_some_and(|n| n > 0 && n <= WITH_ONE),
            "one set evaluates no more products than that",
        ),
    ])
}

#[test]
fn a_storm_of_edits_leaves_what_a_fresh_look_finds(rt: HostRuntime) -> Result<(), Fail> {
    told(all(rt.alloc()))
}

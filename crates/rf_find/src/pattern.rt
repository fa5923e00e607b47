//! The forms of the rule table, each turned to the carrier that is looked for.

use rf_base::NoMemory;
use rf_terms::{Kind, MARGINS, asks, coefficients, kinds_with, place, roles};
use std::alloc::Global;

/// How far a carrier keeps from the forms of each margin, in cells; below 0 where it asks for nothing.
pub type Widths = [i64; PLACES];

/// The spacing and the margins.
pub const PLACES: usize = MARGINS + 1;

/// A form with the carrier that is looked for in the first place: the coefficients of the places, in which of them the victim
/// may stand, which margin counts, and how far all keep where they keep alike.
#[derive(Clone, Copy)]
pub struct Pattern {
    pub coefs: [i64; 4],
    pub victims: [bool; 4],
    pub place: usize,
    pub even: Option<i64>,
}

/// How far a carrier keeps from the forms of a margin.
pub fn width(widths: &Widths, place: usize) -> i64 {
    widths.get(place).copied().unwrap_or(-1)
}

/// The forms of the kinds with so many roles that some carrier keeps from, each with every carrier in the first place once.
pub fn patterns(alloc: Global, widths: &[Widths], number: usize) -> Result<Vec<Pattern>, NoMemory> {
    let mut found = Vec::new(alloc);
    for kind in kinds_with(number) {
        let place = place(asks(*kind));
        if !widths.iter().all(|w| width(w, place) < 0) {
            add_kind(&mut found, *kind, place, even_width(widths, place))?;
        }
    }
    Ok(found)
}

// How far all carriers keep, where they keep alike.
fn even_width(widths: &[Widths], place: usize) -> Option<i64> {
    let first = width(widths.first()?, place);
    if widths.iter().all(|w| width(w, place) == first) {
        Some(first)
    } else {
        None
    }
}

fn add_kind(
    found: &mut Vec<Pattern>,
    kind: Kind,
    place: usize,
    even: Option<i64>,
) -> Result<(), NoMemory> {
    for code in 0..256 {
        if let Some(order) = order_of(code, roles(kind)) {
            add(found, pattern_of(kind, order, place, even))?;
        }
    }
    Ok(())
}

// The order of four roles that a number says, if it says one; a fourth role that a kind doesn't have stays the last.
fn order_of(code: u32, number: usize) -> Option<[usize; 4]> {
    let order = [
        (code >> 6 & 3) as usize,
        (code >> 4 & 3) as usize,
        (code >> 2 & 3) as usize,
        (code & 3) as usize,
    ];
    let [a, b, c, d] = order;
    let apart = a != b && a != c && a != d && b != c && b != d && c != d;
    if apart && (number > 3 || d == 3) {
        Some(order)
    } else {
        None
    }
}

fn pattern_of(kind: Kind, order: [usize; 4], place: usize, even: Option<i64>) -> Pattern {
    let all = coefficients(kind);
    let [a, b, c, d] = order;
    let coefs = [at(all, a), at(all, b), at(all, c), at(all, d)];
    let last = all.len().saturating_sub(1);
    Pattern {
        coefs: upright(coefs),
        victims: [a == last, b == last, c == last, d == last],
        place,
        even,
    }
}

fn at(coefs: &[i64], role: usize) -> i64 {
    coefs.get(role).copied().unwrap_or(0)
}

// The same form or its negative, whichever begins above 0.
fn upright(coefs: [i64; 4]) -> [i64; 4] {
    let [a, b, c, d] = coefs;
    if a < 0 {
        [
            a.wrapping_neg(),
            b.wrapping_neg(),
            c.wrapping_neg(),
            d.wrapping_neg(),
        ]
    } else {
        coefs
    }
}

// Adds a pattern, or what it says of victims to one that is there.
fn add(found: &mut Vec<Pattern>, pattern: Pattern) -> Result<(), NoMemory> {
    for n in 0..found.len() {
        let old = found[n];
        if old.place == pattern.place && old.coefs == pattern.coefs {
            found[n] = Pattern {
                victims: both(old.victims, pattern.victims),
                ..old
            };
            return Ok(());
        }
    }
    found.push(pattern)?;
    Ok(())
}

fn both(a: [bool; 4], b: [bool; 4]) -> [bool; 4] {
    [a[0] || b[0], a[1] || b[1], a[2] || b[2], a[3] || b[3]]
}

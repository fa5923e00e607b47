//! What the engine of all rules answers and leaves, on problems of rows.
ghost use Rattle.std.specs.Prelude.{◌≡◌};
ghost use Rattle.rf_log.specs.Case.{counts_of};
ghost use Rattle.rf_problem.specs.Problem.{case_of};

use crate::hold::{Broken, hold, told};
use crate::problems::{Flags, Row, problem_of_rows};
use crate::trails::{decide, is_entry};
use rf_base::NoMemory;
use rf_log::{Cond, Hint};
use rf_problem::Problem;
use rf_propagate::{Engine, Outcome};
use rf_props::{ProblemTheory, Rules, engine_of, settle, trail_of};
use rf_terms::MARGINS;
use rf_trail::{Entry, Trail};
use std::alloc::Global;
use std::test::Fail;

/// What an engine answers, and what it leaves.
pub(crate) type Found = (Outcome, Flags);

fn has(trail: &Trail, carrier: usize, k: u32) -> bool {
    let domains = trail.domains();
    carrier < domains.carriers() && domains.has(carrier, k)
}

fn row_of(trail: &Trail, carrier: usize) -> [bool; 4] {
    let first = has(trail, carrier, 0);
    let second = has(trail, carrier, 1);
    let third = has(trail, carrier, 2);
    [first, second, third, has(trail, carrier, 3)]
}

fn left_of(trail: &Trail) -> Flags {
    let first = row_of(trail, 0);
    let second = row_of(trail, 1);
    let third = row_of(trail, 2);
    [first, second, third, row_of(trail, 3)]
}

/// Settles an engine, and looks at what is left.
pub(crate) fn look<'a>(
    engine: &mut Engine<ProblemTheory<'a>, Rules>,
    trail: &mut Trail,
) -> Result<Found, NoMemory>
    requires { trail.old.counts ≡ counts_of (case_of engine.old.theory.problem.now) }
    ensures theory { engine.new.theory ≡ engine.old.theory }
    ensures counts { trail.new.counts ≡ trail.old.counts }
{
    let outcome = settle(engine, trail)?;
    Ok((outcome, left_of(trail)))
}

/// What an engine makes of all channels.
pub(crate) fn settled(alloc: Global, problem: &Problem) -> Result<Found, NoMemory> {
    let mut engine = engine_of(ProblemTheory::new(alloc, problem)?);
    let mut trail = trail_of(alloc, problem)?;
    look(&mut engine, &mut trail)
}

fn count(row: &[bool; 4]) -> u32 {
    let mut count = 0u32;
    for left in row {
        if *left {
            count = count.saturating_add(1);
        }
    }
    count
}

fn count_all(left: &Flags) -> u32 {
    let mut all = 0u32;
    for row in left {
        all = all.saturating_add(count(row));
    }
    all
}

fn leaves(alloc: Global, rows: &[Row], outcome: Outcome, left: u32) -> Result<bool, NoMemory> {
    let problem = problem_of_rows(alloc, rows)?;
    let found = settled(alloc, &problem)?;
    Ok(found.0 == outcome && count_all(&found.1) == left)
}

/// A carrier that may stand at two frequencies, the second above the first. It asks 350 kHz of spacing.
fn either(low: u32, high: u32, margins: [u32; MARGINS]) -> Row {
    Row {
        freqs: [low, high, high.saturating_add(1), high.saturating_add(2)],
        allowed: [true, true, false, false],
        spacing: 350,
        margins,
        hears_all: true,
        reaches_all: true,
    }
}

/// A carrier that may stand at one frequency.
fn at(khz: u32, margins: [u32; MARGINS]) -> Row {
    let mut row = either(khz, khz.saturating_add(1), margins);
    row.allowed[1] = false;
    row
}

/// A carrier that may stand nowhere.
fn nowhere(khz: u32, margins: [u32; MARGINS]) -> Row {
    let mut row = at(khz, margins);
    row.allowed[0] = false;
    row
}

const NONE: [u32; MARGINS] = [0; MARGINS];

fn spaced(alloc: Global) -> Result<[bool; 4], NoMemory> {
    let two = [either(500_000, 500_300, NONE); 2];
    let near = [at(500_000, NONE), at(500_200, NONE)];
    let fixed = [at(500_000, NONE), either(500_300, 500_350, NONE)];
    let banned = [nowhere(500_000, NONE), at(501_000, NONE)];
    Ok([
        leaves(alloc, &two, Outcome::Quiet, 4)?,
        leaves(alloc, &near, Outcome::Wiped(0), 1)?,
        leaves(alloc, &fixed, Outcome::Quiet, 2)?,
        leaves(alloc, &banned, Outcome::Wiped(0), 1)?,
    ])
}

fn struck_by_products(alloc: Global) -> Result<[bool; 4], NoMemory> {
    let third = [100, 0, 0, 0, 0];
    let of_two = [
        at(500_000, third),
        at(500_400, third),
        either(500_800, 501_200, third),
    ];
    let fifth = [0, 0, 100, 0, 0];
    let of_order_five = [
        at(500_400, fifth),
        either(501_200, 501_600, fifth),
        at(500_000, fifth),
    ];
    let seventh = [0, 0, 0, 0, 100];
    let of_order_seven = [
        at(500_000, seventh),
        at(500_400, seventh),
        either(501_600, 502_000, seventh),
    ];
    let three = [0, 50, 0, 0, 0];
    let middle = either(504_000, 506_000, three);
    let of_three = [
        at(500_000, three),
        at(501_000, three),
        middle,
        at(503_000, three),
    ];
    Ok([
        leaves(alloc, &of_two, Outcome::Quiet, 3)?,
        leaves(alloc, &of_order_five, Outcome::Quiet, 3)?,
        leaves(alloc, &of_order_seven, Outcome::Quiet, 3)?,
        leaves(alloc, &of_three, Outcome::Quiet, 4)?,
    ])
}

fn rows_settle(alloc: Global) -> Result<(), Broken> {
    let [two, near, fixed, banned] = spaced(alloc)?;
    let [of_two, of_order_five, of_order_seven, of_three] = struck_by_products(alloc)?;
    hold(&[
        (two, "with two channels each nothing falls"),
        (near, "nearer than the spacing"),
        (fixed, "the channel too near to another carrier"),
        (banned, "no channel is allowed"),
        (of_two, "a product of two carriers"),
        (of_order_five, "a product of order five"),
        (of_order_seven, "a product of order seven"),
        (of_three, "a product of three carriers"),
    ])
}

/// A carrier that may stand at four frequencies, or not at the third of them. It asks no spacing.
fn wide(third: bool) -> Row {
    Row {
        freqs: [500_000, 500_100, 500_200, 500_300],
        allowed: [true, true, third, true],
        spacing: 0,
        margins: NONE,
        hears_all: true,
        reaches_all: true,
    }
}

/// The removal of the third channel.
fn struck(carrier: u32) -> Entry {
    let hint = Hint::Ban {
        carrier,
        lo: 2,
        hi: 2,
    };
    Entry {
        carrier: carrier as usize,
        lo: 2,
        hi: 2,
        hint: Some(hint),
    }
}

/// What a further engine answers.
fn answer(alloc: Global, problem: &Problem, trail: &mut Trail) -> Result<Outcome, NoMemory>
    requires { trail.old.counts ≡ counts_of (case_of problem.now) }
    ensures { trail.new.counts ≡ trail.old.counts }
{
    let mut engine = engine_of(ProblemTheory::new(alloc, problem)?);
    let found = look(&mut engine, trail)?;
    Ok(found.0)
}

fn bans_strike(alloc: Global) -> Result<(), Broken> {
    let problem = problem_of_rows(alloc, &[wide(false), wide(false), wide(true)])?;
    let mut trail = trail_of(alloc, &problem)?;
    let first = answer(alloc, &problem, &mut trail)?;
    hold(&[
        (first == Outcome::Quiet, "each carrier has a channel left"),
        (trail.left() == 10, "two of twelve are gone"),
        (trail.len() == 2, "by two removals"),
        (is_entry(&trail, 0, struck(0)), "the first carrier's"),
        (is_entry(&trail, 1, struck(1)), "the second carrier's"),
    ])?;
    let second = answer(alloc, &problem, &mut trail)?;
    hold(&[
        (second == Outcome::Quiet, "quiet once more"),
        (trail.len() == 2, "and nothing more falls"),
    ])
}

fn a_carrier_is_wiped(alloc: Global) -> Result<(), Broken> {
    let problem = problem_of_rows(alloc, &[wide(false), wide(false), wide(true)])?;
    let mut trail = trail_of(alloc, &problem)?;
    let cond = Cond {
        carrier: 1,
        inside: true,
        lo: 2,
        hi: 2,
    };
    decide(&mut trail, cond)?;
    let outcome = answer(alloc, &problem, &mut trail)?;
    hold(&[(
        outcome == Outcome::Wiped(1),
        "decided for a channel that isn't allowed",
    )])
}

fn all(alloc: Global) -> Result<(), Broken> {
    rows_settle(alloc)?;
    bans_strike(alloc)?;
    a_carrier_is_wiped(alloc)
}

#[test]
fn the_engine_leaves_the_closure(rt: HostRuntime) -> Result<(), Fail> {
    told(all(rt.alloc()))
}

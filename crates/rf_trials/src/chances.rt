//! Problems that are made as if by chance, settled by the engine and by plain rounds.
ghost use Rattle.std.specs.Prelude.{◌≡◌};
ghost use Rattle.rf_problem.specs.Problem.{case_of};

use crate::engines::{Found, look, settled};
use crate::hold::{Broken, hold, told};
use crate::problems::{Flags, Row, Small, problem_of_rows};
use crate::rounds::{closure, is_dead, only};
use crate::trails::decide;
use rf_base::NoMemory;
use rf_log::Cond;
use rf_problem::Problem;
use rf_propagate::{Engine, Outcome};
use rf_props::{ProblemTheory, Rules, engine_of, trail_of};
use rf_terms::MARGINS;
use std::alloc::Global;
use std::test::Fail;

/// A number below 65,536 by chance.
fn chance(state: &mut u32) -> u32 {
    *state = state.wrapping_mul(1_664_525).wrapping_add(1_013_904_223);
    *state >> 16
}

fn channels(state: &mut u32) -> [u32; 4] {
    let mut freqs = [0; 4];
    let mut freq = 500_000 + 50 * (chance(state) % 24);
    for k in 0..4 {
        freqs[k] = freq;
        freq = freq.saturating_add(50 + 50 * (chance(state) % 8));
    }
    freqs
}

fn flags(state: &mut u32) -> [bool; 4] {
    let mut allowed = [false; 4];
    for k in 0..4 {
        allowed[k] = chance(state) % 3 == 0;
    }
    allowed[(chance(state) % 4) as usize] = true;
    allowed
}

fn width(state: &mut u32) -> u32 {
    (chance(state) % 4).saturating_mul(30)
}

fn widths(state: &mut u32) -> [u32; MARGINS] {
    let mut margins = [0; MARGINS];
    for i in 0..MARGINS {
        margins[i] = width(state);
    }
    margins
}

fn carrier(state: &mut u32) -> Row {
    let freqs = channels(state);
    let allowed = flags(state);
    let spacing = width(state);
    let margins = widths(state);
    Row {
        freqs,
        allowed,
        spacing,
        margins,
        hears_all: chance(state) % 4 != 0,
        reaches_all: chance(state) % 2 == 0,
    }
}

fn made(seed: u32) -> Small {
    let mut state = seed;
    let first = carrier(&mut state);
    let second = carrier(&mut state);
    let third = carrier(&mut state);
    [first, second, third, carrier(&mut state)]
}

fn allowed(small: &Small) -> Flags {
    [
        small[0].allowed,
        small[1].allowed,
        small[2].allowed,
        small[3].allowed,
    ]
}

/// The first carrier with two indices or more, and its first index.
fn choice(left: &Flags) -> Option<(u32, u32)> {
    for c in 0..4 {
        for k in 0..4 {
            if left[c][k] && only(&left[c]).is_none() {
                return Some((c as u32, k as u32));
            }
        }
    }
    None
}

fn cond(carrier: u32, k: u32, inside: bool) -> Cond {
    Cond {
        carrier,
        inside,
        lo: k,
        hi: k,
    }
}

/// What an engine leaves that goes on, from what it left, with a carrier at an index.
fn went_on<'a>(
    alloc: Global,
    engine: &mut Engine<ProblemTheory<'a>, Rules>,
    problem: &Problem,
    cond: Cond,
) -> Result<Found, NoMemory>
    requires { engine.old.theory.problem.now ≡ problem.now }
    ensures { engine.new.theory ≡ engine.old.theory }
{
    let mut trail = trail_of(alloc, problem)?;
    look(engine, &mut trail)?;
    decide(&mut trail, cond)?;
    look(engine, &mut trail)
}

/// What an engine leaves that begins again, from all channels, without an index.
fn began_again<'a>(
    alloc: Global,
    engine: &mut Engine<ProblemTheory<'a>, Rules>,
    problem: &Problem,
    cond: Cond,
) -> Result<Found, NoMemory>
    requires { engine.old.theory.problem.now ≡ problem.now }
{
    let mut trail = trail_of(alloc, problem)?;
    decide(&mut trail, cond)?;
    look(engine, &mut trail)
}

/// What one engine leaves with a carrier at an index, and then without the index.
fn branched(
    alloc: Global,
    problem: &Problem,
    carrier: u32,
    k: u32,
) -> Result<(Found, Found), NoMemory> {
    let mut engine = engine_of(ProblemTheory::new(alloc, problem)?);
    let with = went_on(alloc, &mut engine, problem, cond(carrier, k, true))?;
    let without = began_again(alloc, &mut engine, problem, cond(carrier, k, false))?;
    Ok((with, without))
}

/// These indices, with the carrier at one of them or without it.
fn narrowed(start: &Flags, carrier: u32, k: u32, inside: bool) -> Flags {
    let mut left = *start;
    for i in 0..4 {
        left[carrier as usize % 4][i] &= (i == k as usize) == inside;
    }
    left
}

fn agrees(plain: &Flags, found: &Found) -> bool {
    if is_dead(plain) {
        return found.0 != Outcome::Quiet;
    }
    found.0 == Outcome::Quiet && found.1 == *plain
}

/// What became of a problem.
#[derive(Clone, Copy)]
struct Trial {
    /// Whether the engine and the plain rounds left the same.
    agrees: bool,
    /// Whether something fell, and no carrier was wiped.
    narrower: bool,
}

/// A problem settled from all channels: what plain rounds leave, and what became of it.
fn tried(alloc: Global, small: &Small, problem: &Problem) -> Result<(Flags, Trial), NoMemory> {
    let allowed = allowed(small);
    let plain = closure(small, allowed);
    let found = settled(alloc, problem)?;
    let tried = Trial {
        agrees: agrees(&plain, &found),
        narrower: !is_dead(&plain) && plain != allowed,
    };
    Ok((plain, tried))
}

/// A problem settled with a carrier at an index and without it: whether both agree, and whether the first was quiet.
fn tried_on(
    alloc: Global,
    small: &Small,
    problem: &Problem,
    start: &Flags,
) -> Result<Trial, NoMemory> {
    let none = Trial {
        agrees: true,
        narrower: false,
    };
    let (carrier, k) = match choice(start) {
        Some(pair) if !is_dead(start) => pair,
        _ => return Ok(none),
    };
    let (with, without) = branched(alloc, problem, carrier, k)?;
    let less = closure(small, narrowed(start, carrier, k, true));
    let more = closure(small, narrowed(start, carrier, k, false));
    Ok(Trial {
        agrees: agrees(&less, &with) && agrees(&more, &without),
        narrower: !is_dead(&less),
    })
}

fn tried_both(alloc: Global, seed: u32) -> Result<(Trial, Trial), NoMemory> {
    let small = made(seed);
    let problem = problem_of_rows(alloc, &small)?;
    let (start, first) = tried(alloc, &small, &problem)?;
    let second = tried_on(alloc, &small, &problem, &start)?;
    Ok((first, second))
}

fn all(alloc: Global) -> Result<(), Broken> {
    let mut struck = 0u32;
    let mut quiet = 0u32;
    for seed in 0..200 {
        let (first, second) = tried_both(alloc, seed)?;
        if !first.agrees || !second.agrees {
            return Err(Broken("what plain rounds leave"));
        }
        if first.narrower {
            struck = struck.saturating_add(1);
        }
        if second.narrower {
            quiet = quiet.saturating_add(1);
        }
    }
    hold(&[
        (struck > 30, "something falls in more than thirty"),
        (quiet > 30, "more than thirty are quiet with less"),
    ])
}

#[test]
fn the_engine_leaves_what_plain_rounds_leave(rt: HostRuntime) -> Result<(), Fail> {
    told(all(rt.alloc()))
}

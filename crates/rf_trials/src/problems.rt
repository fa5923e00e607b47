//! Problems: small ones that are made of rows, and what problems say of their carriers.
ghost use Rattle.std.specs.Prelude.{◌≡◌, ◌≤◌, length};
ghost use Rattle.rf_problem.specs.Problem.{members_of};

use crate::hold::{Broken, hold, told};
use crate::shows::in_turns;
use rf_active::problem_of;
use rf_base::NoMemory;
use rf_problem::Problem;
use rf_terms::{Kind, MARGINS};
use rf_zones::Mask;
use std::alloc::Global;
use std::test::Fail;

/// Which of four channels of four carriers are allowed or left.
pub(crate) type Flags = [[bool; 4]; 4];

/// Four carriers.
pub(crate) type Small = [Row; 4];

/// A carrier with four channels.
#[derive(Clone, Copy)]
pub(crate) struct Row {
    pub(crate) freqs: [u32; 4],
    pub(crate) allowed: [bool; 4],
    pub(crate) spacing: u32,
    pub(crate) margins: [u32; MARGINS],
    /// Whether it is heard with each earlier carrier, or with the first and the third alone.
    pub(crate) hears_all: bool,
    /// Whether it may be together with each earlier carrier in a set of two, or with those alone with which it is heard.
    pub(crate) reaches_all: bool,
}

/// Adds a carrier, where its numbers are those of one.
fn add(alloc: Global, problem: &mut Problem, row: &Row) -> Result<(), NoMemory> {
    let [f, g, h, i] = row.freqs;
    let [p, q, r, s] = row.allowed;
    if f < 1 || f >= g || g >= h || h >= i || i > 10_000_000 {
        return Ok(());
    }
    let [j, k, l, m, n] = row.margins;
    let wide = j > 1_000_000 || k > 1_000_000 || l > 1_000_000 || m > 1_000_000 || n > 1_000_000;
    if wide || row.spacing > 1_000_000 || problem.carriers() >= 4 {
        return Ok(());
    }
    let heard = if row.hears_all { 15 } else { 5 };
    let reach = if row.reaches_all { 15 } else { heard };
    let freqs = vec![in alloc; f, g, h, i]?;
    let allowed = vec![in alloc; p, q, r, s]?;
    problem.add(freqs, allowed, row.spacing, &[j, k, l, m, n], heard, reach)
}

/// The problem of at most four carriers, all of which are on at once.
pub(crate) fn problem_of_rows(alloc: Global, rows: &[Row]) -> Result<Problem, NoMemory> {
    let mut problem = Problem::new(alloc, vec![in alloc; 15]?);
    for row in rows {
        add(alloc, &mut problem, row)?;
    }
    Ok(problem)
}

/// Three carriers with two channels each. The last hears the second alone, and these slices are shared.
fn three(alloc: Global, slices: Vec<Mask>, reach_of_last: Mask) -> Result<Problem, NoMemory> {
    let mut problem = Problem::new(alloc, slices);
    for (spacing, heard, reach) in [(200, 0, 0), (300, 1, 1), (250, 2, reach_of_last)] {
        let freqs = vec![in alloc; 500_000, 500_100]?;
        let allowed = vec![in alloc; true, false]?;
        if problem.carriers() < 3 {
            problem.add(freqs, allowed, spacing, &[1, 2, 3, 4, 5], heard, reach)?;
        }
    }
    Ok(problem)
}

/// Three carriers of which each two share a slice and the three share none. The last hears the second alone.
fn in_pairs(alloc: Global) -> Result<Problem, NoMemory> {
    three(alloc, vec![in alloc; 3, 6, 5]?, 2)
}

/// Three carriers in one slice. The last hears the second alone, and the first is far coupled with it.
fn far_ones(alloc: Global) -> Result<Problem, NoMemory> {
    three(alloc, vec![in alloc; 7]?, 3)
}

/// How many frequencies and flags a carrier has, and its last frequency.
fn channels(problem: &Problem, carrier: usize) -> Option<(usize, usize, u32)> {
    if carrier >= problem.carriers() || problem.count(carrier) == 0 {
        return None;
    }
    let last = problem.freq(carrier, problem.count(carrier) - 1);
    Some((
        problem.freqs(carrier).len(),
        problem.flags(carrier).len(),
        last,
    ))
}

fn is_allowed(problem: &Problem, carrier: usize, k: u32) -> Option<bool> {
    if carrier >= problem.carriers() || k >= problem.count(carrier) {
        return None;
    }
    Some(problem.allowed(carrier, k))
}

/// The spacing of the first and the last of three carriers, and the margins of two products of all three.
fn margins(problem: &Problem) -> Option<(u32, u32, u32)> {
    if problem.carriers() != 3 {
        return None;
    }
    let spacing = problem.margin(Kind::Spacing, &[0, 2]);
    let fifth = problem.margin(Kind::T5Two, &[0, 1, 2]);
    Some((spacing, fifth, problem.margin(Kind::T7Two, &[0, 1, 2])))
}

/// Whether the carriers of a mask are together, where there are three carriers.
fn joined(problem: &Problem, mask: Mask) -> Option<bool>
    requires two { 2 ≤ length (members_of 3 mask) }
    requires three { length (members_of 3 mask) ≤ 3 }
{
    if problem.carriers() != 3 {
        return None;
    }
    Some(problem.together(mask))
}

/// Whether the last of three carriers is together with the second, and with the first.
fn last_joined(problem: &Problem) -> Option<(bool, bool)> {
    if problem.carriers() != 3 {
        return None;
    }
    Some((problem.together_of(&[2, 1]), problem.together_of(&[2, 0])))
}

fn made_by_calls(alloc: Global) -> Result<(), Broken> {
    let problem = in_pairs(alloc)?;
    hold(&[
        (problem.carriers() == 3, "three carriers"),
        (
            channels(&problem, 2) == Some((2, 2, 500_100)),
            "the last one's channels",
        ),
        (
            channels(&problem, 0) == Some((2, 2, 500_100)),
            "the first one's channels",
        ),
        (
            is_allowed(&problem, 0, 0) == Some(true),
            "a channel that is allowed",
        ),
        (is_allowed(&problem, 0, 1) == Some(false), "one that is not"),
        (
            margins(&problem) == Some((250, 3, 5)),
            "the greater spacing, and the margins of the last",
        ),
    ])
}

#[tactic(auto, unfolding(rf_zones::specs::Masks::has_bit))]
fn together(alloc: Global) -> Result<(), Broken> {
    let problem = in_pairs(alloc)?;
    hold(&[
        (
            joined(&problem, 3) == Some(true),
            "the first two are together",
        ),
        (joined(&problem, 6) == Some(true), "the last two are"),
        (
            joined(&problem, 5) == Some(false),
            "the last doesn't hear the first",
        ),
        (
            joined(&problem, 7) == Some(false),
            "the three share no slice",
        ),
        (
            last_joined(&problem) == Some((true, false)),
            "the same of sets",
        ),
    ])
}

#[tactic(auto, unfolding(rf_zones::specs::Masks::has_bit))]
fn far_together(alloc: Global) -> Result<(), Broken> {
    let problem = far_ones(alloc)?;
    hold(&[
        (
            joined(&problem, 3) == Some(true),
            "those that hear each other",
        ),
        (joined(&problem, 6) == Some(true), "the last two do"),
        (
            joined(&problem, 5) == Some(true),
            "far coupled ones are together as two",
        ),
        (
            joined(&problem, 7) == Some(false),
            "and are in no set of three",
        ),
    ])
}

#[tactic(auto, unfolding(rf_zones::specs::Masks::has_bit))]
fn made_of_a_show(alloc: Global) -> Result<(), Broken> {
    let show = in_turns(alloc)?;
    let problem = problem_of(alloc, &show)?;
    hold(&[
        (
            channels(&problem, 0) == Some((401, 401, 510_000)),
            "the first one's channels",
        ),
        (
            channels(&problem, 1) == Some((401, 401, 510_000)),
            "the second one's channels",
        ),
        (
            channels(&problem, 2) == Some((401, 401, 510_000)),
            "the third one's channels",
        ),
        (
            is_allowed(&problem, 0, 0) == Some(true),
            "the first may stand lowest",
        ),
        (is_allowed(&problem, 1, 0) == Some(true), "the second may"),
        (is_allowed(&problem, 2, 0) == Some(true), "the third may"),
    ])?;
    hold(&[
        (
            joined(&problem, 3) == Some(true),
            "the first two are together",
        ),
        (
            joined(&problem, 5) == Some(true),
            "the first and the last are",
        ),
        (joined(&problem, 6) == Some(true), "the last two are"),
        (joined(&problem, 7) == Some(false), "the three are not"),
    ])
}

fn all(alloc: Global) -> Result<(), Broken> {
    made_by_calls(alloc)?;
    together(alloc)?;
    far_together(alloc)?;
    made_of_a_show(alloc)
}

#[test]
fn problems_tell_what_they_were_made_of(rt: HostRuntime) -> Result<(), Fail> {
    told(all(rt.alloc()))
}

//! The way from a problem to what is advised: dives, pushes and new starts, within a bounded number of steps.

ghost use Rattle.std.specs.Prelude.{◌≡◌, ◌<◌, ◌≤◌, length, IfOk};
ghost use Rattle.rf_find.specs.declared.limits.TheConstants.{MAX_STEPS};

use crate::board::Board;
use crate::dive::dive;
use crate::draws::Draws;
use crate::eject::eject;
use crate::found::{Advice, Found};
use crate::limits::{MAX_STEPS, MOST_OUT, STARTS};
use crate::sample::starts;
use crate::world::World;
use rf_base::{Items, NoMemory};
use rf_problem::Problem;
use std::alloc::Global;

/// Where the work stands: how often each carrier pushed others away, the draws, and the steps.
#[derive(Drop)]
struct Work {
    tries: Vec<u32>,
    draws: Draws,
    steps: u64,
}

/// Looks for a plan of a problem: a greedy dive, then dives along sets whose products meet few others, and after each dive that leaves
/// out few carriers, these push others away. It takes at most `MAX_STEPS` steps. `NoMemory` where no memory is found.
pub fn find(alloc: Global, problem: &Problem) -> Result<Found, NoMemory>
    ensures advice { IfOk result (λ found. length found.advice ≡ length problem.now.carriers) }
    ensures steps { IfOk result (λ found. found.steps ≤ MAX_STEPS) }
{
    let mut work = Work {
        tries: Vec::from_elem(alloc, 0, problem.carriers())?,
        draws: Draws::new(),
        steps: 0,
    };
    let Some(world) = World::of(alloc, problem)? else {
        return found_of(alloc, problem, None, &work);
    };
    match plan(alloc, problem, &world, &mut work)? {
        Some(board) => found_of(alloc, problem, Some((&world, &board)), &work),
        None => found_of(alloc, problem, None, &work),
    }
}

// The first plan that is found.
fn plan(
    alloc: Global,
    problem: &Problem,
    world: &World,
    work: &mut Work,
) -> Result<Option<Board>, NoMemory> {
    let liked = Vec::from_elem(alloc, false, world.grid.cells)?;
    let board = attempt(alloc, world, liked.as_slice(), work)?;
    if board.is_full(world) {
        return Ok(Some(board));
    }
    let starts = starts(alloc, problem, world, &mut work.draws)?;
    for start in starts.as_slice() {
        let liked = start.flags(alloc, world.grid.cells)?;
        let board = attempt(alloc, world, liked.as_slice(), work)?;
        if board.is_full(world) {
            return Ok(Some(board));
        }
    }
    Ok(None)
}

// A dive from a start, and pushes where few carriers are left out.
fn attempt(
    alloc: Global,
    world: &World,
    liked: &[bool],
    work: &mut Work,
) -> Result<Board, NoMemory> {
    let mut board = Board::of(alloc, world, work.steps)?;
    dive(world, &mut board, liked)?;
    if board.on.len().saturating_add(MOST_OUT) > world.carriers {
        eject(
            alloc,
            world,
            &mut board,
            &mut work.draws,
            work.tries.as_mut_slice(),
        )?;
    }
    work.steps = board.steps;
    Ok(board)
}

// What is advised, with a plan or without one.
fn found_of(
    alloc: Global,
    problem: &Problem,
    plan: Option<(&World, &Board)>,
    work: &Work,
) -> Result<Found, NoMemory>
    ensures advice { IfOk result (λ found. length found.advice ≡ length problem.now.carriers) }
    ensures steps { IfOk result (λ found. found.steps ≤ MAX_STEPS) }
{
    let mut advice = Vec::new(alloc);
    for carrier in 0..problem.carriers() {
        let channel = match plan {
            Some((world, board)) => channel_of(problem, world, board, carrier),
            None => None,
        };
        let tries = work.tries.get(carrier).copied().unwrap_or(0);
        advice.push(Advice { channel, tries })?;
    }
    Ok(Found {
        advice: Items::from_vec(advice),
        steps: work.steps.min(MAX_STEPS),
    })
}

// The channel of a placed carrier.
fn channel_of(problem: &Problem, world: &World, board: &Board, carrier: usize) -> Option<u32>
    requires { carrier < length problem.now.carriers }
{
    let cell = board.cell_of(carrier)?;
    let freqs = problem.freqs(carrier);
    for n in 0..freqs.len() {
        if world.grid.cell(freqs[n]) == cell {
            return u32::try_from(n).ok();
        }
    }
    None
}

//! Samples: sets of cells to start from, whose products seldom meet.

use crate::draws::Draws;
use crate::grid::divisor;
use crate::limits::{SAMPLES, STARTS};
use crate::singer::{Spread, spreads};
use crate::world::World;
use rf_base::NoMemory;
use rf_problem::Problem;
use rf_terms::Kind;
use std::alloc::Global;

/// Cells of which no two pairs lie equally far apart, or nearly so, so that few products of these frequencies meet others.
#[derive(Drop)]
pub struct Start {
    cells: Vec<usize>,
}

/// What samples are made of: wide cells, so many cells each, of which some are open; sets that fit them; how far carriers keep from
/// one another, and from products of two.
#[derive(Drop)]
struct Ground {
    step: usize,
    open: Vec<bool>,
    spreads: Vec<Spread>,
    spacing: usize,
    clear: usize,
}

impl Start {
    /// Which cells are liked.
    pub fn flags(&self, alloc: Global, count: usize) -> Result<Vec<bool>, NoMemory> {
        let mut flags = Vec::from_elem(alloc, false, count)?;
        for cell in self.cells.as_slice() {
            if let Some(flag) = flags.get_mut(*cell) {
                *flag = true;
            }
        }
        Ok(flags)
    }
}

/// The best of many samples, the best first. None are made for a problem without products of three.
pub fn starts(
    alloc: Global,
    problem: &Problem,
    world: &World,
    draws: &mut Draws,
) -> Result<Vec<Start>, NoMemory> {
    let mut best = Vec::new(alloc);
    let Some(ground) = ground_of(alloc, problem, world)? else {
        return Ok(best);
    };
    for _ in 0..SAMPLES {
        let number = draws.below(ground.spreads.len());
        if let Some(spread) = ground.spreads.get(number) {
            keep(&mut best, sample(alloc, &ground, spread, draws)?)?;
        }
    }
    Ok(best)
}

// Keeps a start among the best, where it has more cells than the last of them.
fn keep(best: &mut Vec<Start>, start: Start) -> Result<(), NoMemory> {
    let mut at = best.len();
    for n in 0..best.len() {
        if best[n].cells.len() < start.cells.len() {
            at = n;
            break;
        }
    }
    if at.saturating_add(1) >= STARTS {
        return Ok(());
    }
    if at <= best.len() {
        best.insert(at, start)?;
    }
    best.truncate(STARTS - 1);
    Ok(())
}

// What the samples of a problem are made of.
fn ground_of(alloc: Global, problem: &Problem, world: &World) -> Result<Option<Ground>, NoMemory> {
    let two = most_asked(problem, Kind::T3Two);
    let width = most_asked(problem, Kind::T3Three)
        .max(most_asked(problem, Kind::T5ThreeA))
        .max(two / 2);
    if width == 0 {
        return Ok(None);
    }
    let step = (width / world.grid.unit.max(1)).max(1) as usize;
    let open = open_cells(alloc, world, step)?;
    let count = open.iter().filter(|o| **o).count();
    let least = count.saturating_mul(4) / 5;
    let most = count.saturating_mul(2).min(12_000);
    let ground = Ground {
        step,
        open,
        spreads: spreads(alloc, least, most)?,
        spacing: cells_of(world, most_asked(problem, Kind::Spacing)),
        clear: cells_of(world, two),
    };
    Ok(Some(ground))
}

// The largest number that a carrier asks of a kind.
fn most_asked(problem: &Problem, kind: Kind) -> u32 {
    let mut most = 0;
    for carrier in 0..problem.carriers() {
        most = most.max(problem.asked(kind, carrier));
    }
    most
}

// How many cells a margin takes, rounded up.
fn cells_of(world: &World, margin: u32) -> usize {
    let unit = world.grid.unit.max(1);
    (margin.saturating_add(unit - 1) / unit) as usize
}

// Which wide cells begin with a cell that some carrier may have that isn't locked.
fn open_cells(alloc: Global, world: &World, step: usize) -> Result<Vec<bool>, NoMemory> {
    let mut open = Vec::from_elem(
        alloc,
        false,
        (world.grid.cells / step.max(1)).saturating_add(1),
    )?;
    for class in world.classes.as_slice() {
        if world.locked_at(class.first).is_none() {
            for wide in 0..open.len() {
                if class.flags.get(wide.wrapping_mul(step)).is_some_and(|f| *f) {
                    open[wide] = true;
                }
            }
        }
    }
    Ok(open)
}

// A set that is turned and stretched, moved onto what is open, without those that meet earlier ones.
fn sample(
    alloc: Global,
    ground: &Ground,
    spread: &Spread,
    draws: &mut Draws,
) -> Result<Start, NoMemory> {
    let by = stretch(spread.length, draws);
    let turn = draws.below(spread.length);
    let mut wide = Vec::new(alloc);
    for number in spread.numbers.as_slice() {
        let at = by.wrapping_mul(*number).wrapping_add(turn) % spread.length.max(1);
        if let Some(cell) = first_open(ground, at, spread.length) {
            wide.push(cell)?;
        }
    }
    wide.sort_unstable();
    let mut cells = Vec::new(alloc);
    for cell in wide.as_slice() {
        let cell = cell.wrapping_mul(ground.step);
        if is_clear(cells.as_slice(), cell, ground) {
            cells.push(cell)?;
        }
    }
    Ok(Start { cells })
}

// A number without a common divisor with the length.
fn stretch(length: usize, draws: &mut Draws) -> usize {
    for _ in 0..100 {
        let by = draws.below(length.saturating_sub(1)).wrapping_add(1);
        if divisor(
            u32::try_from(by).unwrap_or(0),
            u32::try_from(length).unwrap_or(0),
        ) == 1
        {
            return by;
        }
    }
    1
}

// The first wide cell that is open, of those that lie the length apart.
fn first_open(ground: &Ground, at: usize, length: usize) -> Option<usize> {
    let open = ground.open.as_slice();
    let mut cell = at;
    for _ in 0..open.len() {
        if *open.get(cell)? {
            return Some(cell);
        }
        cell = cell.wrapping_add(length);
    }
    None
}

// Whether a cell above the kept ones keeps its spacing, and meets no product of two of them.
fn is_clear(kept: &[usize], cell: usize, ground: &Ground) -> bool {
    let n = kept.len();
    if n > 0 && cell.wrapping_sub(kept[n - 1]) < ground.spacing {
        return false;
    }
    for i in 1..kept.len() {
        let twice = kept[i].wrapping_mul(2);
        if kept[..i].iter().any(|low| twice.abs_diff(low.wrapping_add(cell)) < ground.clear) {
            return false;
        }
    }
    true
}

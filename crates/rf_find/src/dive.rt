//! The greedy dive: carriers are placed one after another, the hardest first.

use crate::board::{Board, Spot};
use crate::world::{Class, World};
use rf_base::NoMemory;

/// How many cells are free to a class, the first that is liked or else the least.
#[derive(Clone, Copy)]
struct Free {
    count: usize,
    least: usize,
    liked: Option<usize>,
}

/// Places one carrier after another: the one with the fewest free cells, at the first of them that is liked, or else at the least.
/// A carrier without a free cell is left out.
pub fn dive(world: &World, board: &mut Board, liked: &[bool]) -> Result<(), NoMemory> {
    for _ in 0..world.carriers {
        if board.is_spent() {
            return Ok(());
        }
        match next(world, board, liked) {
            Some(spot) => board.put(world, spot)?,
            None => return Ok(()),
        }
    }
    Ok(())
}

// The carrier with the fewest free cells, the first of them where there are several.
fn next(world: &World, board: &mut Board, liked: &[bool]) -> Option<Spot> {
    let mut best: Option<(Spot, usize)> = None;
    board.spend(world.classes.len().saturating_mul(world.grid.cells / 4));
    for n in 0..world.classes.len() {
        if let Some(next) = next_of(world, board, n, liked) {
            best = fewer(best, next);
        }
    }
    best.map(|b| b.0)
}

// The first of a class that isn't placed, where it has a free cell, and how many it has.
fn next_of(world: &World, board: &Board, number: usize, liked: &[bool]) -> Option<(Spot, usize)> {
    let carrier = first_out(world, board, number)?;
    let class = world.classes.get(number)?;
    let rises = board.rises.get(number)?;
    let free = free_of(class, rises.as_slice(), liked)?;
    let cell = free.liked.unwrap_or(free.least);
    Some((Spot::new(carrier, cell, false), free.count))
}

fn fewer(best: Option<(Spot, usize)>, next: (Spot, usize)) -> Option<(Spot, usize)> {
    let Some(old) = best else {
        return Some(next);
    };
    if next.1 < old.1 || (next.1 == old.1 && next.0.carrier < old.0.carrier) {
        Some(next)
    } else {
        Some(old)
    }
}

// The first carrier of a class that isn't placed.
fn first_out(world: &World, board: &Board, number: usize) -> Option<usize> {
    for carrier in 0..world.carriers {
        if world.class_number(carrier) == number && !board.has(carrier) {
            return Some(carrier);
        }
    }
    None
}

// The cells of a class over which no window lies.
fn free_of(class: &Class, rises: &[i32], liked: &[bool]) -> Option<Free> {
    let mut free: Option<Free> = None;
    let mut over: i32 = 0;
    for cell in 0..rises.len() {
        over = over.wrapping_add(rises[cell]);
        if over == 0 && is_set(class.flags.as_slice(), cell) {
            free = Some(with(free, cell, is_set(liked, cell)));
        }
    }
    free
}

#[inline]
fn is_set(flags: &[bool], cell: usize) -> bool {
    cell < flags.len() && flags[cell]
}

fn with(free: Option<Free>, cell: usize, is_liked: bool) -> Free {
    let old = free.unwrap_or(Free {
        count: 0,
        least: cell,
        liked: None,
    });
    let liked = if is_liked && old.liked.is_none() {
        Some(cell)
    } else {
        old.liked
    };
    Free {
        count: old.count.wrapping_add(1),
        liked,
        ..old
    }
}

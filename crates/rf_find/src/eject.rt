//! Carriers that push one another away until all of them are placed.

use crate::board::{Board, HEAVY, Spot, form_of, near_both, width_four, width_three};
use crate::draws::Draws;
use crate::limits::{EJECT_MOVES, EJECT_STEPS, MAX_STEPS};
use crate::pattern::width;
use crate::stamps::Stamps;
use crate::world::{Class, World};
use rf_base::NoMemory;
use rf_zones::Mask;
use std::alloc::Global;

/// The carriers that push one another away: since which move each was left out, and until when cells aren't taken again.
#[derive(Drop)]
struct Pushes {
    since: Vec<usize>,
    stamps: Stamps,
}

/// A cell of a carrier, and how many windows lie over it.
#[derive(Clone, Copy)]
struct Pick {
    cell: usize,
    over: i32,
}

/// Places those left out, the one left out longest first, at a cell with the fewest windows, and takes away what makes these, until
/// all are placed or the steps are taken. Counts how often each was placed so.
pub fn eject(
    alloc: Global,
    world: &World,
    board: &mut Board,
    draws: &mut Draws,
    tries: &mut [u32],
) -> Result<(), NoMemory> {
    let mut pushes = Pushes {
        since: Vec::from_elem(alloc, 0, world.carriers)?,
        stamps: Stamps::new(alloc, world)?,
    };
    let end = board.steps.saturating_add(EJECT_STEPS).min(MAX_STEPS);
    for now in 1..EJECT_MOVES {
        if board.steps >= end {
            return Ok(());
        }
        let Some(carrier) = longest_out(world, board, &pushes) else {
            return Ok(());
        };
        rise(tries, carrier);
        push(alloc, world, board, draws, &mut pushes, carrier, now)?;
    }
    Ok(())
}

fn rise(tries: &mut [u32], carrier: usize) {
    if let Some(count) = tries.get_mut(carrier) {
        *count = count.saturating_add(1);
    }
}

// The carrier that was left out longest, the first of them where there are several.
fn longest_out(world: &World, board: &Board, pushes: &Pushes) -> Option<usize> {
    let mut longest: Option<(usize, usize)> = None;
    for carrier in 0..world.carriers {
        let since = pushes.since.get(carrier).copied().unwrap_or(0);
        if !board.has(carrier) && longest.is_none_or(|l| since < l.1) {
            longest = Some((carrier, since));
        }
    }
    longest.map(|l| l.0)
}

// Places a carrier, and takes away what it can't be with.
fn push(
    alloc: Global,
    world: &World,
    board: &mut Board,
    draws: &mut Draws,
    pushes: &mut Pushes,
    carrier: usize,
    now: usize,
) -> Result<(), NoMemory> {
    pushes.put_off(carrier, now);
    board.spend(world.grid.cells / 4);
    let Some(pick) = choose(world, board, draws, pushes, carrier, now) else {
        return Ok(());
    };
    if pick.over >= HEAVY {
        return Ok(());
    }
    let spot = Spot::new(carrier, pick.cell, false);
    board.put(world, spot)?;
    if pick.over == 0 {
        return Ok(());
    }
    let broken = broken(alloc, world, board, spot, pick.over)?;
    let mut gone = 0;
    for _ in 0..world.carriers {
        let Some(who) = worst(board, broken.as_slice(), gone, draws) else {
            return Ok(());
        };
        gone |= who.mask;
        let wait = draws.below(10).wrapping_add(10);
        pushes.stamps.set(
            world.class_number(who.carrier),
            who.cell,
            now.wrapping_add(wait),
        );
        pushes.put_off(who.carrier, now);
        board.take(world, who.carrier);
    }
    Ok(())
}

impl Pushes {
    // The carrier is the last to be placed from now on.
    fn put_off(&mut self, carrier: usize, now: usize) {
        if let Some(since) = self.since.get_mut(carrier) {
            *since = now;
        }
    }
}

// The least free cell of a carrier, or one with the fewest windows.
fn choose(
    world: &World,
    board: &Board,
    draws: &mut Draws,
    pushes: &Pushes,
    carrier: usize,
    now: usize,
) -> Option<Pick> {
    let number = world.class_number(carrier);
    let class = world.classes.get(number)?;
    let rises = board.rises.get(number)?;
    choose_in(
        class,
        rises.as_slice(),
        pushes.stamps.of(number),
        draws,
        now,
    )
}

fn choose_in(
    class: &Class,
    rises: &[i32],
    stamps: &[usize],
    draws: &mut Draws,
    now: usize,
) -> Option<Pick> {
    let mut best: Option<Pick> = None;
    let mut ties: usize = 0;
    let mut over: i32 = 0;
    for cell in 0..rises.len() {
        over = over.wrapping_add(rises[cell]);
        if cell >= class.flags.len() || !class.flags[cell] {
            continue;
        }
        if over == 0 {
            return Some(Pick { cell, over });
        }
        let least = match best {
            Some(pick) => pick.over,
            None => i32::MAX,
        };
        if over > least || stamps.get(cell).is_some_and(|s| *s > now) {
            continue;
        }
        ties = if over < least {
            1
        } else {
            ties.wrapping_add(1)
        };
        if draws.below(ties) == 0 {
            best = Some(Pick { cell, over });
        }
    }
    best
}

// The carrier, not locked, that is in most broken sets without one that is gone.
fn worst(board: &Board, broken: &[Mask], gone: Mask, draws: &mut Draws) -> Option<Spot> {
    let mut worst = None;
    let mut most: usize = 0;
    let mut ties: usize = 0;
    for spot in board.on.as_slice() {
        if spot.locked {
            continue;
        }
        let count = broken
            .iter()
            .filter(|set| **set & gone == 0 && **set & spot.mask != 0)
            .count();
        if count == 0 || count < most {
            continue;
        }
        ties = if count > most {
            1
        } else {
            ties.wrapping_add(1)
        };
        most = count;
        if draws.below(ties) == 0 {
            worst = Some(*spot);
        }
    }
    worst
}

// The sets of others with which a placed carrier breaks something; no further ones are looked for once there are so many.
fn broken(
    alloc: Global,
    world: &World,
    board: &mut Board,
    spot: Spot,
    most: i32,
) -> Result<Vec<Mask>, NoMemory> {
    let mut sets = Vec::new(alloc);
    let mut steps: usize = 0;
    let Some(class) = world.class(spot.carrier) else {
        return Ok(sets);
    };
    let most = usize::try_from(most).unwrap_or(0);
    let on = board.on.as_slice();
    for n in 0..on.len() {
        let other = on[n];
        if other.carrier == spot.carrier || sets.len() >= most {
            continue;
        }
        add_pair(&mut sets, world, class, spot, other)?;
        let count = add_more(&mut sets, world, class, &on[n + 1..], spot, other, most)?;
        steps = steps.saturating_add(count);
    }
    board.spend(steps / 2);
    Ok(sets)
}

fn add_pair(
    sets: &mut Vec<Mask>,
    world: &World,
    class: &Class,
    spot: Spot,
    a: Spot,
) -> Result<(), NoMemory> {
    let most = width(&class.widths, 0).max(world.width(a.carrier, 0));
    if class.pairs & a.mask != 0 && is_near(spot.at.wrapping_sub(a.at), most) {
        sets.push(a.mask)?;
    }
    Ok(())
}

#[inline]
fn is_near(form: i64, width: i64) -> bool {
    form <= width && form.wrapping_neg() <= width
}

// The sets with two or three others, of which the first is given.
fn add_more(
    sets: &mut Vec<Mask>,
    world: &World,
    class: &Class,
    rest: &[Spot],
    spot: Spot,
    a: Spot,
    most: usize,
) -> Result<usize, NoMemory> {
    let near = class.near(a.carrier);
    let mut steps: usize = 0;
    for n in 0..rest.len() {
        let b = rest[n];
        if b.carrier == spot.carrier || near & b.mask == 0 || sets.len() >= most {
            continue;
        }
        add_threes(sets, world, class, spot, a, b)?;
        let count = add_fours(sets, world, class, &rest[n + 1..], spot, a, b)?;
        steps = steps
            .saturating_add(world.threes.len())
            .saturating_add(count);
    }
    Ok(steps)
}

fn add_threes(
    sets: &mut Vec<Mask>,
    world: &World,
    class: &Class,
    spot: Spot,
    a: Spot,
    b: Spot,
) -> Result<(), NoMemory> {
    for pattern in world.threes.as_slice() {
        let form = pattern.coefs[0]
            .wrapping_mul(spot.at)
            .wrapping_add(form_of(pattern, a.at, b.at, 0));
        if is_near(form, width_three(world, class, pattern, a, b)) {
            sets.push(a.mask | b.mask)?;
        }
    }
    Ok(())
}

fn add_fours(
    sets: &mut Vec<Mask>,
    world: &World,
    class: &Class,
    rest: &[Spot],
    spot: Spot,
    a: Spot,
    b: Spot,
) -> Result<usize, NoMemory> {
    if world.fours.is_empty() {
        return Ok(0);
    }
    let near = class.near(a.carrier) & class.near(b.carrier) & near_both(world, a, b);
    for c in rest {
        if near & c.mask != 0 {
            add_four(sets, world, class, spot, [a, b, *c])?;
        }
    }
    Ok(rest.len().saturating_mul(world.fours.len()))
}

#[inline]
fn add_four(
    sets: &mut Vec<Mask>,
    world: &World,
    class: &Class,
    spot: Spot,
    others: [Spot; 3],
) -> Result<(), NoMemory> {
    let [a, b, c] = others;
    for pattern in world.fours.as_slice() {
        let form = pattern.coefs[0]
            .wrapping_mul(spot.at)
            .wrapping_add(form_of(pattern, a.at, b.at, c.at));
        if is_near(form, width_four(world, class, pattern, a, b, c)) {
            sets.push(a.mask | b.mask | c.mask)?;
        }
    }
    Ok(())
}

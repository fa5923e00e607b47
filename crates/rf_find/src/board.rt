//! A board of placed carriers, which counts for each cell the windows that lie over it.

ghost use Rattle.std.specs.Prelude.{◌<◌, length, IfSome};

use crate::joins::bit;
use crate::limits::MAX_STEPS;
use crate::marks::mark;
use crate::pattern::{Pattern, width};
use crate::world::{Class, World};
use rf_base::NoMemory;
use rf_zones::Mask;
use std::alloc::Global;

/// A carrier at a cell, with its mask, and whether it has no other cell.
#[derive(Clone, Copy)]
pub struct Spot {
    pub carrier: usize,
    pub cell: usize,
    pub at: i64,
    pub mask: Mask,
    pub locked: bool,
}

/// How heavy a window is that only carriers with one cell make.
pub const HEAVY: i32 = 1_000;

/// The carriers that are placed. For each class the rises of the number of windows that lie over its cells.
#[derive(Drop)]
pub struct Board {
    pub on: Vec<Spot>,
    pub placed: Mask,
    pub rises: Vec<Vec<i32>>,
    pub steps: u64,
}

impl Spot {
    /// A carrier at a cell.
    pub fn new(carrier: usize, cell: usize, locked: bool) -> Spot {
        Spot {
            carrier,
            cell,
            at: i64::try_from(cell).unwrap_or(0),
            mask: bit(carrier),
            locked,
        }
    }
}

impl Board {
    /// The carriers that have one cell, at it. So many steps were taken before.
    pub fn of(alloc: Global, world: &World, steps: u64) -> Result<Board, NoMemory> {
        let mut rises = Vec::new(alloc);
        for _ in 0..world.classes.len() {
            rises.push(Vec::from_elem(alloc, 0, world.grid.cells.saturating_add(1))?)?;
        }
        let mut board = Board {
            on: Vec::new(alloc),
            placed: 0,
            rises,
            steps,
        };
        for carrier in 0..world.carriers {
            if let Some(cell) = world.locked_at(carrier) {
                board.put(world, Spot::new(carrier, cell, true))?;
            }
        }
        Ok(board)
    }

    /// Whether a carrier is placed.
    #[inline]
    pub fn has(&self, carrier: usize) -> bool {
        self.placed & bit(carrier) != 0
    }

    /// Whether all carriers are placed.
    pub fn is_full(&self, world: &World) -> bool {
        self.on.len() >= world.carriers
    }

    /// Counts steps.
    pub fn spend(&mut self, steps: usize) {
        self.steps = self
            .steps
            .saturating_add(u64::try_from(steps).unwrap_or(0))
            .min(MAX_STEPS);
    }

    /// Whether all steps are taken.
    pub fn is_spent(&self) -> bool {
        self.steps >= MAX_STEPS
    }

    /// Places a carrier that isn't placed.
    pub fn put(&mut self, world: &World, spot: Spot) -> Result<(), NoMemory> {
        self.on.push(spot)?;
        self.placed |= spot.mask;
        self.touch(world, spot, 1);
        Ok(())
    }

    /// Takes a carrier away. None where it isn't placed.
    pub fn take(&mut self, world: &World, carrier: usize) -> Option<Spot> {
        let n = self.number_of(carrier)?;
        let spot = self.on[n];
        self.touch(world, spot, -1);
        if n < self.on.len() {
            self.on.swap_remove(n);
        }
        self.placed &= !spot.mask;
        Some(spot)
    }

    /// The cell of a placed carrier.
    pub fn cell_of(&self, carrier: usize) -> Option<usize> {
        let n = self.number_of(carrier)?;
        Some(self.on[n].cell)
    }

    // Where a carrier stands among those that are placed.
    fn number_of(&self, carrier: usize) -> Option<usize>
        ensures { IfSome result (λ n. n < length self.now.on.items) }
    {
        for n in 0..self.on.len() {
            if self.on[n].carrier == carrier {
                return Some(n);
            }
        }
        None
    }

    // Counts the windows with a carrier for all classes.
    fn touch(&mut self, world: &World, spot: Spot, by: i32) {
        let mut steps = 0;
        for n in 0..self.rises.len() {
            if let Some(class) = world.classes.get(n) {
                steps = touch_class(
                    world,
                    class,
                    self.on.as_slice(),
                    &mut self.rises[n],
                    spot,
                    by,
                )
                .saturating_add(steps);
            }
        }
        self.spend(steps);
    }
}

// Counts the windows of a class with a carrier and the others.
fn touch_class(
    world: &World,
    class: &Class,
    on: &[Spot],
    rises: &mut Vec<i32>,
    spot: Spot,
    by: i32,
) -> usize {
    let rises = rises.as_mut_slice();
    if class.pairs & spot.mask != 0 {
        let most = width(&class.widths, 0).max(world.width(spot.carrier, 0));
        mark(
            rises,
            1,
            spot.at.wrapping_neg(),
            most,
            weight(by, spot.locked),
        );
    }
    let near = class.near(spot.carrier);
    let mut steps: usize = 1;
    for n in 0..on.len() {
        let other = on[n];
        if near & other.mask != 0 && other.carrier != spot.carrier {
            touch_threes(world, class, rises, spot, other, by);
            let count = touch_fours(world, class, &on[n + 1..], rises, spot, other, by);
            steps = steps
                .saturating_add(world.threes.len())
                .saturating_add(count);
        }
    }
    steps
}

fn weight(by: i32, locked: bool) -> i32 {
    if locked { by.wrapping_mul(HEAVY) } else { by }
}

// Counts the windows of a class with two carriers.
fn touch_threes(world: &World, class: &Class, rises: &mut [i32], a: Spot, b: Spot, by: i32) {
    let by = weight(by, a.locked && b.locked);
    for pattern in world.threes.as_slice() {
        let most = width_three(world, class, pattern, a, b);
        mark(
            rises,
            pattern.coefs[0],
            form_of(pattern, a.at, b.at, 0),
            most,
            by,
        );
    }
}

// Counts the windows of a class with two carriers and a third one.
fn touch_fours(
    world: &World,
    class: &Class,
    rest: &[Spot],
    rises: &mut [i32],
    a: Spot,
    b: Spot,
    by: i32,
) -> usize {
    if world.fours.is_empty() {
        return 0;
    }
    let near = class.near(a.carrier) & class.near(b.carrier) & near_both(world, a, b);
    for c in rest {
        if near & c.mask != 0 {
            touch_four(world, class, rises, a, b, *c, by);
        }
    }
    rest.len().saturating_mul(world.fours.len())
}

#[inline]
fn touch_four(world: &World, class: &Class, rises: &mut [i32], a: Spot, b: Spot, c: Spot, by: i32) {
    let by = weight(by, a.locked && b.locked && c.locked);
    for pattern in world.fours.as_slice() {
        let most = width_four(world, class, pattern, a, b, c);
        mark(
            rises,
            pattern.coefs[0],
            form_of(pattern, a.at, b.at, c.at),
            most,
            by,
        );
    }
}

/// The carriers with which two placed ones are together.
pub fn near_both(world: &World, a: Spot, b: Spot) -> Mask {
    match world.class(a.carrier) {
        Some(class) => class.near(b.carrier),
        None => 0,
    }
}

/// What the other places of a pattern add to its form.
#[inline]
pub fn form_of(pattern: &Pattern, a: i64, b: i64, c: i64) -> i64 {
    let sum = pattern.coefs[1]
        .wrapping_mul(a)
        .wrapping_add(pattern.coefs[2].wrapping_mul(b));
    sum.wrapping_add(pattern.coefs[3].wrapping_mul(c))
}

/// How far one of a class and two carriers keep.
#[inline]
pub fn width_three(world: &World, class: &Class, pattern: &Pattern, a: Spot, b: Spot) -> i64 {
    match pattern.even {
        Some(even) => even,
        None => most_of(world, class, pattern, [a.carrier, b.carrier, b.carrier]),
    }
}

/// How far one of a class and three carriers keep.
#[inline]
pub fn width_four(
    world: &World,
    class: &Class,
    pattern: &Pattern,
    a: Spot,
    b: Spot,
    c: Spot,
) -> i64 {
    match pattern.even {
        Some(even) => even,
        None => most_of(world, class, pattern, [a.carrier, b.carrier, c.carrier]),
    }
}

fn most_of(world: &World, class: &Class, pattern: &Pattern, others: [usize; 3]) -> i64 {
    let place = pattern.place;
    let mut most = -1;
    if pattern.victims[0] {
        most = width(&class.widths, place);
    }
    if pattern.victims[1] {
        most = most.max(world.width(others[0], place));
    }
    if pattern.victims[2] {
        most = most.max(world.width(others[1], place));
    }
    if pattern.victims[3] {
        most = most.max(world.width(others[2], place));
    }
    most
}

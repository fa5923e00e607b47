//! A problem in classes of alike carriers over the cells of a grid.

ghost use Rattle.std.specs.Prelude.{◌<◌, length};

use crate::grid::Grid;
use crate::joins::Joins;
use crate::limits::MAX_CELLS;
use crate::pattern::{PLACES, Pattern, Widths, patterns, width};
use rf_base::NoMemory;
use rf_problem::Problem;
use rf_terms::{asks, kinds, place};
use rf_zones::Mask;
use std::alloc::Global;

/// Carriers that may take one another's place: the cells that they may have, how far they keep, with which carriers they are
/// together, and with which others of three.
#[derive(Drop)]
pub struct Class {
    pub first: usize,
    pub flags: Vec<bool>,
    pub widths: Widths,
    pub pairs: Mask,
    pub thirds: Vec<Mask>,
}

/// A problem in the form in which a plan is looked for.
#[derive(Drop)]
pub struct World {
    pub grid: Grid,
    pub carriers: usize,
    pub widths: Vec<Widths>,
    pub class_of: Vec<usize>,
    pub classes: Vec<Class>,
    pub threes: Vec<Pattern>,
    pub fours: Vec<Pattern>,
}

impl Class {
    /// The carriers with which one of these and another are together.
    #[inline]
    pub fn near(&self, carrier: usize) -> Mask {
        self.thirds.get(carrier).copied().unwrap_or(0)
    }
}

impl World {
    /// The form of a problem. None where it is too large to be looked into.
    pub fn of(alloc: Global, problem: &Problem) -> Result<Option<World>, NoMemory> {
        let grid = Grid::of(problem);
        let widths = all_widths(alloc, problem, grid)?;
        let threes = patterns(alloc, widths.as_slice(), 3)?;
        let fours = patterns(alloc, widths.as_slice(), 4)?;
        let mut world = World {
            grid,
            carriers: problem.carriers(),
            widths,
            class_of: Vec::new(alloc),
            classes: Vec::new(alloc),
            threes,
            fours,
        };
        let joins = Joins::of(alloc, problem)?;
        for carrier in 0..problem.carriers() {
            if !world.add(alloc, problem, &joins, carrier)? {
                return Ok(None);
            }
        }
        Ok(Some(world))
    }

    // Adds a carrier to its class. False where there would be too many cells.
    fn add(
        &mut self,
        alloc: Global,
        problem: &Problem,
        joins: &Joins,
        carrier: usize,
    ) -> Result<bool, NoMemory>
        requires { carrier < length problem.now.carriers }
    {
        let widths = widths_of(problem, self.grid, carrier);
        let known = self.class_with(problem, joins, carrier);
        if let Some(class) = known {
            self.class_of.push(class)?;
            self.join(joins, class, carrier);
            return Ok(true);
        }
        let count = self.classes.len();
        if count.wrapping_add(1).saturating_mul(self.grid.cells) > MAX_CELLS {
            return Ok(false);
        }
        let class = Class {
            first: carrier,
            flags: self.grid.flags(alloc, problem, carrier)?,
            widths,
            pairs: 0,
            thirds: Vec::from_elem(alloc, 0, self.carriers)?,
        };
        self.classes.push(class)?;
        self.class_of.push(count)?;
        self.join(joins, count, carrier);
        Ok(true)
    }

    // The class of a carrier, if one of its class is there.
    fn class_with(&self, problem: &Problem, joins: &Joins, carrier: usize) -> Option<usize>
        requires { carrier < length problem.now.carriers }
    {
        for n in 0..self.classes.len() {
            let first = self.classes[n].first;
            if first < problem.carriers()
                && are_alike(problem, first, carrier)
                && joins.are_alike(first, carrier)
            {
                return Some(n);
            }
        }
        None
    }

    // What a carrier is together with is so for its class.
    fn join(&mut self, joins: &Joins, class: usize, carrier: usize) {
        if let Some(class) = self.classes.get_mut(class) {
            class.pairs |= joins.pairs(carrier);
            for other in 0..class.thirds.len() {
                class.thirds[other] |= joins.thirds(carrier, other);
            }
        }
    }

    /// The class of a carrier.
    #[inline]
    pub fn class(&self, carrier: usize) -> Option<&Class> {
        self.classes.get(self.class_number(carrier))
    }

    /// The number of a carrier's class.
    #[inline]
    pub fn class_number(&self, carrier: usize) -> usize {
        self.class_of.get(carrier).copied().unwrap_or(0)
    }

    /// How far a carrier keeps from the forms of a margin, in cells.
    pub fn width(&self, carrier: usize, place: usize) -> i64 {
        match self.widths.get(carrier) {
            Some(widths) => width(widths, place),
            None => -1,
        }
    }

    /// The one cell of a carrier that has no other.
    pub fn locked_at(&self, carrier: usize) -> Option<usize> {
        let class = self.class(carrier)?;
        let mut cell = None;
        for n in 0..class.flags.len() {
            if class.flags[n] {
                if cell.is_some() {
                    return None;
                }
                cell = Some(n);
            }
        }
        cell
    }
}

// Whether two carriers have the same channels and ask the same.
fn are_alike(problem: &Problem, a: usize, b: usize) -> bool
    requires a { a < length problem.now.carriers }
    requires b { b < length problem.now.carriers }
{
    problem.freqs(a) == problem.freqs(b)
        && problem.flags(a) == problem.flags(b)
        && ask_alike(problem, a, b)
}

fn ask_alike(problem: &Problem, a: usize, b: usize) -> bool
    requires a { a < length problem.now.carriers }
    requires b { b < length problem.now.carriers }
{
    for kind in kinds() {
        if problem.asked(*kind, a) != problem.asked(*kind, b) {
            return false;
        }
    }
    true
}

// How far the carriers keep.
fn all_widths(alloc: Global, problem: &Problem, grid: Grid) -> Result<Vec<Widths>, NoMemory> {
    let mut widths = Vec::new(alloc);
    for carrier in 0..problem.carriers() {
        widths.push(widths_of(problem, grid, carrier))?;
    }
    Ok(widths)
}

fn widths_of(problem: &Problem, grid: Grid, carrier: usize) -> Widths
    requires { carrier < length problem.now.carriers }
{
    let mut widths = [-1; PLACES];
    for kind in kinds() {
        if let Some(width) = widths.get_mut(place(asks(*kind))) {
            *width = grid.width(problem.asked(*kind, carrier));
        }
    }
    widths
}

//! The grid of cells on which a plan is looked for, and how kilohertz become cells.

ghost use Rattle.std.specs.Prelude.{◌<◌, length};

use rf_base::NoMemory;
use rf_problem::Problem;
use std::alloc::Global;

/// The frequencies of a problem as cells: from `base` kilohertz on, each `unit` wide.
#[derive(Clone, Copy)]
pub struct Grid {
    pub base: u32,
    pub unit: u32,
    pub cells: usize,
}

impl Grid {
    /// The widest cells with which each frequency begins one.
    pub fn of(problem: &Problem) -> Grid {
        let (base, top) = band(problem);
        let unit = unit(problem, base).max(1);
        Grid {
            base,
            unit,
            cells: (top.saturating_sub(base) / unit) as usize + 1,
        }
    }

    /// The cell of a frequency.
    pub fn cell(&self, freq: u32) -> usize {
        (freq.saturating_sub(self.base) / self.unit.max(1)) as usize
    }

    /// How many cells lie within a margin without meeting it; below 0 where there is no margin.
    pub fn width(&self, margin: u32) -> i64 {
        if margin == 0 {
            return -1;
        }
        i64::from((margin - 1) / self.unit.max(1))
    }

    /// The cells that a carrier may have.
    pub fn flags(
        &self,
        alloc: Global,
        problem: &Problem,
        carrier: usize,
    ) -> Result<Vec<bool>, NoMemory>
        requires { carrier < length problem.now.carriers }
    {
        let mut flags = Vec::from_elem(alloc, false, self.cells)?;
        let allowed = problem.flags(carrier);
        for (freq, is) in problem.freqs(carrier).iter().zip(allowed) {
            if let Some(flag) = flags.get_mut(self.cell(*freq)) {
                *flag = *is;
            }
        }
        Ok(flags)
    }
}

// The least and the greatest frequency.
fn band(problem: &Problem) -> (u32, u32) {
    let mut least = u32::MAX;
    let mut greatest = 0;
    for carrier in 0..problem.carriers() {
        let freqs = problem.freqs(carrier);
        least = least.min(*freqs.first().unwrap_or(&least));
        greatest = greatest.max(*freqs.last().unwrap_or(&greatest));
    }
    (least, greatest)
}

// The greatest number that divides how far each frequency lies above the least.
fn unit(problem: &Problem, base: u32) -> u32 {
    let mut unit = 0;
    for carrier in 0..problem.carriers() {
        unit = unit_of(unit, base, problem.freqs(carrier));
    }
    unit
}

fn unit_of(unit: u32, base: u32, freqs: &[u32]) -> u32 {
    let mut unit = unit;
    for freq in freqs {
        unit = divisor(unit, freq.saturating_sub(base));
    }
    unit
}

/// The greatest common divisor.
pub fn divisor(a: u32, b: u32) -> u32 {
    let (mut a, mut b) = (a, b);
    for _ in 0..64 {
        if b == 0 {
            break;
        }
        (a, b) = (b, a % b);
    }
    a
}

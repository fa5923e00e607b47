//! Who is together with whom, in twos and threes, as masks.

ghost use Rattle.std.specs.Prelude.{◌<◌, length};

use rf_base::NoMemory;
use rf_problem::Problem;
use rf_zones::Mask;
use std::alloc::Global;

/// Which carriers are together: for each carrier those with which it is; and for each two the third ones.
#[derive(Drop)]
pub struct Joins {
    carriers: usize,
    pairs: Vec<Mask>,
    threes: Vec<Mask>,
}

/// The mask of one carrier.
#[inline]
pub fn bit(carrier: usize) -> Mask {
    if carrier < 128 { 1 << carrier } else { 0 }
}

impl Joins {
    /// Which carriers of a problem are together.
    pub fn of(alloc: Global, problem: &Problem) -> Result<Joins, NoMemory> {
        let carriers = problem.carriers();
        let mut joins = Joins {
            carriers,
            pairs: Vec::from_elem(alloc, 0, carriers)?,
            threes: Vec::from_elem(alloc, 0, carriers.wrapping_mul(carriers))?,
        };
        for a in 0..carriers {
            for b in 0..a {
                joins.add(problem, a, b);
            }
        }
        Ok(joins)
    }

    fn add(&mut self, problem: &Problem, a: usize, b: usize)
        requires a { a < length problem.now.carriers }
        requires b { b < a }
    {
        if !problem.together_of(&[a, b]) {
            return;
        }
        self.join(a, b);
        self.join(b, a);
        for c in 0..b {
            if problem.together_of(&[a, b, c]) {
                self.join_three(a, b, c);
                self.join_three(b, c, a);
                self.join_three(c, a, b);
            }
        }
    }

    fn join(&mut self, a: usize, b: usize) {
        if let Some(mask) = self.pairs.get_mut(a) {
            *mask |= bit(b);
        }
    }

    fn join_three(&mut self, a: usize, b: usize, c: usize) {
        self.join_third(a, b, c);
        self.join_third(b, a, c);
    }

    fn join_third(&mut self, a: usize, b: usize, c: usize) {
        let at = self.place(a, b);
        if let Some(mask) = self.threes.get_mut(at) {
            *mask |= bit(c);
        }
    }

    fn place(&self, a: usize, b: usize) -> usize {
        a.wrapping_mul(self.carriers).wrapping_add(b)
    }

    /// Those with which a carrier is together.
    pub fn pairs(&self, a: usize) -> Mask {
        self.pairs.get(a).copied().unwrap_or(0)
    }

    /// Those with which two carriers are together.
    pub fn thirds(&self, a: usize, b: usize) -> Mask {
        self.threes.get(self.place(a, b)).copied().unwrap_or(0)
    }

    /// Whether two carriers are together with the same others.
    pub fn are_alike(&self, a: usize, b: usize) -> bool {
        let others = !(bit(a) | bit(b));
        if self.pairs(a) & others != self.pairs(b) & others {
            return false;
        }
        for c in 0..self.carriers {
            if c != a && c != b && self.thirds(a, c) & others != self.thirds(b, c) & others {
                return false;
            }
        }
        true
    }
}

//! Whoever decides by a search.

use crate::decide::{Decide, Decision};
use crate::log_memory::solved;
use rf_base::NoMemory;
use rf_show::Show;
use std::alloc::Global;

/// Decides shows by a search of its own for each, whose log is kept in memory.
#[derive(Drop)]
pub struct Solver {
    alloc: Global,
}

impl Solver {
    /// One that takes its memory from here.
    pub fn new(alloc: Global) -> Solver {
        Solver { alloc }
    }
}

impl Decide for Solver {
    ghost asked = { λ old show new. Unit {0} };

    fn decide(&mut self, show: &Show, budget: u32) -> Result<Decision, NoMemory> {
        solved(self.alloc, show, budget)
    }
}

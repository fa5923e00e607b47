//! Drawn numbers that come out the same in each run.

/// A fixed row of numbers that look as if they were drawn.
#[derive(Clone, Copy)]
pub struct Draws {
    state: u64,
}

impl Draws {
    /// The row from its beginning.
    pub fn new() -> Draws {
        Draws {
            state: 88_172_645_463_325_252,
        }
    }

    /// The next number, below `bound`, which counts as 1 where it is 0.
    pub fn below(&mut self, bound: usize) -> usize {
        let mut x = self.state;
        x ^= x << 13;
        x ^= x >> 7;
        x ^= x << 17;
        self.state = x;
        (x >> 11) as usize % bound.max(1)
    }
}

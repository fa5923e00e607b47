//! Marks on frequencies, made by intervals of them.

ghost use Rattle.std.specs.Prelude.{◌≡◌, ◌<◌, ◌≤◌, ◌+◌, ◌&&◌, ℕ, IfOk, false, length, nat_le, nat_lt};
ghost use Rattle.rf_spares.specs.Markings.{Gains, IsReach, Spans, is_marked};

use rf_base::NoMemory;
use std::alloc::Global;

/// Marks on the frequencies from `low` on, in kilohertz: for each frequency the greatest end, which is not marked itself, of
/// the intervals that begin there, and 0 where none does.
#[derive(Drop)]
pub struct Marks {
    pub low: u32,
    pub ends: Vec<u32>,
}

impl Marks {
    /// No marks, for so many frequencies from `low` on.
    pub fn none(alloc: Global, low: u32, count: u32) -> Result<Marks, NoMemory>
        ensures low { IfOk result (λ marks. marks.low ≡ low) }
        ensures size { IfOk result (λ marks. length marks.ends.items ≡ count) }
        ensures none { IfOk result (λ marks. (f : ℕ) → is_marked marks f ≡ false) }
    {
        let mut ends = Vec::with_capacity(alloc, count as usize)?;
        for k in 0..count {
            ends.push(0)?;
        }
        Ok(Marks { low, ends })
    }

    /// Marks the frequencies from `lo` up to and without `hi`.
    pub fn mark(&mut self, lo: u32, hi: u32)
        ensures { Gains self.old self.new (λ f. nat_le lo f && nat_lt f hi) }
    {
        let start = lo.max(self.low);
        let place = (start - self.low) as usize;
        if place >= self.ends.len() {
            return;
        }
        self.ends[place] = self.ends[place].max(hi);
    }

    /// The greatest end of the intervals that begin at places below `to`, where `reach` is that of those below `from`.
    pub fn reach(&self, reach: u32, from: usize, to: usize) -> u32
        requires order { from ≤ to }
        requires within { to ≤ length self.now.ends.items }
        requires reached { IsReach self.now from reach }
        ensures { IsReach self.now to result }
    {
        let mut reach = reach;
        for place in from..to {
            reach = reach.max(self.ends[place]);
        }
        reach
    }
}

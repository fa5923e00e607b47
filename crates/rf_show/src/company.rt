//! Masks of the carriers that may be together and that are on together.

ghost use Rattle.std.specs.Prelude.{◌≡◌, ◌<◌, ℕ, List, IfOk, length, map, take};
ghost use Rattle.std.specs.List.{list_any};
ghost use Rattle.rf_zones.specs.Masks.{has_bit, has_bits};
ghost use Rattle.rf_zones.specs.Slices.{share_minute};
ghost use Rattle.rf_show.specs.Company.{MeetingIsMutual};
ghost use Rattle.rf_show.specs.Query.{meet_at};

use crate::show::Show;
use rf_base::NoMemory;
use rf_zones::{Mask, Slices, Times, coupling_is_mutual, mask};
use std::alloc::Global;

impl Show {
    /// The carriers that may be together with a carrier in a set of so many, itself among them.
    pub fn meeters(&self, size: usize, carrier: usize) -> Mask
        requires { carrier < length self.now.carriers }
        ensures { (b : ℕ) → b < length self.now.carriers → has_bit result b ≡ meet_at size self.now.zones self.now.carriers carrier b }
    {
        let mut meeters = mask::none();
        for b in 0..self.carriers().len() {
            if !self.meet(size, carrier, b) {
                continue;
            }
            meeters = mask::with(meeters, b);
        }
        meeters
    }

    /// Masks of the carriers that are on in a minute: carriers have a common minute exactly where one mask has all their
    /// bits. `NoMemory` where no memory is found.
    pub fn slices(&self, alloc: Global) -> Result<Slices, NoMemory>
        ensures { IfOk result (λ masks. (set : List ℕ) → list_any (has_bits set) masks ≡ share_minute (map (λ c. c.times) self.now.carriers) set) }
    {
        let times = self.times();
        Slices::of(alloc, &times[..self.carriers().len()])
    }

    // When the carriers are on, and what fills the room behind them.
    fn times(&self) -> [Times; Show::MAX_CARRIERS]
        ensures { take (length self.now.carriers) result ≡ map (λ c. c.times) self.now.carriers }
    {
        let mut times = [Times::new(); Show::MAX_CARRIERS];
        for (i, carrier) in self.carriers().iter().enumerate() {
            times[i] = carrier.times;
        }
        times
    }
}

/// In a set of any size, two carriers may be together in either order, and each with itself.
pub fn meeting_is_mutual()
    ensures { MeetingIsMutual }
{
    coupling_is_mutual();
}

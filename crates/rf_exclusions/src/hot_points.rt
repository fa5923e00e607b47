//! The hot points of a scan, in order.

ghost use Rattle.std.specs.Prelude.{◌≡◌, IfOk};
ghost use Rattle.std.specs.List.Sorted.{IsStrictlyIncreasing};

use rf_base::NoMemory;
use std::alloc::Global;
use std::marker::Model;

/// Frequencies in millihertz, rising and distinct, at which a scan met or passed its threshold.
#[derive(Drop)]
pub struct HotPoints {
    points: Vec<u64>,
}

impl Model for HotPoints {
    ghost use Rattle.std.specs.Prelude.{ℕ, List};
    ghost use Rattle.std.specs.List.Sorted.{IsStrictlyIncreasing};

    ghost Value = { List ℕ };

    ghost view = { λ h. h.points.items };

    ghost invariant = { λ h. IsStrictlyIncreasing h.points.items };
}

impl HotPoints {
    /// The points of a list that rises.
    pub fn from_vec(points: Vec<u64>) -> HotPoints
        requires { IsStrictlyIncreasing points.items }
        ensures { result ≡ points.items }
    {
        HotPoints { points }
    }

    /// The points.
    pub fn as_slice(&self) -> &[u64]
        ensures value { result.now ≡ self.now }
        ensures rising { IsStrictlyIncreasing self.now }
    {
        self.points.as_slice()
    }

    /// The same points again. `NoMemory` where no memory is found.
    pub fn copy(&self, alloc: Global) -> Result<HotPoints, NoMemory>
        ensures { IfOk result (λ points. points ≡ self.now) }
    {
        let points = self.as_slice().to_vec(alloc)?;
        Ok(HotPoints { points })
    }
}

//! How two zones stand to each other.

ghost use Rattle.std.specs.Prelude.{◌≡◌};
ghost use Rattle.rf_zones.specs.Couplings.{joins};

/// How two zones stand to each other.
#[derive(Clone, Copy, PartialEq, Eq)]
pub enum Coupling {
    /// Carriers in the two zones have nothing to do with each other.
    Apart,
    /// Carriers in the two zones hear each other: they keep their spacing, and make products together.
    Coupled,
    /// Carriers in the two zones keep their spacing, and are in no product together.
    Far,
}

impl Coupling {
    /// Whether carriers in zones that stand so to each other may be together in a set of `size` carriers. Zones that are
    /// coupled far count for two carriers, and not for more.
    pub fn joins(self, size: usize) -> bool
        ensures { result ≡ joins size self }
    {
        match self {
            Coupling::Apart => false,
            Coupling::Coupled => true,
            Coupling::Far => size <= 2,
        }
    }
}

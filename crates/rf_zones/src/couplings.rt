//! How pairs of zones are coupled, in a table that holds each pair once.

ghost use Rattle.std.specs.Prelude.{◌≡◌, ◌<◌, ◌≤◌, ◌+◌, ◌-◌, [], ◌++◌, length, take, drop, replicate, slice_set, slice_index_or, true};
ghost use Rattle.std.specs.List.{list_all};
ghost use Rattle.rf_zones.specs.Couplings.{is_apart};
ghost use Rattle.rf_zones.specs.declared.coupling.Coupling.TheVariants.{Apart};

use crate::coupling::Coupling;
use std::marker::Model;

/// How many pairs of zones there may be: those of `MAX_ZONES` zones.
pub const MAX_PAIRS: usize = 496;

/// At most `MAX_PAIRS` couplings, in order.
#[derive(Clone, Copy, PartialEq, Eq)]
pub struct Couplings {
    couplings: [Coupling; MAX_PAIRS],
    len: u16,
}

impl Model for Couplings {
    ghost use Rattle.std.specs.Prelude.{◌≡◌, ◌≤◌, List, length, take};
    ghost use Rattle.rf_zones.specs.Couplings.{filled};
    ghost use Rattle.rf_zones.specs.declared.coupling.Coupling.{Coupling};
    ghost use Rattle.rf_zones.specs.declared.couplings.TheConstants.{MAX_PAIRS};

    ghost Value = { List Coupling };

    ghost view = { λ c. take c.len c.couplings };

    ghost invariant = { λ c. (filled (take c.len c.couplings) ≡ c.couplings) × (length (take c.len c.couplings) ≡ c.len) × (c.len ≤ MAX_PAIRS) };

    ghost inverse = { λ couplings. record { couplings = filled couplings; len = length couplings } };
}

impl Couplings {
    /// No pair.
    pub fn none() -> Couplings
        ensures { result ≡ [] }
    {
        Couplings {
            couplings: [Coupling::Apart; MAX_PAIRS],
            len: 0,
        }
    }

    /// The coupling at a place.
    pub fn at(&self, place: u16) -> Coupling
        requires { place < length self.now }
        ensures { result ≡ slice_index_or self.now place Apart }
    {
        self.couplings[place as usize]
    }

    /// Changes the coupling at a place.
    pub fn set(&mut self, place: u16, coupling: Coupling)
        requires { place < length self.old }
        ensures { self.new ≡ slice_set self.old place coupling }
    {
        self.couplings[place as usize] = coupling;
    }

    /// Adds pairs at the end that are apart.
    pub fn grow(&mut self, more: u16)
        requires { length self.old + more ≤ MAX_PAIRS }
        ensures { self.new ≡ self.old ++ replicate more Apart }
    {
        self.len += more;
    }

    /// Takes pairs away at the end, which are apart.
    pub fn shrink(&mut self, fewer: u16)
        requires within { fewer ≤ length self.old }
        requires apart { list_all is_apart (drop (length self.old - fewer) self.old) ≡ true }
        ensures { self.new ≡ take (length self.old - fewer) self.old }
    {
        self.len -= fewer;
    }
}

//! The names of zones, the main zone first.

ghost use Rattle.std.specs.Prelude.{◌≡◌, ◌<◌, ◌≤◌, [], ◌∷◌, ◌++◌, ◌-◌, length, take};
ghost use Rattle.rf_zones.specs.ZoneNames.{main_zone};

use rf_base::Name;
use std::marker::Model;

/// How many zones there may be.
pub const MAX_ZONES: usize = 32;

/// At most `MAX_ZONES` names, in order.
#[derive(Clone, Copy, PartialEq, Eq)]
pub struct ZoneNames {
    names: [Name; MAX_ZONES],
    len: u8,
}

impl Model for ZoneNames {
    ghost use Rattle.std.specs.Prelude.{◌≡◌, ◌≤◌, ℕ, List, length, take};
    ghost use Rattle.rf_zones.specs.ZoneNames.{filled};
    ghost use Rattle.rf_zones.specs.declared.zone_names.TheConstants.{MAX_ZONES};

    ghost Value = { List (List ℕ) };

    ghost view = { λ z. take z.len z.names };

    ghost invariant = { λ z. (filled (take z.len z.names) ≡ z.names) × (length (take z.len z.names) ≡ z.len) × (z.len ≤ MAX_ZONES) };

    ghost inverse = { λ names. record { names = filled names; len = length names } };
}

impl ZoneNames {
    /// The name `main` alone.
    pub fn of_main() -> ZoneNames
        ensures { result ≡ main_zone ∷ [] }
    {
        ZoneNames {
            names: [main_zone(); MAX_ZONES],
            len: 1,
        }
    }

    /// The names.
    pub fn list(&self) -> &[Name]
        ensures value { result.now ≡ self.now }
        ensures few { length self.now ≤ MAX_ZONES }
    {
        &self.names[..self.len as usize]
    }

    /// Adds a name at the end.
    pub fn push(&mut self, name: Name)
        requires { length self.old < MAX_ZONES }
        ensures { self.new ≡ self.old ++ name ∷ [] }
    {
        self.names[self.len as usize] = name;
        self.len += 1;
    }

    /// Takes the last name away.
    pub fn pop(&mut self) -> Name
        requires { 0 < length self.old }
        ensures { self.old ≡ self.new ++ result ∷ [] }
    {
        self.len -= 1;
        let last = self.names[self.len as usize];
        self.names[self.len as usize] = main_zone();
        last
    }
}

fn main_zone() -> Name
    ensures { result ≡ main_zone }
{
    Name::read(b"main").unwrap()
}

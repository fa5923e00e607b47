//! The intervals of the week in which a carrier is on.

ghost use Rattle.std.specs.Prelude.{◌≡◌, ◌<◌, ◌≤◌, [], ◌∷◌, ◌++◌, length};
ghost use Rattle.std.specs.List.{list_any};
ghost use Rattle.rf_zones.specs.Times.{IsTimes, is_on};
ghost use Rattle.rf_zones.specs.Times as times;

use std::marker::Model;

/// When a carrier is on: at most eight intervals of minutes of the week, in the order in which they were added. Without
/// intervals it is always on.
#[derive(Clone, Copy)]
pub struct Times {
    intervals: [(u16, u16); 8],
    len: u8,
}

impl Model for Times {
    ghost use Rattle.std.specs.Prelude.{◌≡◌, ℕ, List, length, take};
    ghost use Rattle.rf_zones.specs.Times.{IsTimes, filled};

    ghost Value = { List (ℕ × ℕ) };

    ghost view = { λ t. take t.len t.intervals };

    ghost invariant = { λ t. IsTimes (take t.len t.intervals) × (filled (take t.len t.intervals) ≡ t.intervals) × (length (take t.len t.intervals) ≡ t.len) };

    ghost inverse = { λ times. record { intervals = filled times; len = length times } };
}

impl Times {
    /// How many minutes a week has.
    pub const WEEK: u16 = 10_080;

    /// How many intervals there may be.
    pub const MAX: usize = 8;

    /// Always on.
    pub fn new() -> Times
        ensures { result ≡ [] }
    {
        Times {
            intervals: [(0, 0); 8],
            len: 0,
        }
    }

    /// Adds the minutes from `from` up to and without `to`.
    pub fn add(&mut self, from: u16, to: u16)
        requires rises { from < to }
        requires within { to ≤ 10080 }
        requires room { length self.old < 8 }
        ensures { self.new ≡ self.old ++ (from, to) ∷ [] }
    {
        self.intervals[self.len as usize] = (from, to);
        self.len += 1;
    }

    /// The intervals.
    pub fn list(&self) -> &[(u16, u16)]
        ensures value { result.now ≡ self.now }
        ensures form { IsTimes self.now }
    {
        &self.intervals[..self.len as usize]
    }

    /// Whether the carrier is on in a minute, below 10,080.
    pub fn on(&self, minute: u16) -> bool
        requires { minute < 10080 }
        ensures { result ≡ is_on self.now minute }
    {
        let list = self.list();
        list.is_empty() || any_holds(list, minute)
    }
}

fn any_holds(list: &[(u16, u16)], minute: u16) -> bool
    ensures { result ≡ list_any (times.holds minute) list.now }
{
    list.iter().any(|i| i.0 <= minute && minute < i.1)
}

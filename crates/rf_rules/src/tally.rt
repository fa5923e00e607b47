//! The front of a long list, with the count of the whole.

ghost use Rattle.std.specs.Prelude.{◌≡◌, ◌+◌, ◌-◌, min, ◌≤◌, ◌<◌, ◌^◌, ◌∷◌, ◌++◌, [], OnOk, vec_len, IsTrue, ◌↔◌};

use crate::conflict::Conflict;
use rf_base::NoMemory;
use std::alloc::Global;

/// The front of a list of conflicts, how many it has so far, and of how many products the values were computed to find them.
#[derive(Drop)]
pub struct Tally {
    pub shown: Vec<Conflict>,
    pub total: u64,
    pub evaluated: u64,
    ghost within: { vec_len shown ≤ 10000 },
    ghost counted: { total < 2 ^ 64 },
}

impl Tally {
    ghost use Rattle.rf_rules.specs.Tallies.{Extends, IsEmpty, shown_of};
    ghost use Rattle.rf_rules.specs.declared.conflict.Conflict.{Conflict};

    /// How many are shown.
    pub const MAX_SHOWN: usize = 10_000;

    pub fn new(alloc: Global) -> Tally
        ensures { IsEmpty result }
    {
        Tally {
            shown: Vec::new(alloc),
            total: 0,
            evaluated: 0,
        }
    }

    pub fn add(&mut self, conflict: Conflict) -> Result<(), NoMemory>
        ensures { OnOk result (Extends self.old self.new (conflict ∷ [])) }
    {
        Self::show(&mut self.shown, conflict)?;
        self.total = self.total.saturating_add(1);
        Ok(())
    }

    pub fn is_full(&self) -> bool
        ensures { IsTrue result ↔ (vec_len self.now.shown ≡ 10000) }
    {
        self.shown.len() == Tally::MAX_SHOWN
    }

    /// Counts a conflict that isn't shown.
    pub fn count(&mut self)
        requires { vec_len self.old.shown ≡ 10000 }
        ensures { (conflict : Conflict) → Extends self.old self.new (conflict ∷ []) }
    {
        self.total = self.total.saturating_add(1);
    }

    /// Counts conflicts more, which aren't shown.
    pub fn count_more(&mut self, more: u64)
        ensures shown { self.new.shown.items ≡ self.old.shown.items }
        ensures total { self.new.total ≡ min (self.old.total + more) (2 ^ 64 - 1) }
    {
        self.total = self.total.saturating_add(more);
    }

    /// Counts products whose values are computed.
    pub fn count_products(&mut self, more: u64)
        ensures shown { self.new.shown.items ≡ self.old.shown.items }
        ensures total { self.new.total ≡ self.old.total }
        ensures evaluated { self.new.evaluated ≡ min (self.old.evaluated + more) (2 ^ 64 - 1) }
    {
        self.evaluated = self.evaluated.saturating_add(more);
    }

    fn show(shown: &mut Vec<Conflict>, conflict: Conflict) -> Result<(), NoMemory>
        requires { vec_len shown.old ≤ 10000 }
        ensures within { vec_len shown.new ≤ 10000 }
        ensures shown { OnOk result (shown.new.items ≡ shown_of (shown.old.items ++ conflict ∷ [])) }
    {
        if shown.len() >= Tally::MAX_SHOWN {
            return Ok(());
        }
        shown.push(conflict)?;
        Ok(())
    }
}

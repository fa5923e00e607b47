//! Numbers for the names that a log speaks of.

ghost use Rattle.std.specs.Prelude.{◌≡◌, ◌<◌, [], length, IfOk, OnOk};
ghost use Rattle.rf_log.specs.Names as spec;

use indexmap::IndexSet;
use rf_base::{Name, NoMemory};
use std::alloc::Global;
use std::marker::Model;

/// The names of a log, numbered from 0 in the order in which they first appear. Contracts see the list.
#[derive(Drop)]
pub struct Names {
    set: IndexSet<Name>,
}

impl Model for Names {
    ghost use Rattle.std.specs.Prelude.{◌<◌, ℕ, List, length};

    ghost Value = { List (List ℕ) };

    ghost view = { λ names. names.set.keys };

    ghost invariant = { λ names. length names.set.keys < 4294967296 };
}

impl Names {
    /// No names yet.
    pub(crate) fn new(alloc: Global) -> Names
        ensures { result ≡ [] }
    {
        Names {
            set: IndexSet::new(alloc),
        }
    }

    /// The number of a name, which joins the names where it is new. `NoMemory` also where there are as many names as
    /// numbers of 32 bits count.
    pub(crate) fn number(&mut self, name: Name) -> Result<u32, NoMemory>
        ensures number { IfOk result (λ number. number ≡ spec.number_of_name self.old name) }
        ensures names { OnOk result (self.new ≡ spec.names_with self.old name) }
    {
        if self.set.len() >= u32::MAX as usize {
            return Err(NoMemory);
        }
        let (number, _) = self.set.insert_full(name)?;
        Ok(number as u32)
    }

    /// The names in the order of their numbers.
    pub fn as_slice(&self) -> &[Name]
        ensures names { result.now ≡ self.now }
        ensures few { length self.now < 4294967296 }
    {
        self.set.as_slice()
    }
}

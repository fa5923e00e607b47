//! Short lists of conditions, kept in place.

ghost use Rattle.std.specs.Prelude.{◌≡◌, [], ◌∷◌, ◌++◌, OnOk, OnErr};

use crate::cond::Cond;
use rf_base::NoMemory;
use smallvec::SmallVec;
use std::alloc::Global;
use std::marker::Model;

/// Conditions, up to eight of them without an allocation. Contracts see the list.
#[derive(Drop)]
pub struct Conds {
    items: SmallVec<Cond, 8>,
}

impl Model for Conds {
    ghost use Rattle.std.specs.Prelude.{List};
    ghost use Rattle.rf_log.specs.declared.cond.Cond.{Cond};

    ghost Value = { List Cond };

    ghost view = { λ c. c.items.items };
}

impl Conds {
    /// No conditions yet.
    pub fn new(alloc: Global) -> Conds
        ensures { result ≡ [] }
    {
        Conds {
            items: SmallVec::new(alloc),
        }
    }

    /// Adds a condition at the end. `NoMemory` where no memory is found, which leaves them unchanged.
    pub fn push(&mut self, cond: Cond) -> Result<(), NoMemory>
        ensures ok { OnOk result (self.new ≡ self.old ++ cond ∷ []) }
        ensures err { OnErr result (self.new ≡ self.old) }
    {
        self.items.push(cond)?;
        Ok(())
    }

    /// The conditions in their order.
    pub fn as_slice(&self) -> &[Cond]
        ensures { result.now ≡ self.now }
    {
        self.items.as_slice()
    }
}

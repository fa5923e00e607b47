//! Where an audit stands on a path: what the path's decisions leave, and who is fixed by them.

ghost use Rattle.std.specs.Prelude.{◌≡◌, ℕ, ◌<◌, List, ◌∷◌, [], reverse, length, IfOk};
ghost use Rattle.rf_log.specs.declared.cond.Cond.{Cond as CondData};
ghost use Rattle.rf_show.specs.Case.{case_of};
ghost use Rattle.rf_audit.specs.Left.{AreSized, IsLeft};
ghost use Rattle.rf_audit.specs.Tables.{IsTable};

use crate::marks::Marks;
use crate::table::Table;
use rf_base::NoMemory;
use rf_log::Cond;
use rf_show::Show;
use std::alloc::Global;

/// What a path leaves to the carriers: their indices, and at which index a carrier was found fixed.
#[derive(Drop)]
pub(crate) struct Left {
    pub(crate) sets: Vec<Marks>,
    pub(crate) fixed: Vec<Option<usize>>,
}

impl Left {
    /// All that is allowed.
    pub(crate) fn start(alloc: Global, show: &Show, table: &Table) -> Result<Left, NoMemory>
        requires table { IsTable (case_of show.now) table.now.rows.items table.now.leaders.items }
        ensures { IfOk result (λ left. IsLeft (case_of show.now) [] left.fixed.items left.sets.items) }
    {
        let mut sets = Vec::new(alloc);
        let mut fixed = Vec::new(alloc);
        for row in &table.rows {
            sets.push(row.allowed.copy(alloc)?)?;
            fixed.push(None)?;
        }
        Ok(Left { sets, fixed })
    }

    /// What is left under a path, with its first decision first.
    pub(crate) fn under(
        alloc: Global,
        show: &Show,
        table: &Table,
        path: &[Cond],
    ) -> Result<Left, NoMemory>
        requires table { IsTable (case_of show.now) table.now.rows.items table.now.leaders.items }
        ensures { IfOk result (λ left. IsLeft (case_of show.now) (reverse path.now) left.fixed.items left.sets.items) }
    {
        let mut left = Left::start(alloc, show, table)?;
        for cond in path {
            left.narrow(show, cond);
        }
        Ok(left)
    }

    /// One decision more.
    pub(crate) fn narrow(&mut self, show: &Show, cond: &Cond)
        requires sized { AreSized (case_of show.now) self.old.sets.items }
        ensures { (path : List CondData) → IsLeft (case_of show.now) path self.old.fixed.items self.old.sets.items →
            IsLeft (case_of show.now) (cond.now ∷ path) self.new.fixed.items self.new.sets.items }
    {
        let carrier = cond.carrier as usize;
        if carrier < self.sets.len() {
            self.sets[carrier].narrow(cond);
        }
    }
}

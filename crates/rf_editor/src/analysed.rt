//! A show together with its analysis, which each edit keeps up.

ghost use Rattle.std.specs.Prelude.{◌≡◌, IfOk, IfErr, OnErr, IsSome, IsTrue, Ok, Err, Some};
ghost use Rattle.rf_rules.specs.Analyses.{analysed};
ghost use Rattle.rf_rules.specs.Products.{listed};
ghost use Rattle.rf_show.specs.After.{after, is_edit};
ghost use Rattle.rf_show.specs.Show.{first_show};
ghost use Rattle.rf_show.specs.Taken.{taken};
ghost use Rattle.rf_show.specs.declared.refusal.Refusal.{Refusal};

use rf_base::{Khz, NoMemory};
use rf_rules::{Analysis, Products};
use rf_show::{Edit, Refusal, Show, Undo};
use rf_table::Table;
use std::alloc::Global;
use std::marker::Model;

/// Why an edit isn't made.
#[derive(Drop)]
pub enum EditFault {
    /// The show refuses it.
    Refused(Refusal),
    /// No memory was found.
    Memory,
}

/// A show, and a table that stands for it.
#[derive(Drop)]
pub(crate) struct AnalysedShow {
    show: Show,
    table: Table,
}

impl Model for AnalysedShow {
    ghost use Rattle.rf_show.specs.Show.{ShowData};
    ghost use Rattle.rf_table.specs.Tables.{StandsFor};

    ghost Value = { ShowData };

    ghost view = { λ a. a.show };

    ghost invariant = { λ a. StandsFor a.table a.show };
}

impl AnalysedShow {
    /// The show with the zone `main` alone.
    pub(crate) fn new(alloc: Global) -> Result<AnalysedShow, NoMemory>
        ensures { IfOk result (λ show. show ≡ first_show) }
    {
        let show = Show::new(alloc)?;
        let table = Table::of(alloc, &show)?;
        Ok(AnalysedShow { show, table })
    }

    /// Makes an edit, and answers what leads back. A refusal and want of memory change nothing.
    pub(crate) fn apply(&mut self, edit: Edit) -> Result<Undo, EditFault>
        requires { IsTrue (is_edit edit) }
        ensures after { IfOk result (λ _. after self.old edit ≡ Ok self.new) }
        ensures undo { IfOk result (λ undo. taken self.new undo ≡ Some self.old) }
        ensures refused { (reason : Refusal) → result ≡ Err (EditFault.Refused reason) → after self.old edit ≡ Err reason }
        ensures unchanged { OnErr result (self.new ≡ self.old) }
    {
        match self.show.apply(edit) {
            Err(reason) => Err(EditFault::Refused(reason)),
            Ok(undo) => match self.table.change(&self.show) {
                Ok(()) => Ok(undo),
                Err(NoMemory) => {
                    let _ = self.show.back(undo);
                    Err(EditFault::Memory)
                }
            },
        }
    }

    /// Goes to the show to which an undo value leads, and answers what leads back from there. After want of memory nothing
    /// has changed, and the answer leads where the undo value led.
    pub(crate) fn back(&mut self, undo: Undo) -> Result<Undo, Undo>
        requires { IsSome (taken self.old undo) }
        ensures there { IfOk result (λ _. taken self.old undo ≡ Some self.new) }
        ensures forth { IfOk result (λ undo. taken self.new undo ≡ Some self.old) }
        ensures unchanged { OnErr result (self.new ≡ self.old) }
        ensures kept { IfErr result (λ same. taken self.old same ≡ taken self.old undo) }
    {
        let forth = self.show.back(undo);
        match self.table.change(&self.show) {
            Ok(()) => Ok(forth),
            Err(NoMemory) => Err(self.show.back(forth)),
        }
    }

    pub(crate) fn show(&self) -> &Show
        ensures { result.now ≡ self.now }
    {
        &self.show
    }

    pub(crate) fn analysis(&self) -> &Analysis
        ensures { result.now ≡ analysed self.now }
    {
        self.table.conflicts()
    }

    pub(crate) fn products(&self, lo: Khz, hi: Khz) -> Result<Products, NoMemory>
        ensures { IfOk result (λ found. found ≡ listed self.now lo hi) }
    {
        self.table.products(lo, hi)
    }
}

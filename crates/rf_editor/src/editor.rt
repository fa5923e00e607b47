//! The editor: a show, and the way back and forth through its history.

ghost use Rattle.std.specs.Prelude.{◌≡◌, ◌↔◌, IfOk, IsTrue, OnOk, OnErr, Ok, Err, Some, None};
ghost use Rattle.rf_rules.specs.Analyses.{analysed};
ghost use Rattle.rf_rules.specs.Products.{listed};
ghost use Rattle.rf_show.specs.After.{is_edit};
ghost use Rattle.rf_show.specs.declared.refusal.Refusal.{Refusal};
ghost use Rattle.rf_editor.specs.History.{first_history, edited_history, undone, redone};

use crate::analysed::{AnalysedShow, EditFault};
use crate::walk::{StepFault, push, walk};
use rf_base::{Khz, NoMemory};
use rf_rules::{Analysis, Products};
use rf_show::{Edit, Show, Undo};
use std::alloc::Global;
use std::marker::Model;

/// A show that can be edited, and its history: the shows before and after it, kept as edits that lead there.
#[derive(Drop)]
pub struct Editor {
    show: AnalysedShow,
    earlier: Vec<Undo>,
    later: Vec<Undo>,
}

impl Model for Editor {
    ghost use Rattle.rf_editor.specs.History.{History};
    ghost use Rattle.rf_editor.specs.Trail.{stack_trail, StackLeads};

    ghost Value = { History };

    ghost view = { λ e. record { earlier = stack_trail e.earlier.items e.show; show = e.show; later = stack_trail e.later.items e.show } };

    ghost invariant = { λ e. StackLeads e.earlier.items e.show × StackLeads e.later.items e.show };
}

impl Editor {
    /// The editor of the show with the zone `main` alone, without earlier and later shows.
    pub fn new(alloc: Global) -> Result<Editor, NoMemory>
        ensures { IfOk result (λ editor. editor ≡ first_history) }
    {
        Ok(Editor {
            show: AnalysedShow::new(alloc)?,
            earlier: Vec::new(alloc),
            later: Vec::new(alloc),
        })
    }

    /// Makes an edit: the show becomes the last earlier one, and there is no later one. It is refused exactly as the show
    /// says. A refusal and want of memory leave the history unchanged.
    pub fn apply(&mut self, edit: Edit) -> Result<(), EditFault>
        requires { IsTrue (is_edit edit) }
        ensures ok { OnOk result (edited_history self.old edit ≡ Ok self.new) }
        ensures refused { (reason : Refusal) → result ≡ Err (EditFault.Refused reason) → edited_history self.old edit ≡ Err reason }
        ensures err { OnErr result (self.new ≡ self.old) }
    {
        if self.earlier.reserve(1).is_err() {
            return Err(EditFault::Memory);
        }
        match self.show.apply(edit) {
            Ok(undo) => {
                push(&mut self.earlier, undo);
                self.later.clear();
                Ok(())
            }
            Err(fault) => Err(fault),
        }
    }

    /// Goes back to the last earlier show. It answers `Nothing` exactly where there is none. `Nothing` and want of memory
    /// leave the history unchanged.
    pub fn undo(&mut self) -> Result<(), StepFault>
        ensures ok { OnOk result (undone self.old ≡ Some self.new) }
        ensures nothing { (result ≡ Err StepFault.Nothing) ↔ (undone self.old ≡ None) }
        ensures err { OnErr result (self.new ≡ self.old) }
    {
        walk(&mut self.show, &mut self.earlier, &mut self.later)
    }

    /// Goes forth to the next later show. It answers `Nothing` exactly where there is none. `Nothing` and want of memory
    /// leave the history unchanged.
    pub fn redo(&mut self) -> Result<(), StepFault>
        ensures ok { OnOk result (redone self.old ≡ Some self.new) }
        ensures nothing { (result ≡ Err StepFault.Nothing) ↔ (redone self.old ≡ None) }
        ensures err { OnErr result (self.new ≡ self.old) }
    {
        walk(&mut self.show, &mut self.later, &mut self.earlier)
    }

    /// The show as it stands.
    pub fn show(&self) -> &Show
        ensures { result.now ≡ self.now.show }
    {
        self.show.show()
    }

    /// The analysis of the show as it stands.
    pub fn conflicts(&self) -> &Analysis
        ensures { result.now ≡ analysed self.now.show }
    {
        self.show.analysis()
    }

    /// The intermodulation products of the show as it stands, from `lo` to `hi`: the first 10,000, and how many there are.
    pub fn products(&self, lo: Khz, hi: Khz) -> Result<Products, NoMemory>
        ensures { IfOk result (λ found. found ≡ listed self.now.show lo hi) }
    {
        self.show.products(lo, hi)
    }
}

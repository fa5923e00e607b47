//! The table of a show's analysis, and how a change renews it.

ghost use Rattle.std.specs.Prelude.{◌≡◌, ◌≤◌, IfOk, OnErr, OnOk};
ghost use Rattle.rf_show.specs.Show.{ShowData};
ghost use Rattle.rf_rules.specs.Analyses.{analysed};
ghost use Rattle.rf_rules.specs.Products.{listed};
ghost use Rattle.rf_table.specs.Tables.{StandsFor};

use crate::changed::changed;
use crate::zones::same_zones;
use rf_base::{Khz, NoMemory};
use rf_rules::{Analysis, Products, analyse_counted, products, renew};
use rf_show::Show;
use std::alloc::Global;
use std::marker::Model;

/// A show and its analysis, kept up as the show changes.
#[derive(Drop)]
pub struct Table {
    alloc: Global,
    kept: Show,
    analysis: Analysis,
    evaluated: u64,
}

impl Model for Table {
    ghost use Rattle.std.specs.Prelude.{◌≡◌};
    ghost use Rattle.rf_rules.specs.Analyses.{analysed};
    ghost use Rattle.rf_table.specs.Tables.{TableData};

    ghost Value = { TableData };

    ghost view = { λ t. record { kept = t.kept; analysis = t.analysis; evaluated = t.evaluated } };

    ghost invariant = { λ t. t.analysis ≡ analysed t.kept };
}

impl Table {
    /// The table of a show. `NoMemory` where no memory is found.
    pub fn of(alloc: Global, show: &Show) -> Result<Table, NoMemory>
        ensures { IfOk result (λ table. StandsFor table show.now) }
    {
        let mut evaluated = 0;
        Ok(Table {
            alloc,
            kept: show.copy(alloc)?,
            analysis: analyse_counted(alloc, show, &mut evaluated)?,
            evaluated,
        })
    }

    /// Makes the table stand for a show. What is broken among carriers that stay as they were is not looked for again. After
    /// want of memory nothing has changed.
    pub fn change(&mut self, show: &Show) -> Result<(), NoMemory>
        ensures stands { OnOk result (StandsFor self.new show.now) }
        ensures rises { self.old.evaluated ≤ self.new.evaluated }
        ensures unchanged { OnErr result (self.new ≡ self.old) }
    {
        let mut evaluated = self.evaluated;
        let kept = show.copy(self.alloc)?;
        let analysis = next(self.alloc, &self.kept, &self.analysis, show, &mut evaluated)?;
        self.kept = kept;
        self.analysis = analysis;
        self.evaluated = evaluated;
        Ok(())
    }

    /// The analysis of the show for which the table stands.
    pub fn conflicts(&self) -> &Analysis
        ensures { (show : ShowData) → StandsFor self.now show → result.now ≡ analysed show }
    {
        &self.analysis
    }

    /// The intermodulation products from `lo` to `hi` of the show for which the table stands: the first 10,000, and how many
    /// there are.
    pub fn products(&self, lo: Khz, hi: Khz) -> Result<Products, NoMemory>
        ensures { (show : ShowData) → StandsFor self.now show → IfOk result (λ found. found ≡ listed show lo hi) }
    {
        products(self.alloc, &self.kept, lo, hi)
    }

    /// For how many products the values were computed so far to keep the analysis up. One that has carriers for sources which
    /// stay as they were is among them only where a carrier that changed may be its victim, or more than a fifth of them changed.
    pub fn evaluated(&self) -> u64
        ensures { result ≡ self.now.evaluated }
    {
        self.evaluated
    }
}

/// The analysis of a show, from that of an earlier one. The products whose values are computed are counted.
fn next(
    alloc: Global,
    old: &Show,
    before: &Analysis,
    new: &Show,
    evaluated: &mut u64,
) -> Result<Analysis, NoMemory>
    requires { before.now ≡ analysed old.now }
    ensures value { IfOk result (λ analysis. analysis ≡ analysed new.now) }
    ensures rises { evaluated.old ≤ evaluated.new }
{
    if !same_zones(old.zones(), new.zones()) {
        return analyse_counted(alloc, new, evaluated);
    }
    let mask = changed(old, new);
    // Behind a carrier that is removed all numbers change. From a fifth of them on all is found anew in less time.
    if mask.count_ones() as usize > new.carriers().len() / 5 {
        return analyse_counted(alloc, new, evaluated);
    }
    renew(alloc, new, mask, before, evaluated)
}

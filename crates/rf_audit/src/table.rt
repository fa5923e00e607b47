//! What an audit asks of a show once.

ghost use Rattle.std.specs.Prelude.{◌≡◌, ◌↔◌, ℕ, ◌<◌, ◌≤◌, IsTrue, true, List, length, IfOk, Some, slice_get, slice_index, slice_index_or};
ghost use Rattle.std.specs.List.{All};
ghost use Rattle.rf_terms.specs.declared.kind.Kind.{Kind as KindData};
ghost use Rattle.rf_terms.specs.Kinds.{kinds, roles_of};
ghost use Rattle.rf_terms.specs.Forms.{AreFrequencies};
ghost use Rattle.rf_log.specs.Case.{asked_by, carrier_of, count_of, is_allowed, margin_of};
ghost use Rattle.rf_show.specs.Case.{case_of};
ghost use Rattle.rf_audit.specs.declared.table.Row.{Row as RowData};
ghost use Rattle.rf_audit.specs.Tables.{AreAlike, IsLed, IsRow, IsTable, IsTableRow};

use crate::marks::Marks;
use rf_base::NoMemory;
use rf_checker::{allows, count, freq, margin, size};
use rf_show::Show;
use rf_terms::{Kind, kinds, roles};
use std::alloc::Global;

/// A carrier: the frequencies of its channels, which of them are allowed, and what it asks for each kind.
#[derive(Drop)]
pub(crate) struct Row {
    pub(crate) freqs: Vec<u32>,
    pub(crate) allowed: Marks,
    pub(crate) asks: Vec<u32>,
}

/// The carriers, and for each the first one with the same frequencies that asks the same.
#[derive(Drop)]
pub(crate) struct Table {
    pub(crate) rows: Vec<Row>,
    pub(crate) leaders: Vec<usize>,
}

impl Table {
    pub(crate) fn of(alloc: Global, show: &Show) -> Result<Table, NoMemory>
        ensures { IfOk result (λ table. IsTable (case_of show.now) table.rows.items table.leaders.items) }
    {
        let mut rows = Vec::new(alloc);
        for c in 0..size(show) {
            rows.push(row_of(alloc, show, c)?)?;
        }
        let leaders = leaders_of(alloc, show, rows.as_slice())?;
        Ok(Table { rows, leaders })
    }

    /// The margin of a kind, the one with this number, between these carriers.
    pub(crate) fn margin(&self, show: &Show, number: usize, kind: Kind, roles: &[usize]) -> u32
        requires table { IsTable (case_of show.now) self.now.rows.items self.now.leaders.items }
        requires number { number < length kinds }
        requires kind { slice_get kinds number ≡ Some kind }
        requires full { length roles.now ≡ roles_of kind }
        requires known { All (λ c. c < length (case_of show.now).carriers) roles.now }
        ensures { result ≡ margin_of (case_of show.now) kind roles.now }
    {
        let last = self.rows[roles[roles.len() - 1]].asks[number];
        match kind {
            Kind::Spacing => last.max(self.rows[roles[0]].asks[number]),
            _ => last,
        }
    }

    /// Whether no carrier asks anything for the kind with this number.
    pub(crate) fn is_idle(&self, show: &Show, number: usize) -> bool
        requires table { IsTable (case_of show.now) self.now.rows.items self.now.leaders.items }
        requires number { number < length kinds }
        ensures { result ≡ true → (c : ℕ) (kind : KindData) → c < length (case_of show.now).carriers → slice_get kinds number ≡ Some kind → asked_by (case_of show.now) kind c ≡ 0 }
    {
        for row in &self.rows {
            if row.asks[number] != 0 {
                return false;
            }
        }
        true
    }
}

fn row_of(alloc: Global, show: &Show, c: usize) -> Result<Row, NoMemory>
    requires known { c < length (case_of show.now).carriers }
    ensures { IfOk result (λ row. IsRow (case_of show.now) c row.freqs.items row.allowed row.asks.items) }
{
    let mut freqs = Vec::new(alloc);
    let mut allowed = Vec::new(alloc);
    for k in 0..count(show, c) {
        freqs.push(freq(show, c, k))?;
        allowed.push(allows(show, c, k))?;
    }
    let mut asks = Vec::new(alloc);
    for kind in kinds() {
        asks.push(margin(show, *kind, &[c; 4][..roles(*kind)]))?;
    }
    Ok(Row {
        freqs,
        allowed: Marks::of(allowed),
        asks,
    })
}

fn leaders_of(alloc: Global, show: &Show, rows: &[Row]) -> Result<Vec<usize>, NoMemory>
    requires rows { (c : ℕ) → c < length rows.now → IsTableRow (case_of show.now) rows.now c }
    ensures full { IfOk result (λ leaders. length leaders.items ≡ length rows.now) }
    ensures led { IfOk result (λ leaders. (c : ℕ) → c < length rows.now → IsLed (case_of show.now) leaders.items c) }
{
    let mut leaders = Vec::new(alloc);
    for c in 0..rows.len() {
        leaders.push(leader_of(rows, leaders.as_slice(), c))?;
    }
    Ok(leaders)
}

fn leader_of(rows: &[Row], leaders: &[usize], c: usize) -> usize
    requires known { c < length rows.now }
    requires done { c ≤ length leaders.now }
    ensures low { result ≤ c }
    ensures itself { result < c → slice_index leaders.now result ≡ result }
    ensures alike { (one : RowData) (other : RowData) → one ≡ slice_index_or rows.now result one → other ≡ slice_index_or rows.now c other → AreAlike one other }
{
    for g in 0..c {
        if leaders[g] == g && are_alike(&rows[g], &rows[c]) {
            return g;
        }
    }
    c
}

fn are_alike(one: &Row, other: &Row) -> bool
    ensures { IsTrue result ↔ AreAlike one.now other.now }
{
    one.freqs.as_slice() == other.freqs.as_slice() && one.asks.as_slice() == other.asks.as_slice()
}

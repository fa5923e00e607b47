//! What an instance takes out of its target's set.

ghost use Rattle.std.specs.Prelude.{◌≡◌, ℕ, List, ◌<◌, ◌≤◌, length, slice_index, slice_set, take, unsigned_abs};
ghost use Rattle.std.specs.List.{All};
ghost use Rattle.rf_terms.specs.Kinds.{roles_of};
ghost use Rattle.rf_terms.specs.Forms.{AreFrequencies, value_of};
ghost use Rattle.rf_log.specs.Case.{count_of};
ghost use Rattle.rf_show.specs.Case.{case_of};
ghost use Rattle.rf_audit.specs.Left.{AreChosen, AreSized, Falls, IsAim, IsClearedAt, IsTargetWindow};
ghost use Rattle.rf_audit.specs.Tables.{IsTable};

use crate::marks::Marks;
use crate::table::Table;
use crate::window::window;
use rf_checker::is_instance;
use rf_show::Show;
use rf_terms::{Kind, coefficient, value};

/// A kind, its number in the rule table, and the place of the target among its roles.
#[derive(Clone, Copy)]
pub(crate) struct Aim {
    pub(crate) number: usize,
    pub(crate) kind: Kind,
    pub(crate) place: usize,
}

/// Takes out what breaks an instance whose other carriers, with these frequencies, are fixed, whichever carrier is the target.
pub(crate) fn strike(
    show: &Show,
    table: &Table,
    sets: &mut Vec<Marks>,
    fixed: &[Option<usize>],
    aim: Aim,
    chosen: [usize; 4],
    freqs: &[u32],
)
    requires table { IsTable (case_of show.now) table.now.rows.items table.now.leaders.items }
    requires sized { AreSized (case_of show.now) sets.old.items }
    requires aim { IsAim aim.kind aim.number aim.place }
    requires full { length freqs.now ≡ roles_of aim.kind }
    requires small { AreFrequencies freqs.now }
    requires chosen { AreChosen (case_of show.now) fixed.now (roles_of aim.kind) aim.place chosen freqs.now }
    ensures falls { Falls (case_of show.now) fixed.now sets.old.items sets.new.items }
    ensures cleared { (c : ℕ) → c < length (case_of show.now).carriers → IsClearedAt (case_of show.now) fixed.now sets.new.items aim.kind aim.place chosen c }
{
    let rest = value(aim.kind, freqs);
    for g in 0..table.leaders.len() {
        if table.leaders[g] == g {
            strike_led(show, table, sets, fixed, aim, chosen, freqs, rest, g);
        }
    }
}

// The same for the targets that carrier `g` leads, where the form is `rest` with the target at 0.
fn strike_led(
    show: &Show,
    table: &Table,
    sets: &mut Vec<Marks>,
    fixed: &[Option<usize>],
    aim: Aim,
    chosen: [usize; 4],
    freqs: &[u32],
    rest: i64,
    g: usize,
)
    requires table { IsTable (case_of show.now) table.now.rows.items table.now.leaders.items }
    requires sized { AreSized (case_of show.now) sets.old.items }
    requires aim { IsAim aim.kind aim.number aim.place }
    requires full { length freqs.now ≡ roles_of aim.kind }
    requires chosen { AreChosen (case_of show.now) fixed.now (roles_of aim.kind) aim.place chosen freqs.now }
    requires rest { rest ≡ value_of aim.kind freqs.now }
    requires bound { unsigned_abs rest ≤ 640000000 }
    requires leader { g < length table.now.leaders.items }
    ensures falls { Falls (case_of show.now) fixed.now sets.old.items sets.new.items }
    ensures cleared { (c : ℕ) → c < length (case_of show.now).carriers → slice_index table.now.leaders.items c ≡ g →
        IsClearedAt (case_of show.now) fixed.now sets.new.items aim.kind aim.place chosen c }
{
    let mut with_leader = chosen;
    with_leader[aim.place] = g;
    let margin = table.margin(show, aim.number, aim.kind, &with_leader[..freqs.len()]);
    let multiple = coefficient(aim.kind, aim.place);
    let (from, end) = window(table.rows[g].freqs.as_slice(), multiple, rest, margin);
    if from >= end {
        return;
    }
    for c in 0..table.leaders.len() {
        if table.leaders[c] == g {
            strike_target(show, sets, fixed, aim, chosen, freqs, rest, c, from, end);
        }
    }
}

// The same for target `c`, of which the indices from `from` up to below `end` break the form.
fn strike_target(
    show: &Show,
    sets: &mut Vec<Marks>,
    fixed: &[Option<usize>],
    aim: Aim,
    mut chosen: [usize; 4],
    freqs: &[u32],
    rest: i64,
    c: usize,
    from: usize,
    end: usize,
)
    requires sized { AreSized (case_of show.now) sets.old.items }
    requires aim { IsAim aim.kind aim.number aim.place }
    requires full { length freqs.now ≡ roles_of aim.kind }
    requires chosen { AreChosen (case_of show.now) fixed.now (roles_of aim.kind) aim.place chosen freqs.now }
    requires rest { rest ≡ value_of aim.kind freqs.now }
    requires known { c < length (case_of show.now).carriers }
    requires order { from ≤ end }
    requires within { end ≤ count_of (case_of show.now) c }
    requires window { IsTargetWindow (case_of show.now) aim.kind aim.place chosen rest c (from, end) }
    ensures falls { Falls (case_of show.now) fixed.now sets.old.items sets.new.items }
    ensures cleared { IsClearedAt (case_of show.now) fixed.now sets.new.items aim.kind aim.place chosen c }
{
    match sets[c].first(from, end) {
        None => return,
        Some(_) => (),
    }
    chosen[aim.place] = c;
    if !is_instance(show, aim.kind, &chosen[..freqs.len()]) {
        return;
    }
    sets[c].clear(from, end);
}

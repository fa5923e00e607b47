//! What falls by the instances of a carrier that is newly fixed.

ghost use Rattle.std.specs.Prelude.{◌≡◌, ℕ, List, ◌<◌, ◌≤◌, Some, slice_get, length, Contains};
ghost use Rattle.rf_terms.specs.declared.kind.Kind.{Kind as KindData};
ghost use Rattle.rf_terms.specs.Kinds.{kinds, roles_of};
ghost use Rattle.rf_terms.specs.Forms.{AreFrequencies};
ghost use Rattle.rf_show.specs.Case.{case_of};
ghost use Rattle.rf_audit.specs.Left.{AreChosen, AreKnown, AreSized, Falls, IsAim, IsClearedAlong, IsClearedWith};
ghost use Rattle.rf_audit.specs.Tables.{IsTable};

use crate::marks::Marks;
use crate::strike::{Aim, strike};
use crate::table::Table;
use rf_show::Show;
use rf_terms::{Kind, kinds, roles};

/// Takes out what breaks an instance whose other carriers are fixed, carrier `x` among them.
pub(crate) fn spread(
    show: &Show,
    table: &Table,
    sets: &mut Vec<Marks>,
    fixed: &[Option<usize>],
    x: usize,
)
    requires table { IsTable (case_of show.now) table.now.rows.items table.now.leaders.items }
    requires sized { AreSized (case_of show.now) sets.old.items }
    requires fixed { AreKnown (case_of show.now) fixed.now }
    ensures falls { Falls (case_of show.now) fixed.now sets.old.items sets.new.items }
    ensures cleared { (kind : KindData) (place : ℕ) → Contains kinds kind → place < roles_of kind → IsClearedWith (case_of show.now) fixed.now sets.new.items x kind place }
{
    for (number, kind) in kinds().iter().enumerate() {
        if !table.is_idle(show, number) {
            spread_kind(show, table, sets, fixed, x, number, *kind);
        }
    }
}

fn spread_kind(
    show: &Show,
    table: &Table,
    sets: &mut Vec<Marks>,
    fixed: &[Option<usize>],
    x: usize,
    number: usize,
    kind: Kind,
)
    requires table { IsTable (case_of show.now) table.now.rows.items table.now.leaders.items }
    requires sized { AreSized (case_of show.now) sets.old.items }
    requires fixed { AreKnown (case_of show.now) fixed.now }
    requires number { number < length kinds }
    requires kind { slice_get kinds number ≡ Some kind }
    ensures falls { Falls (case_of show.now) fixed.now sets.old.items sets.new.items }
    ensures cleared { (place : ℕ) → place < roles_of kind → IsClearedWith (case_of show.now) fixed.now sets.new.items x kind place }
{
    for place in 0..roles(kind) {
        let aim = Aim {
            number,
            kind,
            place,
        };
        spread_at(show, table, sets, fixed, x, aim);
    }
}

fn spread_at(
    show: &Show,
    table: &Table,
    sets: &mut Vec<Marks>,
    fixed: &[Option<usize>],
    x: usize,
    aim: Aim,
)
    requires table { IsTable (case_of show.now) table.now.rows.items table.now.leaders.items }
    requires sized { AreSized (case_of show.now) sets.old.items }
    requires fixed { AreKnown (case_of show.now) fixed.now }
    requires aim { IsAim aim.kind aim.number aim.place }
    ensures falls { Falls (case_of show.now) fixed.now sets.old.items sets.new.items }
    ensures cleared { IsClearedWith (case_of show.now) fixed.now sets.new.items x aim.kind aim.place }
{
    for at in 0..roles(aim.kind) {
        if at != aim.place {
            extend(show, table, sets, fixed, x, aim, at, [0; 4], [0; 4], 0);
        }
    }
}

// The instances whose roles begin with `chosen[..depth]`, with carrier `x` in the place `at`.
fn extend(
    show: &Show,
    table: &Table,
    sets: &mut Vec<Marks>,
    fixed: &[Option<usize>],
    x: usize,
    aim: Aim,
    at: usize,
    chosen: [usize; 4],
    freqs: [u32; 4],
    depth: usize,
)
    requires table { IsTable (case_of show.now) table.now.rows.items table.now.leaders.items }
    requires sized { AreSized (case_of show.now) sets.old.items }
    requires fixed { AreKnown (case_of show.now) fixed.now }
    requires aim { IsAim aim.kind aim.number aim.place }
    requires depth { depth ≤ roles_of aim.kind }
    requires chosen { AreChosen (case_of show.now) fixed.now depth aim.place chosen freqs }
    requires small { AreFrequencies freqs }
    ensures falls { Falls (case_of show.now) fixed.now sets.old.items sets.new.items }
    ensures cleared { IsClearedAlong (case_of show.now) fixed.now sets.new.items aim.kind aim.place at x depth chosen }
{
    let count = roles(aim.kind);
    if depth == count {
        strike(show, table, sets, fixed, aim, chosen, &freqs[..count]);
        return;
    }
    if depth == aim.place {
        extend(
            show,
            table,
            sets,
            fixed,
            x,
            aim,
            at,
            chosen,
            freqs,
            depth + 1,
        );
        return;
    }
    for c in 0..fixed.len() {
        if depth == at && c != x {
            continue;
        }
        if let Some(k) = fixed[c] {
            let mut chosen = chosen;
            let mut freqs = freqs;
            chosen[depth] = c;
            freqs[depth] = table.rows[c].freqs[k];
            extend(
                show,
                table,
                sets,
                fixed,
                x,
                aim,
                at,
                chosen,
                freqs,
                depth + 1,
            );
        }
    }
}

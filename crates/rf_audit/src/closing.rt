//! The closure of a path.

ghost use Rattle.std.specs.Prelude.{◌≡◌, ℕ, List, ◌<◌, ◌≤◌, Some, None, true, false, length, slice_set, MatchOption};
ghost use Rattle.rf_log.specs.declared.cond.Cond.{Cond as CondData};
ghost use Rattle.rf_log.specs.Case.{count_of};
ghost use Rattle.rf_show.specs.Case.{case_of};
ghost use Rattle.rf_audit.specs.Follow.{Tells};
ghost use Rattle.rf_audit.specs.Left.{AreKnown, AreSized, HasBoth, HasOutside, IsClosedTo, IsLeft, in_sets};
ghost use Rattle.rf_audit.specs.Looks.{IsNewlyFixed, Sees};
ghost use Rattle.rf_audit.specs.Tables.{IsTable};

use crate::left::Left;
use crate::marks::Marks;
use crate::spread::spread;
use crate::table::Table;
use rf_log::{Cond, settled_box_is_closed};
use rf_show::Show;

/// What is seen of what is left.
enum Look {
    /// A carrier has no index left.
    Dead,
    /// A carrier that was not fixed has one index left.
    Fixed { carrier: usize, at: usize },
    /// Every other carrier has two indices or more.
    Settled,
}

/// Takes out what falls, until nothing more does or a set is empty; whether no set is empty.
pub(crate) fn close(show: &Show, table: &Table, left: &mut Left) -> bool
    requires table { IsTable (case_of show.now) table.now.rows.items table.now.leaders.items }
    requires sized { AreSized (case_of show.now) left.old.sets.items }
    requires fixed { AreKnown (case_of show.now) left.old.fixed.items }
    ensures left { (path : List CondData) → IsLeft (case_of show.now) path left.old.fixed.items left.old.sets.items → IsLeft (case_of show.now) path left.new.fixed.items left.new.sets.items }
    ensures closed { (path : List CondData) → IsLeft (case_of show.now) path left.old.fixed.items left.old.sets.items → IsClosedTo (case_of show.now) path (in_sets left.new.sets.items) result }
    ensures sized { AreSized (case_of show.now) left.new.sets.items }
    ensures fixed { AreKnown (case_of show.now) left.new.fixed.items }
{
    settled_box_is_closed();
    'rounds: loop {
        match survey(show, left) {
            Look::Dead => return false,
            Look::Settled => return true,
            Look::Fixed { carrier, at } => fix(show, table, left, carrier, at),
        }
    }
}

// Fixes a carrier at its one index, and takes out what falls by that.
fn fix(show: &Show, table: &Table, left: &mut Left, carrier: usize, at: usize)
    requires table { IsTable (case_of show.now) table.now.rows.items table.now.leaders.items }
    requires sized { AreSized (case_of show.now) left.old.sets.items }
    requires fixed { AreKnown (case_of show.now) left.old.fixed.items }
    requires newly { IsNewlyFixed (case_of show.now) left.old.fixed.items (in_sets left.old.sets.items) carrier at }
    ensures left { (path : List CondData) → IsLeft (case_of show.now) path left.old.fixed.items left.old.sets.items → IsLeft (case_of show.now) path left.new.fixed.items left.new.sets.items }
    ensures sized { AreSized (case_of show.now) left.new.sets.items }
    ensures fixed { AreKnown (case_of show.now) left.new.fixed.items }
    ensures set { left.new.fixed.items ≡ slice_set left.old.fixed.items carrier (Some at) }
{
    left.fixed[carrier] = Some(at);
    spread(show, table, &mut left.sets, left.fixed.as_slice(), carrier);
}

fn survey(show: &Show, left: &Left) -> Look
    requires sized { AreSized (case_of show.now) left.now.sets.items }
    requires fixed { AreKnown (case_of show.now) left.now.fixed.items }
    ensures { Sees (case_of show.now) left.now.fixed.items (in_sets left.now.sets.items) result }
{
    for c in 0..left.sets.len() {
        let marks = &left.sets[c];
        match left.fixed[c] {
            Some(k) => {
                if !marks.has(k) {
                    return Look::Dead;
                }
            }
            None => match marks.first(0, marks.len()) {
                None => return Look::Dead,
                Some(at) => match marks.first(at + 1, marks.len()) {
                    None => return Look::Fixed { carrier: c, at },
                    Some(_) => (),
                },
            },
        }
    }
    Look::Settled
}

/// Whether what is left has an index that meets a condition from `lo` to `hi`, and one that does not.
pub(crate) fn has_both(show: &Show, left: &Left, side: Cond) -> bool
    requires sized { AreSized (case_of show.now) left.now.sets.items }
    requires known { side.carrier < length (case_of show.now).carriers }
    requires rising { side.lo ≤ side.hi }
    requires index { side.hi < count_of (case_of show.now) side.carrier }
    requires inside { side.inside ≡ true }
    ensures { Tells (HasBoth (in_sets left.now.sets.items) side) result }
{
    let marks = &left.sets[side.carrier as usize];
    let from = side.lo as usize;
    let end = side.hi as usize + 1;
    match marks.first(from, end) {
        None => false,
        Some(_) => has_outside(marks, from, end),
    }
}

// Whether an index outside of a range is marked.
fn has_outside(marks: &Marks, from: usize, end: usize) -> bool
    requires low { from ≤ length marks.now }
    ensures { Tells (HasOutside marks.now from end) result }
{
    match marks.first(0, from) {
        Some(_) => true,
        None => match marks.first(end, marks.len()) {
            Some(_) => true,
            None => false,
        },
    }
}

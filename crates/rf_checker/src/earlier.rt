//! Hints by earlier nogood lines.

ghost use Rattle.std.specs.Prelude.{◌≡◌, ◌<◌, ◌≤◌, length, IfOk, OnOk, IfSome, MatchOption, if◌then◌else◌, not};
ghost use Rattle.std.specs.List.{All};
ghost use Rattle.std.specs.Option.{option_copied};
ghost use Rattle.rf_log.specs.Hints as hints;
ghost use Rattle.rf_log.specs.Box as box;
ghost use Rattle.rf_show.specs.Case.{case_of};
ghost use Rattle.rf_checker.specs.Boxes.{box_in, Fits, IsBoxFor};
ghost use Rattle.rf_checker.specs.Lines.{single};

use crate::asked::count;
use crate::boxes::{narrow, throughout};
use rf_base::NoMemory;
use rf_exclusions::Spans;
use rf_log::{Cond, LogLine};
use rf_show::Show;
use std::alloc::Global;

/// The conditions of the nogood line with that number, where it is one of the lines. The first has number 1.
pub(crate) fn nogood(lines: &[LogLine], number: u32) -> Option<&[Cond]>
    ensures { option_copied result ≡ hints.nogood_at lines.now number }
{
    if number == 0 || lines.len() < number as usize {
        return None;
    }
    match &lines[number as usize - 1] {
        LogLine::Nogood { conds, .. } => Some(conds.as_slice()),
        _ => None,
    }
}

// The one condition that does not hold throughout the box, where there is at most one.
fn open_cond(show: &Show, sets: &[Spans], conds: &[Cond]) -> Option<Option<Cond>>
    requires fits { All (Fits (case_of show.now)) conds.now }
    requires box_for { IsBoxFor (case_of show.now) sets.now }
    ensures value { result ≡ single (hints.left_open (case_of show.now) (box_in sets.now) conds.now) }
    ensures fits { IfSome result (λ left. IfSome left (λ cond. Fits (case_of show.now) cond)) }
{
    let mut found: Option<Cond> = None;
    for cond in conds {
        if !throughout(show, sets, cond) {
            if found.is_some() {
                return None;
            }
            found = Some(*cond);
        }
    }
    Some(found)
}

fn clear(alloc: Global, sets: &mut [Spans])
    ensures { box_in sets.new ≡ box.nothing }
{
    for set in sets.iter_mut() {
        *set = Spans::new(alloc);
    }
}

// Takes the indices that meet the condition out.
fn take_met(show: &Show, sets: &mut [Spans], cond: Cond) -> Result<(), NoMemory>
    requires fits { Fits (case_of show.now) cond }
    requires box_for { IsBoxFor (case_of show.now) sets.old }
    ensures effect { OnOk result (box_in sets.new ≡ box.without (box_in sets.old) cond.carrier (box.is_met cond)) }
    ensures box_for { OnOk result (IsBoxFor (case_of show.now) sets.new) }
{
    let others = Cond {
        inside: !cond.inside,
        ..cond
    };
    let carrier = cond.carrier as usize;
    narrow(&mut sets[carrier], count(show, carrier), &others)
}

/// Applies an earlier nogood line with these conditions, and says whether it has an effect.
pub(crate) fn apply_earlier(
    alloc: Global,
    show: &Show,
    sets: &mut [Spans],
    conds: &[Cond],
) -> Result<bool, NoMemory>
    requires fits { All (Fits (case_of show.now)) conds.now }
    requires box_for { IsBoxFor (case_of show.now) sets.old }
    ensures effect { IfOk result (λ works. hints.by_open (box_in sets.old) (hints.left_open (case_of show.now) (box_in sets.old) conds.now) ≡ (if works then Some (box_in sets.new) else None)) }
    ensures box_for { IfOk result (λ works. IsBoxFor (case_of show.now) sets.new) }
{
    match open_cond(show, sets, conds) {
        None => Ok(false),
        Some(None) => {
            clear(alloc, sets);
            Ok(true)
        }
        Some(Some(cond)) => {
            take_met(show, sets, cond)?;
            Ok(true)
        }
    }
}

//! Nogood lines: their hints in order, from the box of their conditions.

ghost use Rattle.std.specs.Prelude.{◌≡◌, ◌<◌, ◌≤◌, length, map, take, IfOk, OnOk, if◌then◌else◌};
ghost use Rattle.std.specs.List.{All};
ghost use Rattle.std.specs.Option.{option_map};
ghost use Rattle.rf_log.specs.Hints.{after_hints, box_after, effect};
ghost use Rattle.rf_log.specs.Box as box;
ghost use Rattle.rf_show.specs.Case.{case_of};
ghost use Rattle.rf_checker.specs.Boxes.{box_in, Fits, IsBoxFor};
ghost use Rattle.rf_checker.specs.Lines.{LinesFit, HintFits};

use crate::boxes::{box_of, is_dead};
use crate::earlier::{apply_earlier, nogood};
use crate::hints::apply_ban;
use crate::rule::apply_rule;
use rf_base::NoMemory;
use rf_exclusions::Spans;
use rf_log::{Cond, Hint, LogLine};
use rf_show::Show;
use rf_terms::roles as roles_of;
use std::alloc::Global;

/// The roles as places in the show.
pub(crate) fn places(roles: &[u32; 4]) -> [usize; 4]
    ensures { result ≡ roles.now }
{
    [
        roles[0] as usize,
        roles[1] as usize,
        roles[2] as usize,
        roles[3] as usize,
    ]
}

// Applies the hint to the box, and says whether it has an effect.
fn apply_hint(
    alloc: Global,
    show: &Show,
    done: &[LogLine],
    sets: &mut [Spans],
    hint: &Hint,
) -> Result<bool, NoMemory>
    requires lines { LinesFit (case_of show.now) done.now }
    requires hint { HintFits (case_of show.now) hint.now }
    requires box_for { IsBoxFor (case_of show.now) sets.old }
    ensures effect { IfOk result (λ works. effect (case_of show.now) done.now (box_in sets.old) hint.now ≡ (if works then Some (box_in sets.new) else None)) }
    ensures box_for { IfOk result (λ works. IsBoxFor (case_of show.now) sets.new) }
{
    match hint {
        Hint::Earlier { line } => match nogood(done, *line) {
            Some(conds) => apply_earlier(alloc, show, sets, conds),
            None => Ok(false),
        },
        Hint::Ban { carrier, lo, hi } => apply_ban(show, sets, *carrier as usize, *lo, *hi),
        Hint::Rule {
            kind,
            roles,
            target,
            lo,
            hi,
        } => {
            let places = places(roles);
            let carriers = &places[..roles_of(*kind)];
            let place = *target as usize;
            apply_rule(
                show,
                sets,
                *kind,
                carriers,
                place,
                carriers[place],
                *lo,
                *hi,
            )
        }
    }
}

// Applies the hints in order, and says whether each has an effect.
fn apply_hints(
    alloc: Global,
    show: &Show,
    done: &[LogLine],
    sets: &mut [Spans],
    hints: &[Hint],
) -> Result<bool, NoMemory>
    requires lines { LinesFit (case_of show.now) done.now }
    requires hints { All (HintFits (case_of show.now)) hints.now }
    requires box_for { IsBoxFor (case_of show.now) sets.old }
    ensures effect { IfOk result (λ work. after_hints (case_of show.now) done.now (box_in sets.old) hints.now ≡ (if work then Some (box_in sets.new) else None)) }
    ensures box_for { IfOk result (λ work. IsBoxFor (case_of show.now) sets.new) }
{
    for hint in hints {
        if !apply_hint(alloc, show, done, sets, hint)? {
            return Ok(false);
        }
    }
    Ok(true)
}

/// Whether the hints of a nogood line leave a carrier without an index; None where one of them has no effect.
pub(crate) fn judge_nogood(
    alloc: Global,
    show: &Show,
    done: &[LogLine],
    conds: &[Cond],
    hints: &[Hint],
) -> Result<Option<bool>, NoMemory>
    requires lines { LinesFit (case_of show.now) done.now }
    requires conds { All (Fits (case_of show.now)) conds.now }
    requires hints { All (HintFits (case_of show.now)) hints.now }
    ensures { IfOk result (λ dead. dead ≡ option_map (box.is_dead (case_of show.now)) (box_after (case_of show.now) done.now conds.now hints.now)) }
{
    let mut sets = box_of(alloc, show, conds)?;
    if !apply_hints(alloc, show, done, sets.as_mut_slice(), hints)? {
        return Ok(None);
    }
    Ok(Some(is_dead(show, sets.as_slice())))
}

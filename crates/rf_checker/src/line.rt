//! The tests of a line that need no box: of its names, its indices and the lines that it names.

ghost use Rattle.std.specs.Prelude.{◌≡◌, ◌<◌, length, IsTrue, nat_lt};
ghost use Rattle.std.specs.List.{All, list_all};
ghost use Rattle.rf_log.specs.Walk as walk;
ghost use Rattle.rf_show.specs.Case.{case_of};
ghost use Rattle.rf_checker.specs.Lines.{HasTarget, HasTargets, HintKnown};

use crate::asked::{count, size};
use crate::earlier::nogood;
use rf_log::{Cond, Hint, LogLine};
use rf_show::Show;
use rf_terms::roles as roles_of;

/// Whether the carriers of the line are carriers of the show.
pub(crate) fn knows_names(show: &Show, line: &LogLine) -> bool
    ensures { result ≡ walk.knows_names (case_of show.now) line.now }
{
    match line {
        LogLine::Nogood { conds, hints } => knows_conds(show, conds.as_slice())
            && knows_hints(show, hints.as_slice()),
        LogLine::Branch { carrier, .. } => (*carrier as usize) < size(show),
        LogLine::Up { .. } => true,
    }
}

fn knows_conds(show: &Show, conds: &[Cond]) -> bool
    ensures { result ≡ list_all (walk.knows_cond (case_of show.now)) conds.now }
{
    for cond in conds {
        if !knows_cond(show, cond) {
            return false;
        }
    }
    true
}

fn knows_cond(show: &Show, cond: &Cond) -> bool
    ensures { result ≡ walk.knows_cond (case_of show.now) cond.now }
{
    (cond.carrier as usize) < size(show)
}

fn knows_hints(show: &Show, hints: &[Hint]) -> bool
    ensures { result ≡ list_all (walk.knows_hint (case_of show.now)) hints.now }
{
    for hint in hints {
        if !knows_hint(show, hint) {
            return false;
        }
    }
    true
}

fn knows_hint(show: &Show, hint: &Hint) -> bool
    ensures { result ≡ walk.knows_hint (case_of show.now) hint.now }
{
    match hint {
        Hint::Earlier { .. } => true,
        Hint::Ban { carrier, .. } => (*carrier as usize) < size(show),
        Hint::Rule { kind, roles, .. } => are_known(show, &roles[..roles_of(*kind)]),
    }
}

fn are_known(show: &Show, roles: &[u32]) -> bool
    ensures { result ≡ list_all (λ c. nat_lt c (length (case_of show.now).carriers)) roles.now }
{
    for role in roles {
        if (*role as usize) >= size(show) {
            return false;
        }
    }
    true
}

/// Whether the ranges of the line are ranges of indices of their carriers, and a branching's index is one of its carrier.
pub(crate) fn fits_indices(show: &Show, line: &LogLine) -> bool
    requires targets { HasTargets line.now }
    requires known { IsTrue (walk.knows_names (case_of show.now) line.now) }
    ensures { result ≡ walk.fits_indices (case_of show.now) line.now }
{
    match line {
        LogLine::Nogood { conds, hints } => conds_fit(show, conds.as_slice())
            && hints_fit(show, hints.as_slice()),
        LogLine::Branch { carrier, at, .. } => *at < count(show, *carrier as usize),
        LogLine::Up { .. } => true,
    }
}

fn conds_fit(show: &Show, conds: &[Cond]) -> bool
    requires { All (λ cond. cond.carrier < length (case_of show.now).carriers) conds.now }
    ensures { result ≡ list_all (walk.fits_cond (case_of show.now)) conds.now }
{
    for cond in conds {
        if !fits(show, cond.carrier, cond.lo, cond.hi) {
            return false;
        }
    }
    true
}

fn hints_fit(show: &Show, hints: &[Hint]) -> bool
    requires targets { All HasTarget hints.now }
    requires known { All (HintKnown (case_of show.now)) hints.now }
    ensures { result ≡ list_all (walk.fits_hint (case_of show.now)) hints.now }
{
    for hint in hints {
        if !fits_hint(show, hint) {
            return false;
        }
    }
    true
}

fn fits_hint(show: &Show, hint: &Hint) -> bool
    requires target { HasTarget hint.now }
    requires known { HintKnown (case_of show.now) hint.now }
    ensures { result ≡ walk.fits_hint (case_of show.now) hint.now }
{
    match hint {
        Hint::Earlier { .. } => true,
        Hint::Ban { carrier, lo, hi } => fits(show, *carrier, *lo, *hi),
        Hint::Rule {
            roles,
            target,
            lo,
            hi,
            ..
        } => fits(show, roles[*target as usize], *lo, *hi),
    }
}

fn fits(show: &Show, c: u32, lo: u32, hi: u32) -> bool
    requires { c < length (case_of show.now).carriers }
    ensures { result ≡ walk.fits (case_of show.now) c lo hi }
{
    lo <= hi && hi < count(show, c as usize)
}

/// Whether the lines that the line names are nogood lines among those that are done.
pub(crate) fn finds_lines(done: &[LogLine], line: &LogLine) -> bool
    ensures { result ≡ walk.finds_lines done.now line.now }
{
    match line {
        LogLine::Nogood { hints, .. } => finds_all(done, hints.as_slice()),
        LogLine::Branch { .. } => true,
        LogLine::Up { line } => nogood(done, *line).is_some(),
    }
}

fn finds_all(done: &[LogLine], hints: &[Hint]) -> bool
    ensures { result ≡ list_all (walk.finds_line done.now) hints.now }
{
    for hint in hints {
        if !finds_line(done, hint) {
            return false;
        }
    }
    true
}

fn finds_line(done: &[LogLine], hint: &Hint) -> bool
    ensures { result ≡ walk.finds_line done.now hint.now }
{
    match hint {
        Hint::Earlier { line } => nogood(done, *line).is_some(),
        Hint::Ban { .. } | Hint::Rule { .. } => true,
    }
}

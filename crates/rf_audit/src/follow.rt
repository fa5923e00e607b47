//! The walk along a log's path.

ghost use Rattle.std.specs.Prelude.{◌≡◌, ◌<◌, ℕ, List, Some, true, OnOk, length, reverse, IfOk};
ghost use Rattle.std.specs.List.{All, count_by};
ghost use Rattle.rf_log.specs.Walk as walk;
ghost use Rattle.rf_log.specs.Solved.{IsHonestLine, IsStarted};
ghost use Rattle.rf_log.specs.declared.cond.Cond.{Cond as CondData};
ghost use Rattle.rf_show.specs.Case.{case_of};
ghost use Rattle.rf_checker.specs.Carriers.{lines_over};
ghost use Rattle.rf_audit.specs.Audited.{IsAudited};
ghost use Rattle.rf_audit.specs.Follow.{refusal_at, Tells};
ghost use Rattle.rf_audit.specs.Left.{AreKnown, AreSized, IsLeft};
ghost use Rattle.rf_audit.specs.Tables.{IsTable};
ghost use Rattle.rf_audit.specs.declared.answer.Audit.{Audit as AuditData};

use crate::answer::Audit;
use crate::closing::{close, has_both};
use crate::laws::started_is_honest;
use crate::left::Left;
use crate::table::Table;
use rf_base::NoMemory;
use rf_checker::{check, grow, lines_of};
use rf_log::{Cause, Cond, Cut, Log, LogLine, Verdict};
use rf_show::Show;
use std::alloc::Global;

/// The first line of a log that is invalid or a dishonest branching, or else the number of its branch lines. A log of a
/// search under way is found honest. `NoMemory` where no memory is found.
pub fn audit(alloc: Global, show: &Show, log: &Log) -> Result<Audit, NoMemory>
    ensures exact { IfOk result (λ found. IsAudited (case_of show.now) (lines_over show.now log.now) found) }
    ensures started { (n : ℕ) → IsStarted (case_of show.now) n (lines_over show.now log.now) → IfOk result (λ found. found ≡ AuditData.Honest (count_by walk.is_branch (lines_over show.now log.now))) }
{
    started_is_honest();
    let verdict = check(alloc, show, log)?;
    let lines = lines_of(alloc, show, log)?;
    let table = Table::of(alloc, show)?;
    follow(alloc, show, &table, lines.as_slice(), verdict)
}

fn follow(
    alloc: Global,
    show: &Show,
    table: &Table,
    lines: &[LogLine],
    verdict: Verdict,
) -> Result<Audit, NoMemory>
    requires few { length lines.now < 4294967296 }
    requires verdict { verdict ≡ walk.verdict_of (case_of show.now) lines.now }
    requires table { IsTable (case_of show.now) table.now.rows.items table.now.leaders.items }
    ensures { IfOk result (λ found. IsAudited (case_of show.now) lines.now found) }
{
    let mut path = Vec::new(alloc);
    let mut left = Left::start(alloc, show, table)?;
    let mut open = true;
    let mut branchings = 0;
    for (i, line) in lines.iter().enumerate() {
        let number = i as u32 + 1;
        if let Some(cause) = refusal_at(verdict, number) {
            return Ok(Audit::Refused {
                line: number,
                cause,
            });
        }
        prove!(open);
        if !is_honest(show, table, &mut left, line) {
            return Ok(Audit::Dishonest { line: number });
        }
        open = grow(&mut path, line)?;
        keep_up(alloc, show, table, &mut left, line, path.as_slice())?;
        if is_branch(line) {
            branchings += 1;
        }
    }
    Ok(Audit::Honest { branchings })
}

fn refusal_at(verdict: Verdict, number: u32) -> Option<Cause>
    ensures { result ≡ refusal_at verdict number }
{
    match verdict {
        Verdict::Refused { line, cause } if line == number => Some(cause),
        _ => None,
    }
}

// Whether the line is honest after the path under which this is left. At a branch line the closure of the path is left.
fn is_honest(show: &Show, table: &Table, left: &mut Left, line: &LogLine) -> bool
    requires table { IsTable (case_of show.now) table.now.rows.items table.now.leaders.items }
    requires sized { AreSized (case_of show.now) left.old.sets.items }
    requires fixed { AreKnown (case_of show.now) left.old.fixed.items }
    requires known { walk.knows_names (case_of show.now) line.now ≡ true }
    requires fits { walk.fits_indices (case_of show.now) line.now ≡ true }
    ensures left { (path : List CondData) → IsLeft (case_of show.now) path left.old.fixed.items left.old.sets.items → IsLeft (case_of show.now) path left.new.fixed.items left.new.sets.items }
    ensures honest { (path : List CondData) → IsLeft (case_of show.now) path left.old.fixed.items left.old.sets.items → Tells (IsHonestLine (case_of show.now) (Some path) line.now) result }
{
    match line {
        LogLine::Branch { cut, carrier, at } => {
            if !close(show, table, left) {
                return false;
            }
            has_both(show, left, side_of(*cut, *carrier, *at))
        }
        LogLine::Nogood { .. } | LogLine::Up { .. } => true,
    }
}

// The left side of a branching.
fn side_of(cut: Cut, carrier: u32, at: u32) -> Cond
    ensures { result ≡ walk.left_side cut carrier at }
{
    let lo = match cut {
        Cut::Fix => at,
        Cut::Split => 0,
    };
    Cond {
        carrier,
        inside: true,
        lo,
        hi: at,
    }
}

// What is left after a line that led to this path.
fn keep_up(
    alloc: Global,
    show: &Show,
    table: &Table,
    left: &mut Left,
    line: &LogLine,
    path: &[Cond],
) -> Result<(), NoMemory>
    requires table { IsTable (case_of show.now) table.now.rows.items table.now.leaders.items }
    requires sized { AreSized (case_of show.now) left.old.sets.items }
    ensures { OnOk result ((before : List CondData) → IsLeft (case_of show.now) before left.old.fixed.items left.old.sets.items →
        walk.tree_after (Some before) line.now ≡ Some (reverse path.now) → IsLeft (case_of show.now) (reverse path.now) left.new.fixed.items left.new.sets.items) }
{
    match line {
        LogLine::Nogood { .. } => (),
        LogLine::Branch { cut, carrier, at } => {
            left.narrow(show, &side_of(*cut, *carrier, *at));
        }
        LogLine::Up { .. } => *left = Left::under(alloc, show, table, path)?,
    }
    Ok(())
}

fn is_branch(line: &LogLine) -> bool
    ensures { result ≡ walk.is_branch line.now }
{
    match line {
        LogLine::Branch { .. } => true,
        LogLine::Nogood { .. } | LogLine::Up { .. } => false,
    }
}

//! The text of an answer.

ghost use Rattle.std.specs.Prelude.{◌≡◌, ◌++◌, ℕ, IfOk, OnOk};
ghost use Rattle.std.specs.List.{count_by};
ghost use Rattle.rf_log.specs.Walk.{is_branch};
ghost use Rattle.rf_decide.specs.Texts.{IsIndexed};
ghost use Rattle.rf_margin.specs.Answers.{IsWidened};
ghost use Rattle.rf_margin.specs.Texts as spec;
ghost use Rattle.rf_margin.specs.Widened.{Widened, margin_text, refuted_text, spent_text};

use crate::answer::Widest;
use rf_base::NoMemory;
use rf_decide::{add_log, add_number, add_plan};
use rf_log::LogLine;
use rf_show::{Show, case_is_asked};
use rf_tighter::raising_keeps_allowed;
use std::alloc::Global;

/// The whole reply to `widen N` with this answer; where the budget is used up, its N is the number of branch lines of the
/// log. `NoMemory` where no memory is found.
pub fn widen_text(alloc: Global, show: &Show, answer: &Widest) -> Result<Vec<u8>, NoMemory>
    requires { spec.CanBeWritten show.now answer.now }
    ensures exact { IfOk result (λ text. text.items ≡ spec.text_of show.now answer.now) }
    ensures widened { IfOk result (λ text. (n : ℕ) → IsWidened show.now n answer.now → Widened show.now n text.items) }
{
    case_is_asked();
    raising_keeps_allowed();
    let mut text = Vec::new(alloc);
    add_answer(alloc, &mut text, show, answer)?;
    Ok(text)
}

fn add_answer(
    alloc: Global,
    text: &mut Vec<u8>,
    show: &Show,
    answer: &Widest,
) -> Result<(), NoMemory>
    requires { spec.CanBeWritten show.now answer.now }
    ensures { OnOk result (text.new.items ≡ text.old.items ++ spec.text_of show.now answer.now) }
{
    match answer {
        Widest::Greatest { extra, plan, log } => {
            add_margin(alloc, text, show, *extra, plan.as_slice())?;
            add_refuted(alloc, text, show, *extra + 1, log.as_slice())
        }
        Widest::Most { plan } => add_margin(alloc, text, show, Show::MAX_RAISED, plan.as_slice()),
        Widest::Refuted { log } => add_refuted(alloc, text, show, 0, log.as_slice()),
        Widest::Spent {
            extra,
            log,
            below,
            above,
        } => {
            if let Some((low, plan)) = below {
                add_margin(alloc, text, show, *low, plan.as_slice())?;
            }
            if let Some((high, log)) = above {
                add_refuted(alloc, text, show, *high, log.as_slice())?;
            }
            add_spent(alloc, text, show, *extra, log.as_slice())
        }
    }
}

// Adds `margin D` and the lines of a plan.
fn add_margin(
    alloc: Global,
    text: &mut Vec<u8>,
    show: &Show,
    extra: u32,
    plan: &[u32],
) -> Result<(), NoMemory>
    requires { IsIndexed show.now plan.now }
    ensures { OnOk result (text.new.items ≡ text.old.items ++ margin_text show.now extra plan.now) }
{
    add_number(alloc, text, "margin", u64::from(extra))?;
    add_plan(alloc, text, show, plan)
}

// Adds `log E`, a log and `refuted`.
fn add_refuted(
    alloc: Global,
    text: &mut Vec<u8>,
    show: &Show,
    extra: u32,
    log: &[LogLine],
) -> Result<(), NoMemory>
    requires { spec.AreWritten show.now log.now }
    ensures { OnOk result (text.new.items ≡ text.old.items ++ refuted_text show.now extra log.now) }
{
    add_number(alloc, text, "log", u64::from(extra))?;
    add_log(alloc, text, show, log)?;
    text.extend_from_slice("refuted\n".as_bytes())?;
    Ok(())
}

// Adds `log E`, a log and `spent N`.
fn add_spent(
    alloc: Global,
    text: &mut Vec<u8>,
    show: &Show,
    extra: u32,
    log: &[LogLine],
) -> Result<(), NoMemory>
    requires { spec.AreWritten show.now log.now }
    ensures { OnOk result (text.new.items ≡ text.old.items ++ spent_text show.now extra log.now (count_by is_branch log.now)) }
{
    add_number(alloc, text, "log", u64::from(extra))?;
    add_log(alloc, text, show, log)?;
    let branchings = branchings(log);
    add_number(alloc, text, "spent", branchings as u64)
}

fn branchings(log: &[LogLine]) -> usize
    ensures { result ≡ count_by is_branch log.now }
{
    log.iter().filter(|line| is_branching(line)).count()
}

fn is_branching(line: &LogLine) -> bool
    ensures { result ≡ is_branch line.now }
{
    matches!(line, LogLine::Branch { .. })
}

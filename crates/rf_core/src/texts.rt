//! The text of an answer.

ghost use Rattle.std.specs.Prelude.{◌≡◌, ◌<◌, ◌++◌, ℕ, All, IfOk, OnOk, codes, length};
ghost use Rattle.std.specs.List.{count_by};
ghost use Rattle.rf_log.specs.Walk.{is_branch};
ghost use Rattle.rf_decide.specs.Texts.{IsIndexed, number_line};
ghost use Rattle.rf_core.specs.Answers as spec;
ghost use Rattle.rf_core.specs.Blocking.{Blocking, carrier_line, carrier_lines, log_part, name_line, without_lines};

use crate::answer::Blocked;
use rf_base::{Items, Name, NoMemory};
use rf_decide::{add_log, add_number, add_plan};
use rf_log::LogLine;
use rf_show::Show;
use std::alloc::Global;

/// The whole reply to `why N` with this answer; where the budget is used up, its N is the number of branch lines of the last
/// log. `NoMemory` where no memory is found.
pub fn why_text(alloc: Global, show: &Show, answer: &Blocked) -> Result<Vec<u8>, NoMemory>
    requires { spec.CanBeWritten show.now answer.now }
    ensures exact { IfOk result (λ text. text.items ≡ spec.text_of show.now answer.now) }
    ensures blocking { IfOk result (λ text. (n : ℕ) → spec.IsBlocked show.now n answer.now → Blocking show.now n text.items) }
{
    let mut text = Vec::new(alloc);
    add_answer(alloc, &mut text, show, answer)?;
    Ok(text)
}

fn add_answer(
    alloc: Global,
    text: &mut Vec<u8>,
    show: &Show,
    answer: &Blocked,
) -> Result<(), NoMemory>
    requires { spec.CanBeWritten show.now answer.now }
    ensures { OnOk result (text.new.items ≡ text.old.items ++ spec.text_of show.now answer.now) }
{
    match answer {
        Blocked::Plan { plan } => {
            text.extend_from_slice("plan\n".as_bytes())?;
            add_plan(alloc, text, show, plan.as_slice())
        }
        Blocked::Locks { keep, plans, log } => {
            add_carriers(alloc, text, show, "why", "blocks", keep.as_slice())?;
            add_plans(alloc, text, show, keep.as_slice(), plans.as_slice())?;
            add_refuted(alloc, text, show, log.as_slice())
        }
        Blocked::Spent { keep, log, dropped } => {
            add_carriers(alloc, text, show, "keeping", "keep", keep.as_slice())?;
            if let Some((carrier, log)) = dropped {
                add_carrier(alloc, text, show, "dropped", *carrier)?;
                add_refuted(alloc, text, show, log.as_slice())?;
            }
            add_spent(alloc, text, show, log.as_slice())
        }
    }
}

// Adds a line with a word and how many carriers there are, and a line for each of them.
fn add_carriers(
    alloc: Global,
    text: &mut Vec<u8>,
    show: &Show,
    count: &str,
    each: &str,
    set: &[u32],
) -> Result<(), NoMemory>
    requires { spec.AreCarriers show.now set.now }
    ensures { OnOk result (text.new.items ≡ text.old.items ++ (number_line count.now (length set.now) ++ carrier_lines show.now each.now set.now)) }
{
    add_number(alloc, text, count, set.len() as u64)?;
    add_each(alloc, text, show, each, set)
}

fn add_each(
    alloc: Global,
    text: &mut Vec<u8>,
    show: &Show,
    word: &str,
    set: &[u32],
) -> Result<(), NoMemory>
    requires { spec.AreCarriers show.now set.now }
    ensures { OnOk result (text.new.items ≡ text.old.items ++ carrier_lines show.now word.now set.now) }
{
    for carrier in set {
        add_carrier(alloc, text, show, word, *carrier)?;
    }
    Ok(())
}

// Adds for each of these carriers the line `without NAME` and the lines of its plan.
fn add_plans(
    alloc: Global,
    text: &mut Vec<u8>,
    show: &Show,
    set: &[u32],
    plans: &[Items<u32>],
) -> Result<(), NoMemory>
    requires carriers { spec.AreCarriers show.now set.now }
    requires plans { All (IsIndexed show.now) plans.now }
    requires each { length plans.now ≡ length set.now }
    ensures { OnOk result (text.new.items ≡ text.old.items ++ without_lines show.now set.now plans.now) }
{
    for i in 0..set.len() {
        add_carrier(alloc, text, show, "without", set[i])?;
        add_plan(alloc, text, show, plans[i].as_slice())?;
    }
    Ok(())
}

// Adds a line with a word and the name of a carrier.
fn add_carrier(
    alloc: Global,
    text: &mut Vec<u8>,
    show: &Show,
    word: &str,
    carrier: u32,
) -> Result<(), NoMemory>
    requires { carrier < length show.now.carriers }
    ensures { OnOk result (text.new.items ≡ text.old.items ++ carrier_line show.now word.now carrier) }
{
    add_name(alloc, text, word, &show.carriers()[carrier as usize].name)
}

fn add_name(alloc: Global, text: &mut Vec<u8>, word: &str, name: &Name) -> Result<(), NoMemory>
    ensures { OnOk result (text.new.items ≡ text.old.items ++ name_line word.now name.now) }
{
    let mut line = String::new(alloc);
    let name = name.text();
    writeln!(line, "{word} {name}")?;
    text.extend_from_slice(line.as_bytes())?;
    Ok(())
}

// Adds `log`, a log and `refuted`.
fn add_refuted(
    alloc: Global,
    text: &mut Vec<u8>,
    show: &Show,
    log: &[LogLine],
) -> Result<(), NoMemory>
    requires { spec.AreWritten show.now log.now }
    ensures { OnOk result (text.new.items ≡ text.old.items ++ log_part show.now log.now (codes "refuted\n")) }
{
    text.extend_from_slice("log\n".as_bytes())?;
    add_log(alloc, text, show, log)?;
    text.extend_from_slice("refuted\n".as_bytes())?;
    Ok(())
}

// Adds `log`, a log and `spent N`.
fn add_spent(
    alloc: Global,
    text: &mut Vec<u8>,
    show: &Show,
    log: &[LogLine],
) -> Result<(), NoMemory>
    requires { spec.AreWritten show.now log.now }
    ensures { OnOk result (text.new.items ≡ text.old.items ++ log_part show.now log.now (number_line (codes "spent") (count_by is_branch log.now))) }
{
    text.extend_from_slice("log\n".as_bytes())?;
    add_log(alloc, text, show, log)?;
    let branchings = branchings(log);
    add_number(alloc, text, "spent", branchings as u64)
}

fn branchings(log: &[LogLine]) -> usize
    ensures { result ≡ count_by is_branch log.now }
{
    log.iter().filter(|line| is_branching(line)).count()
}

fn is_branching(line: &LogLine) -> bool
    ensures { result ≡ is_branch line.now }
{
    matches!(line, LogLine::Branch { .. })
}

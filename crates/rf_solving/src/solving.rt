//! A search of a show: its log is written, and its verdict and its plan are answered.

ghost use Rattle.std.specs.Prelude.{◌≡◌, ◌≤◌, ℕ, List, Err, IfOk};
ghost use Rattle.std.specs.Io.KnownBytes.{Appends};
ghost use Rattle.rf_base.specs.Cause.{Rose};
ghost use Rattle.rf_base.specs.Piece.{AppendsPrefix};
ghost use Rattle.rf_log.specs.Case.{IsPlan};
ghost use Rattle.rf_log.specs.Solved.{Ending, planned};
ghost use Rattle.rf_log.specs.declared.line.LogLine.{LogLine};
ghost use Rattle.rf_search.specs.Answers.{ending_of};
ghost use Rattle.rf_search.specs.declared.limits.TheConstants.{MAX_BUDGET};
ghost use Rattle.rf_show.specs.Case.{case_of};
ghost use Rattle.rf_show.specs.Show.{carrier_names};
ghost use Rattle.rf_solving.specs.Solving as spec;

use crate::log_writer::LogWriter;
use crate::names::names_of;
use crate::plan::{ats_of, plan_freqs, write_ats};
use rf_active::problem_of;
use rf_base::{Items, Khz, Name, NoMemory, Sink};
use rf_search::{Answer, SolveFault, solve};
use rf_show::{Show, case_is_asked};
use std::alloc::Global;

/// What a search of a show came to: the text of its verdict; and where it found a plan, a frequency for each carrier.
#[derive(Drop)]
pub struct Found {
    pub verdict: Items<u8>,
    pub ats: Option<Items<Option<Khz>>>,
}

/// Searches for a plan of a show with at most `budget` branchings, at most 20,000, and writes the log to the output. The
/// verdict is answered, and isn't written.
///
/// - `LogFault`: the output failed; its count of faults has risen. A part of the log is written.
/// - `Memory`: no memory was found. Whole lines of the log are written.
pub fn write_search<O: Sink>(
    alloc: Global,
    show: &Show,
    budget: u32,
    output: &mut O,
) -> Result<Found, SolveFault>
    requires { budget ≤ MAX_BUDGET }
    ensures found { IfOk result (λ found. (ending : Ending) × (log : List ℕ) × Appends (O.contents output.old) (O.contents output.new) log
        × spec.IsEnded show.now budget ending log found.verdict × (found.ats ≡ spec.plan_ats show.now ending)) }
    ensures failed { result ≡ Err SolveFault.LogFault → (log : List ℕ) × AppendsPrefix (O.contents output.old) (O.contents output.new) log
        × spec.IsBegun show.now budget log }
    ensures memory { result ≡ Err SolveFault.Memory → (log : List ℕ) × Appends (O.contents output.old) (O.contents output.new) log
        × spec.IsBegun show.now budget log }
    ensures cause { result ≡ Err SolveFault.LogFault → Rose (O.faults output.old) (O.faults output.new) }
    ensures later { O.faults output.old ≤ O.faults output.new }
{
    let Ok(names) = names_of(alloc, show.carriers()) else {
        return Err(SolveFault::Memory);
    };
    let answer = write_log(alloc, show, names.as_slice(), budget, output)?;
    match found_of(alloc, show, names.as_slice(), budget, answer) {
        Ok(found) => Ok(found),
        Err(NoMemory) => Err(SolveFault::Memory),
    }
}

// Writes the log of a search over the carriers of these names.
fn write_log<O: Sink>(
    alloc: Global,
    show: &Show,
    names: &[Name],
    budget: u32,
    output: &mut O,
) -> Result<Answer, SolveFault>
    requires names { names.now ≡ carrier_names show.now.carriers }
    requires budget { budget ≤ MAX_BUDGET }
    ensures solved { IfOk result (λ answer. (log : List LogLine) × Appends (O.contents output.old) (O.contents output.new) (spec.log_text show.now log)
        × spec.IsSolvedBy show.now budget (ending_of answer) log) }
    ensures failed { result ≡ Err SolveFault.LogFault → (log : List ℕ) × AppendsPrefix (O.contents output.old) (O.contents output.new) log
        × spec.IsBegun show.now budget log }
    ensures memory { result ≡ Err SolveFault.Memory → (log : List ℕ) × Appends (O.contents output.old) (O.contents output.new) log
        × spec.IsBegun show.now budget log }
    ensures cause { result ≡ Err SolveFault.LogFault → Rose (O.faults output.old) (O.faults output.new) }
    ensures later { O.faults output.old ≤ O.faults output.new }
{
    case_is_asked();
    let Ok(problem) = problem_of(alloc, show) else {
        return Err(SolveFault::Memory);
    };
    let mut log = LogWriter {
        alloc,
        names,
        sink: output,
    };
    solve(alloc, &problem, budget, &mut log)
}

// The verdict of an answer.
fn found_of(
    alloc: Global,
    show: &Show,
    names: &[Name],
    budget: u32,
    answer: Answer,
) -> Result<Found, NoMemory>
    requires names { names.now ≡ carrier_names show.now.carriers }
    requires plan { (plan : List ℕ) → ending_of answer ≡ planned plan → IsPlan (case_of show.now) plan }
    ensures verdict { IfOk result (λ found. found.verdict ≡ spec.verdict_text show.now budget (ending_of answer)) }
    ensures ats { IfOk result (λ found. found.ats ≡ spec.plan_ats show.now (ending_of answer)) }
{
    let mut verdict = String::new(alloc);
    let mut ats = None;
    match answer {
        Answer::Plan(plan) => {
            let freqs = plan_freqs(alloc, show, plan.as_slice())?;
            writeln!(verdict, "plan")?;
            write_ats(&mut verdict, names, freqs.as_slice())?;
            ats = Some(Items::from_vec(ats_of(alloc, freqs.as_slice())?));
        }
        Answer::Refuted => writeln!(verdict, "refuted")?,
        Answer::Spent => writeln!(verdict, "spent {budget}")?,
    }
    Ok(Found {
        verdict: Items::from_vec(verdict.into_bytes()),
        ats,
    })
}

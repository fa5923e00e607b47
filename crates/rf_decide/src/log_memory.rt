//! A search whose log is kept in memory.

ghost use Rattle.std.specs.Prelude.{◌≡◌, ◌≤◌, ◌++◌, ◌∷◌, ℕ, [], IfOk, OnOk, OnErr};
ghost use Rattle.rf_search.specs.Answers.{ending_of};
ghost use Rattle.rf_search.specs.declared.limits.TheConstants.{MAX_BUDGET};
ghost use Rattle.rf_show.specs.Show.{ShowData};
ghost use Rattle.rf_solving.specs.Solving.{IsSolvedBy};
ghost use Rattle.rf_decide.specs.Decisions.{IsDecision};

use crate::copying::copy_of;
use crate::decide::Decision;
use crate::writable::can_be_written;
use rf_active::problem_of;
use rf_base::{Items, NoMemory};
use rf_log::LogLine;
use rf_search::{Answer, LogFail, LogOut, SolveFault, solve};
use rf_show::{Show, case_is_asked};
use std::alloc::Global;
use std::marker::Model;

/// The lines of a log, in their order.
#[derive(Drop)]
struct Kept {
    lines: Vec<LogLine>,
}

impl Model for Kept {
    ghost use Rattle.std.specs.Prelude.{List};
    ghost use Rattle.rf_log.specs.declared.line.LogLine.{LogLine};

    ghost Value = { List LogLine };

    ghost view = { λ kept. kept.lines.items };
}

impl Kept {
    fn new(alloc: Global) -> Kept
        ensures { result ≡ [] }
    {
        Kept {
            lines: Vec::new(alloc),
        }
    }

    // Adds a line at the end. `NoMemory` where no memory is found, which leaves the lines as they were.
    fn push(&mut self, line: LogLine) -> Result<(), NoMemory>
        ensures ok { OnOk result (self.new ≡ self.old ++ line ∷ []) }
        ensures err { OnErr result (self.new ≡ self.old) }
    {
        self.lines.push(line)?;
        Ok(())
    }

    fn into_items(self) -> Items<LogLine>
        ensures { result ≡ self }
    {
        let Kept { lines } = self;
        Items::from_vec(lines)
    }
}

/// A log in memory, whose lines speak of so many carriers. It never fails.
#[derive(Drop)]
struct LogMemory {
    alloc: Global,
    carriers: usize,
    kept: Kept,
}

impl LogOut for LogMemory {
    ghost use Rattle.std.specs.Prelude.{◌≡◌, ◌++◌, ◌∷◌, []};
    ghost use Rattle.rf_solving.specs.Solving.{IsWritten};

    ghost carriers = { λ log. log.carriers };

    ghost faults = { λ log. 0 };

    ghost taken = { λ old line new. (new.carriers ≡ old.carriers) × IsWritten old.carriers line × (new.kept ≡ old.kept ++ line ∷ []) };

    ghost failed = { λ old line new. ⊥ };

    fn line(&mut self, line: &LogLine) -> Result<(), LogFail> {
        can_be_written(line, self.carriers);
        let Ok(copy) = copy_of(self.alloc, line) else {
            return Err(LogFail::Memory);
        };
        match self.kept.push(copy) {
            Ok(()) => Ok(()),
            Err(NoMemory) => Err(LogFail::Memory),
        }
    }
}

/// What a search of a show with at most `budget` branchings comes to. `NoMemory` where no memory is found.
pub(crate) fn solved(alloc: Global, show: &Show, budget: u32) -> Result<Decision, NoMemory>
    requires { budget ≤ MAX_BUDGET }
    ensures { IfOk result (λ decision. IsDecision show.now budget decision) }
{
    case_is_asked();
    let problem = problem_of(alloc, show)?;
    let mut log = LogMemory {
        alloc,
        carriers: show.carriers().len(),
        kept: Kept::new(alloc),
    };
    match solve(alloc, &problem, budget, &mut log) {
        Ok(answer) => Ok(decision_of(answer, log.kept.into_items())),
        Err(SolveFault::Memory) => Err(NoMemory),
        Err(SolveFault::LogFault) => unreachable!(),
    }
}

fn decision_of(answer: Answer, log: Items<LogLine>) -> Decision
    ensures { (show : ShowData) (n : ℕ) → IsSolvedBy show n (ending_of answer) log → IsDecision show n result }
{
    match answer {
        Answer::Plan(plan) => Decision::Plan(plan),
        Answer::Refuted => Decision::Refuted(log),
        Answer::Spent => Decision::Spent(log),
    }
}

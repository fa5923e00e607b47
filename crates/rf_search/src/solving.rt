//! A whole search by any engine, up to its log handed out.

ghost use Rattle.std.specs.Prelude.{◌≡◌, ◌≤◌, ℕ, [], List, Err, All, take, length, OnOk, IfOk};
ghost use Rattle.rf_base.specs.Cause.{Rose};
ghost use Rattle.rf_log.specs.Case.{counts_of};
ghost use Rattle.rf_log.specs.Solved.{IsStarted, IsSolved};
ghost use Rattle.rf_log.specs.declared.line.LogLine.{LogLine};
ghost use Rattle.rf_domain.specs.Sets.{AreCounts};
ghost use Rattle.rf_search.specs.declared.limits.TheConstants.{MAX_BUDGET};
ghost use Rattle.rf_search.specs.Answers.{ending_of};
ghost use Rattle.rf_search.specs.Out.{IsWritable, Leads, LeadsToFailed};
ghost use Rattle.rf_search.specs.Turns.{IsWhole};

use crate::answer::Answer;
use crate::out::LogOut;
use crate::run::run;
use crate::search::Search;
use rf_find::Advice;
use rf_propagate::{Applies, Engine, Grows, Learns};
use rf_trail::Trail;
use std::alloc::Global;

/// Why a search gave no answer.
#[derive(Clone, Copy, PartialEq, Eq)]
pub enum SolveFault {
    /// The log's output failed.
    LogFault,
    /// No memory was found.
    Memory,
}

/// Searches with an engine of every kind and of bans, over a trail that was made with its theory's counts and has no
/// entries. The budget is the most branchings. What is advised for each carrier says where it branches, and nothing of what comes of
/// that hangs on it. Each line of the log is handed out as soon as it is made. `LogFault` comes only where the output's count rose.
pub fn solve_by<T: Grows + Applies, P: Learns<T>, L: LogOut>(
    alloc: Global,
    engine: &mut Engine<T, P>,
    trail: Trail,
    advice: &[Advice],
    budget: u32,
    out: &mut L,
) -> Result<Answer, SolveFault>
    requires counts { trail.counts ≡ counts_of (T.case engine.old.theory) }
    requires small { AreCounts (counts_of (T.case engine.old.theory)) }
    requires new { trail.entries ≡ [] }
    requires budget { budget ≤ MAX_BUDGET }
    requires alone { T.lines engine.old.theory ≡ [] }
    requires whole { IsWhole (P.kinds engine.old.propagator) (P.bans engine.old.propagator) }
    requires carriers { L.carriers out.old ≡ length (T.case engine.old.theory).carriers }
    ensures carriers { L.carriers out.new ≡ L.carriers out.old }
    // the lines that were taken and the answer are what a solver owes
    ensures solved { IfOk result (λ answer. (lines : List LogLine) × Leads L.taken out.old lines out.new
        × IsSolved (T.case engine.old.theory) budget lines (ending_of answer)) }
    // after a fault the lines handed out, a failed last one among them, are started
    ensures failed { result ≡ Err SolveFault.LogFault → (lines : List LogLine) × LeadsToFailed L.taken L.failed out.old lines out.new
        × IsStarted (T.case engine.old.theory) budget lines }
    ensures memory { result ≡ Err SolveFault.Memory → (lines : List LogLine) × Leads L.taken out.old lines out.new
        × IsStarted (T.case engine.old.theory) budget lines }
    ensures cause { result ≡ Err SolveFault.LogFault → Rose (L.faults out.old) (L.faults out.new) }
    ensures later { L.faults out.old ≤ L.faults out.new }
{
    let mut search = Search::new(alloc, trail, budget);
    run(alloc, engine, &mut search, advice, out)
}

//! The theory of a problem: its case and its nogood lines.

ghost use Rattle.std.specs.Prelude.{◌≡◌, [], IfOk};
ghost use Rattle.std.specs.List.Sorted.{IsStrictlyIncreasing};
ghost use Rattle.rf_log.specs.Case.{counts_of};
ghost use Rattle.rf_domain.specs.Sets.{AreCounts};
ghost use Rattle.rf_problem.specs.Problem.{case_of};
ghost use Rattle.rf_propagate.specs.Laws.{AreKnown, numbers_of};

use crate::apply::{apply_ban, apply_rule};
use crate::lines::Lines;
use crate::windows::offer_windows;
use rf_base::{Items, NoMemory};
use rf_domain::Domains;
use rf_log::{Cond, Hint};
use rf_problem::Problem;
use rf_propagate::{Applies, Furthest, Grows, Theory, apply_line};
use rf_trail::Trail;
use std::alloc::Global;

/// A problem with the nogood lines of the log so far.
#[derive(Drop)]
pub struct ProblemTheory<'a> {
    problem: &'a Problem,
    counts: Items<u32>,
    lines: Lines,
    ghost counted: { counts ≡ counts_of (case_of problem.now) },
    ghost rising: { IsStrictlyIncreasing (numbers_of lines) },
    ghost in_range: { AreKnown (case_of problem.now) lines },
}

impl<'a> ProblemTheory<'a> {
    /// The theory of a problem, without lines. `NoMemory` where no memory is found.
    pub fn new(alloc: Global, problem: &'a Problem) -> Result<ProblemTheory<'a>, NoMemory>
        ensures problem { IfOk result (λ theory. theory.problem.now ≡ problem.now) }
        ensures lines { IfOk result (λ theory. theory.lines ≡ []) }
    {
        let counts = Items::from_vec(counts(alloc, problem)?);
        Ok(ProblemTheory {
            problem,
            counts,
            lines: Lines::new(alloc),
        })
    }

    /// Where its memory comes from.
    pub(crate) fn alloc(&self) -> Global {
        self.lines.alloc()
    }

    /// The problem.
    pub fn problem(&self) -> &Problem
        ensures { result.now ≡ self.now.problem.now }
    {
        self.problem
    }
}

/// The trail of a problem, with all its channels and no entry. `NoMemory` where no memory is found.
pub fn trail_of(alloc: Global, problem: &Problem) -> Result<Trail, NoMemory>
    ensures value { IfOk result (λ trail. trail ≡ record { counts = counts_of (case_of problem.now); entries = [] }) }
    ensures small { IfOk result (λ trail. AreCounts (counts_of (case_of problem.now))) }
{
    let counts = counts(alloc, problem)?;
    Trail::new(alloc, &counts)
}

// The numbers of channels of the carriers.
fn counts(alloc: Global, problem: &Problem) -> Result<Vec<u32>, NoMemory>
    ensures value { IfOk result (λ counts. counts.items ≡ counts_of (case_of problem.now)) }
    ensures small { IfOk result (λ counts. AreCounts counts.items) }
{
    let mut counts = Vec::new(alloc);
    for carrier in 0..problem.carriers() {
        counts.push(problem.count(carrier))?;
    }
    Ok(counts)
}

impl<'a> Theory for ProblemTheory<'a> {
    ghost case = { λ t. case_of t.problem.now };

    ghost lines = { λ t. t.lines };

    fn counts(&self) -> &[u32] {
        self.counts.as_slice()
    }

    ghost rising = { λ t. t.rising };

    ghost in_range = { λ t. t.in_range };
}

impl<'a> Grows for ProblemTheory<'a> {
    fn grow(&mut self, line: u32, conds: &[Cond]) -> Result<(), NoMemory> {
        self.lines.push(line, conds)
    }
}

impl<'a> Applies for ProblemTheory<'a> {
    fn line(&self, number: u32) -> Option<&[Cond]> {
        self.lines.find(number)
    }

    fn apply(&self, sets: &mut Domains, hint: &Hint) -> bool {
        match hint {
            Hint::Earlier { line } => match self.lines.find(*line) {
                Some(conds) => apply_line(sets, conds),
                None => false,
            },
            Hint::Ban { carrier, lo, hi } => {
                apply_ban(self.problem, sets, *carrier as usize, *lo, *hi)
            }
            Hint::Rule {
                kind,
                roles,
                target,
                lo,
                hi,
            } => apply_rule(self.problem, sets, *kind, roles, *target, *lo, *hi),
        }
    }

    fn offer(&self, sets: &Domains, carrier: usize, offered: &mut Furthest) {
        offer_windows(self.problem, sets, carrier, offered);
    }
}

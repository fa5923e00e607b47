//! The trail: removals in the order in which they were made, and the way back.

ghost use Rattle.std.specs.Prelude.{◌≡◌, ℕ, ◌<◌, ◌≤◌, ◌-◌, List, [], ◌∷◌, ◌++◌, not, length, reverse, drop, slice_get, Some, OnOk, OnErr, IfOk};
ghost use Rattle.rf_log.specs.Box.{is_met};
ghost use Rattle.rf_domain.specs.Sets.{size_of, sizes, has, total_of, AreCounts};
ghost use Rattle.rf_trail.specs.Trace.{Trace, has_of, cut_of, decided, falls};
ghost use Rattle.rf_trail.specs.Pieces.{entries_of, StandsFor};

use crate::entry::Entry;
use crate::mark::Mark;
use crate::piece::{Piece, give_back, take_out};
use crate::step::Step;
use rf_base::NoMemory;
use rf_domain::Domains;
use rf_log::{Cond, Hint};
use std::alloc::Global;
use std::marker::Model;

/// The removals so far, and the indices that they leave.
///
/// Contracts see the counts with which it was made and its entries, the newest first. It keeps, beside each entry, the
/// pieces that this entry took out, so that it is undone by putting them back.
#[derive(Drop)]
pub struct Trail {
    domains: Domains,
    steps: Vec<Step>,
    pieces: Vec<Piece>,
}

impl Model for Trail {
    ghost Value = { Trace };

    ghost view = { λ t. record { counts = sizes t.domains; entries = entries_of (reverse t.steps.items) } };

    ghost invariant = { λ t. StandsFor t.domains t.steps.items t.pieces.items };
}

impl Trail {
    /// No entries. There are at most `CARRIER_LIMIT` counts, each at most `INDEX_LIMIT`.
    pub fn new(alloc: Global, counts: &[u32]) -> Result<Trail, NoMemory>
        requires { AreCounts counts.now }
        ensures { IfOk result (λ t. t ≡ record { counts = counts.now; entries = [] }) }
    {
        let domains = Domains::new(alloc, counts)?;
        Ok(Trail {
            domains,
            steps: Vec::new(alloc),
            pieces: Vec::new(alloc),
        })
    }

    /// The indices that are left: all those without the ranges of the entries.
    pub fn domains(&self) -> &Domains
        ensures sizes { sizes result.now ≡ self.now.counts }
        ensures has { has result.now ≡ has_of self.now.counts self.now.entries }
    {
        &self.domains
    }

    /// How many indices are left to all carriers.
    pub fn left(&self) -> u64
        ensures { result ≡ total_of self.now.counts (has_of self.now.counts self.now.entries) }
    {
        self.domains.left()
    }

    /// How many entries there are.
    pub fn len(&self) -> usize
        ensures { result ≡ length self.now.entries }
    {
        self.steps.len()
    }

    /// A mark of how many entries there are.
    pub fn mark(&self) -> Mark
        ensures { result.entries ≡ length self.now.entries }
    {
        Mark {
            entries: self.len(),
        }
    }

    /// Entry `n`, counted from 0 and the oldest.
    pub fn entry(&self, n: usize) -> Entry
        requires { n < length self.now.entries }
        ensures { slice_get self.now.entries (length self.now.entries - 1 - n) ≡ Some result }
    {
        self.steps[n].entry
    }

    /// Adds one removal, or changes nothing.
    fn add(&mut self, carrier: usize, lo: u32, hi: u32, hint: Option<Hint>) -> Result<(), NoMemory>
        requires ordered { lo ≤ hi }
        requires in_range { hi < size_of self.old.counts carrier }
        ensures ok { OnOk result (self.new ≡ record self.old { entries = record { carrier = carrier; lo = lo; hi = hi; hint = hint } ∷ self.old.entries }) }
        ensures err { OnErr result (self.new ≡ self.old) }
    {
        let entry = Entry {
            carrier,
            lo,
            hi,
            hint,
        };
        let pieces = self.pieces.len();
        self.steps.push(Step { entry, pieces })?;
        match take_out(&mut self.domains, &mut self.pieces, carrier, lo, hi) {
            Ok(()) => Ok(()),
            Err(failed) => {
                self.steps.pop();
                Err(failed)
            }
        }
    }

    /// Removes the indices from `from` up to `to`, if there are any, by a decision.
    fn cut(&mut self, carrier: usize, from: u32, to: u32) -> Result<(), NoMemory>
        requires in_range { to ≤ size_of self.old.counts carrier }
        ensures ok { OnOk result (self.new ≡ record self.old { entries = cut_of carrier from to ++ self.old.entries }) }
        ensures err { OnErr result (self.new ≡ self.old) }
    {
        if from >= to {
            return Ok(());
        }
        self.add(carrier, from, to - 1, None)
    }

    /// Adds one removal with its reason. `NoMemory` where no memory is found, which leaves the trail unchanged.
    pub fn remove_because(
        &mut self,
        carrier: usize,
        lo: u32,
        hi: u32,
        hint: Hint,
    ) -> Result<(), NoMemory>
        requires ordered { lo ≤ hi }
        requires in_range { hi < size_of self.old.counts carrier }
        ensures ok { OnOk result (self.new ≡ record self.old { entries = record { carrier = carrier; lo = lo; hi = hi; hint = Some hint } ∷ self.old.entries }) }
        ensures err { OnErr result (self.new ≡ self.old) }
    {
        self.add(carrier, lo, hi, Some(hint))
    }

    /// Removes the indices of the condition's carrier that do not meet it. `NoMemory` where no memory is found, which
    /// leaves the trail unchanged.
    pub fn decide(&mut self, cond: Cond) -> Result<(), NoMemory>
        requires ordered { cond.lo ≤ cond.hi }
        requires in_range { cond.hi < size_of self.old.counts cond.carrier }
        ensures ok { OnOk result (self.new ≡ record self.old { entries = decided cond (size_of self.old.counts cond.carrier) ++ self.old.entries }) }
        ensures exact { (k : ℕ) → k < size_of self.old.counts cond.carrier → falls (decided cond (size_of self.old.counts cond.carrier)) k ≡ not (is_met cond k) }
        ensures err { OnErr result (self.new ≡ self.old) }
    {
        let carrier = cond.carrier as usize;
        let size = self.domains.size(carrier);
        if !cond.inside {
            return self.cut(carrier, cond.lo, cond.hi + 1);
        }
        let mark = self.mark();
        self.cut(carrier, 0, cond.lo)?;
        if self.cut(carrier, cond.hi + 1, size).is_err() {
            self.undo_to(mark);
            return Err(NoMemory);
        }
        Ok(())
    }

    /// Leaves the first entries, as many as the mark says.
    pub fn undo_to(&mut self, mark: Mark)
        requires { mark.entries ≤ length self.old.entries }
        ensures { self.new ≡ record self.old { entries = drop (length self.old.entries - mark.entries) self.old.entries } }
    {
        if mark.entries == self.steps.len() {
            return;
        }
        let pieces = self.steps[mark.entries].pieces;
        give_back(&mut self.domains, &mut self.pieces, pieces);
        self.steps.truncate(mark.entries);
    }
}

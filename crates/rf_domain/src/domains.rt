//! Sets of indices of all carriers, side by side.

ghost use Rattle.std.specs.Prelude.{◌≡◌, ℕ, List, Bool, true, ◌<◌, ◌≤◌, [], length, slice_index_or, IfOk, MatchOption, ◌↔◌};
ghost use Rattle.rf_domain.specs.Indices.{HasNoneFrom, IsNext, IsOnly, IsRun, between, outside, count_below};
ghost use Rattle.rf_domain.specs.Sets.{size_of, sizes, has, full, without, with_all, total_of, AreCounts, AreFull, AreWithin};

use crate::limits::INDEX_LIMIT;
use crate::set::IndexSet;
use rf_base::NoMemory;
use std::alloc::Global;
use std::marker::Model;

/// For each carrier the indices that are left.
#[derive(Drop)]
pub struct Domains {
    sets: Vec<IndexSet>,
}

impl Model for Domains {
    ghost Value = { List (List Bool) };

    ghost view = { λ d. d.sets.items };

    ghost invariant = { λ d. AreCounts (sizes d.sets.items) };
}

impl Domains {
    /// All indices.
    pub fn new(alloc: Global, counts: &[u32]) -> Result<Domains, NoMemory>
        requires { AreCounts counts.now }
        ensures { IfOk result (λ d. AreFull d counts.now) }
    {
        let mut sets = Vec::new(alloc);
        for count in counts {
            sets.push(IndexSet::full(alloc, *count)?)?;
        }
        Ok(Domains { sets })
    }

    /// Whether the index is left.
    pub fn has(&self, carrier: usize, k: u32) -> bool
        requires { carrier < length self.now }
        ensures { result ≡ has self.now carrier k }
    {
        self.sets[carrier].has(k)
    }

    /// How many carriers there are.
    pub fn carriers(&self) -> usize
        ensures { result ≡ length self.now }
    {
        self.sets.len()
    }

    /// The number of indices that the carrier's set was made for.
    pub fn size(&self, carrier: usize) -> u32
        requires { carrier < length self.now }
        ensures { result ≡ size_of (sizes self.now) carrier }
    {
        self.sets[carrier].size()
    }

    /// The least index that is left to the carrier from `from` on.
    pub fn next(&self, carrier: usize, from: u32) -> Option<u32>
        requires { carrier < length self.now }
        ensures { MatchOption result (HasNoneFrom (slice_index_or self.now carrier []) from) (λ k. IsNext (slice_index_or self.now carrier []) from k) }
    {
        self.sets[carrier].next(from)
    }

    /// The last index of the run of indices left to the carrier that begins at `from`, which is one of them.
    pub fn run_end(&self, carrier: usize, from: u32) -> u32
        requires carrier { carrier < length self.now }
        requires here { has self.now carrier from ≡ true }
        ensures run { IsRun (slice_index_or self.now carrier []) from result }
        ensures small { result < INDEX_LIMIT }
    {
        self.sets[carrier].run_end(from)
    }

    /// The one index that is left to the carrier, if there is exactly one.
    pub fn only(&self, carrier: usize) -> Option<u32>
        requires { carrier < length self.now }
        ensures { MatchOption result ((k : ℕ) → IsOnly (slice_index_or self.now carrier []) k → ⊥) (λ k. IsOnly (slice_index_or self.now carrier []) k) }
    {
        self.sets[carrier].only()
    }

    /// How many indices are left to the carrier.
    pub fn count(&self, carrier: usize) -> u32
        requires { carrier < length self.now }
        ensures { result ≡ count_below (has self.now carrier) (size_of (sizes self.now) carrier) }
    {
        self.sets[carrier].count()
    }

    /// Takes out the indices from `lo` to `hi`.
    pub fn remove_range(&mut self, carrier: usize, lo: u32, hi: u32)
        requires ordered { lo ≤ hi }
        requires in_range { hi < size_of (sizes self.old) carrier }
        ensures sizes { sizes self.new ≡ sizes self.old }
        ensures has { has self.new ≡ without (has self.old) carrier (between lo hi) }
    {
        self.sets[carrier].remove_range(lo, hi);
    }

    /// Takes out all indices of the carrier but those from `lo` to `hi`.
    pub fn keep_range(&mut self, carrier: usize, lo: u32, hi: u32)
        requires ordered { lo ≤ hi }
        requires in_range { hi < size_of (sizes self.old) carrier }
        ensures sizes { sizes self.new ≡ sizes self.old }
        ensures has { has self.new ≡ without (has self.old) carrier (outside lo hi) }
    {
        self.sets[carrier].keep_range(lo, hi);
    }

    /// Puts in the indices from `lo` to `hi`.
    pub fn put_back(&mut self, carrier: usize, lo: u32, hi: u32)
        requires ordered { lo ≤ hi }
        requires in_range { hi < size_of (sizes self.old) carrier }
        ensures sizes { sizes self.new ≡ sizes self.old }
        ensures has { has self.new ≡ with_all (has self.old) carrier (between lo hi) }
    {
        self.sets[carrier].put_back(lo, hi);
    }

    /// The number of indices that are left to all carriers.
    pub fn left(&self) -> u64
        ensures { result ≡ total_of (sizes self.now) (has self.now) }
    {
        let mut left = 0u64;
        for set in &self.sets {
            left += set.count() as u64;
        }
        left
    }

    /// Whether each index that is left is left in the others too, which were made for the same sizes.
    pub fn is_within(&self, others: &Domains) -> bool
        requires { sizes self.now ≡ sizes others.now }
        ensures { (result ≡ true) ↔ AreWithin self.now others.now }
    {
        for carrier in 0..self.sets.len() {
            if !self.sets[carrier].is_within(&others.sets[carrier]) {
                return false;
            }
        }
        true
    }

    /// The same sets. `NoMemory` where no memory is found.
    pub fn copy(&self, alloc: Global) -> Result<Domains, NoMemory>
        ensures { IfOk result (λ d. d ≡ self.now) }
    {
        let mut sets = Vec::new(alloc);
        for set in &self.sets {
            sets.push(set.copy(alloc)?)?;
        }
        Ok(Domains { sets })
    }
}

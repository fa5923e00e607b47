//! The set of the indices of one carrier, with its count and its least index at hand.

ghost use Rattle.std.specs.Prelude.{◌≡◌, ℕ, List, Bool, true, not, ◌<◌, ◌≤◌, ◌&&◌, ◌||◌, length, IfOk, MatchOption, ◌↔◌};
ghost use Rattle.rf_domain.specs.Indices.{flag, between, flags_of, IsKept, HasNoneFrom, IsNext, IsOnly, IsRun, IsWhole, IsWithin, count_below};

use crate::limits::INDEX_LIMIT;
use crate::words::{are_within, clear_range, fill_range, lowest_left, next_bit, next_clear};
use rf_base::NoMemory;
use std::alloc::Global;
use std::marker::Model;

/// A set of indices below a size. It knows how many it has, and the lowest of them, or the size where it has none.
#[derive(Drop)]
pub struct IndexSet {
    words: Vec<u64>,
    size: u32,
    count: u32,
    first: u32,
}

impl Model for IndexSet {
    ghost Value = { List Bool };

    ghost view = { λ s. flags_of s.size s.words.items };

    ghost invariant = { λ s. IsKept s.size s.count s.first s.words.items };
}

impl IndexSet {
    /// All indices below the size.
    pub fn full(alloc: Global, size: u32) -> Result<IndexSet, NoMemory>
        requires { size ≤ INDEX_LIMIT }
        ensures { IfOk result (λ s. IsWhole s size) }
    {
        let mut words = vec![in alloc; 0u64; (size as usize + 63) / 64]?;
        if 0 < size {
            fill_range(&mut words, 0, size - 1);
        }
        Ok(IndexSet {
            words,
            size,
            count: size,
            first: 0,
        })
    }

    /// How many indices are in the set.
    pub fn count(&self) -> u32
        ensures { result ≡ count_below (flag self.now) (length self.now) }
    {
        self.count
    }

    /// Whether the index is in the set.
    pub fn has(&self, k: u32) -> bool
        ensures { result ≡ flag self.now k }
    {
        if k >= self.size {
            return false;
        }
        (self.words[(k / 64) as usize] >> (k % 64)) & 1 == 1
    }

    /// Takes out the indices from `lo` to `hi`.
    pub fn remove_range(&mut self, lo: u32, hi: u32)
        requires ordered { lo ≤ hi }
        requires in_range { hi < length self.old }
        ensures size { length self.new ≡ length self.old }
        ensures flags { (k : ℕ) → flag self.new k ≡ (flag self.old k && not (between lo hi k)) }
    {
        self.count -= clear_range(&mut self.words, lo, hi);
        self.first = lowest_left(&self.words, self.size, self.first, lo, hi);
    }

    /// Puts in the indices from `lo` to `hi`.
    pub fn put_back(&mut self, lo: u32, hi: u32)
        requires ordered { lo ≤ hi }
        requires in_range { hi < length self.old }
        ensures size { length self.new ≡ length self.old }
        ensures flags { (k : ℕ) → flag self.new k ≡ (flag self.old k || between lo hi k) }
    {
        self.count += fill_range(&mut self.words, lo, hi);
        self.first = self.first.min(lo);
    }

    /// Takes out all other indices than those from `lo` to `hi`.
    pub fn keep_range(&mut self, lo: u32, hi: u32)
        requires ordered { lo ≤ hi }
        requires in_range { hi < length self.old }
        ensures size { length self.new ≡ length self.old }
        ensures flags { (k : ℕ) → flag self.new k ≡ (flag self.old k && between lo hi k) }
    {
        let size = self.size();
        if 0 < lo {
            self.remove_range(0, lo - 1);
        }
        if hi < size - 1 {
            self.remove_range(hi + 1, size - 1);
        }
    }

    /// The number of indices that the set was made for.
    pub fn size(&self) -> u32
        ensures { result ≡ length self.now }
    {
        self.size
    }

    /// The least index of the set from `from` on.
    pub fn next(&self, from: u32) -> Option<u32>
        ensures { MatchOption result (HasNoneFrom self.now from) (λ k. IsNext self.now from k) }
    {
        if from > self.first {
            if self.count == 1 {
                return None;
            }
            return next_bit(&self.words, from);
        }
        if self.count == 0 {
            return None;
        }
        Some(self.first)
    }

    /// The last index of the run of indices of the set that begins at `from`, which is one of them.
    pub fn run_end(&self, from: u32) -> u32
        requires { flag self.now from ≡ true }
        ensures run { IsRun self.now from result }
        ensures small { result < INDEX_LIMIT }
    {
        match next_clear(&self.words, from) {
            Some(end) => end - 1,
            None => self.size - 1,
        }
    }

    /// The one index of the set, if it has exactly one.
    pub fn only(&self) -> Option<u32>
        ensures { MatchOption result ((k : ℕ) → IsOnly self.now k → ⊥) (λ k. IsOnly self.now k) }
    {
        if self.count != 1 {
            return None;
        }
        Some(self.first)
    }

    /// Whether each index of the set is in the other too, which was made for the same size.
    pub fn is_within(&self, other: &IndexSet) -> bool
        requires { length self.now ≡ length other.now }
        ensures { (result ≡ true) ↔ IsWithin self.now other.now }
    {
        are_within(&self.words, &other.words)
    }

    /// The same set. `NoMemory` where no memory is found.
    pub fn copy(&self, alloc: Global) -> Result<IndexSet, NoMemory>
        ensures { IfOk result (λ s. s ≡ self.now) }
    {
        Ok(IndexSet {
            words: Vec::from_slice(alloc, &self.words)?,
            size: self.size,
            count: self.count,
            first: self.first,
        })
    }
}

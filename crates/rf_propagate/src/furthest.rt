//! Hints on one carrier, by the index from which they take out.

use rf_base::NoMemory;
use rf_log::Hint;
use std::alloc::Global;

/// A hint, and the last index that it takes out.
#[derive(Clone, Copy)]
pub struct Reach {
    pub hi: u32,
    pub hint: Hint,
}

/// Hints on one carrier: of those that take out from one index on, the one that reaches furthest. Nothing is promised of them.
#[derive(Drop)]
pub struct Furthest {
    reaches: Vec<Option<Reach>>,
}

impl Furthest {
    /// No hints yet, on a carrier with so many indices. `NoMemory` where no memory is found.
    pub fn new(alloc: Global, size: u32) -> Result<Furthest, NoMemory> {
        let mut reaches = Vec::new(alloc);
        reaches.reserve(size as usize)?;
        for _ in 0..size {
            reaches.push(None)?;
        }
        Ok(Furthest { reaches })
    }

    /// The hint that takes out from this index on and reaches furthest. None where there is none.
    pub fn at(&self, lo: u32) -> Option<Reach> {
        *self.reaches.get(lo as usize)?
    }

    /// Whether a hint that takes out from `lo` to `hi` reaches further than those from `lo` on.
    pub fn is_further(&self, lo: u32, hi: u32) -> bool {
        match self.at(lo) {
            Some(reach) => hi > reach.hi,
            None => true,
        }
    }

    /// Takes a hint that takes out from `lo` to `hi`, where it reaches further than those from `lo` on.
    pub fn offer(&mut self, lo: u32, hi: u32, hint: Hint) {
        let at = lo as usize;
        if at < self.reaches.len() && self.is_further(lo, hi) {
            self.reaches[at] = Some(Reach { hi, hint });
        }
    }
}

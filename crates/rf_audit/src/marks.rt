//! The indices of one carrier as marks in a row, some of which are taken out.

ghost use Rattle.std.specs.Prelude.{◌≡◌, ℕ, ◌<◌, ◌≤◌, ◌&&◌, not, List, Bool, true, false, length, IfOk, MatchOption, nat_le, nat_lt};
ghost use Rattle.rf_log.specs.Box.{is_met};
ghost use Rattle.rf_audit.specs.Left.{has, IsFirstIn, HasNoneIn};

use rf_base::NoMemory;
use rf_log::Cond;
use std::alloc::Global;
use std::marker::Model;

/// The indices that are left to a carrier, a mark for each of its channels.
#[derive(Drop)]
pub(crate) struct Marks {
    items: Vec<bool>,
}

impl Model for Marks {
    ghost use Rattle.std.specs.Prelude.{List, Bool};

    ghost Value = { List Bool };

    ghost view = { λ m. m.items.items };
}

impl Marks {
    pub(crate) fn of(items: Vec<bool>) -> Marks
        ensures { result ≡ items.items }
    {
        Marks { items }
    }

    /// The same marks again.
    pub(crate) fn copy(&self, alloc: Global) -> Result<Marks, NoMemory>
        ensures { IfOk result (λ new. new ≡ self.now) }
    {
        let items = self.items.as_slice().to_vec(alloc)?;
        Ok(Marks { items })
    }

    /// Whether an index is left.
    pub(crate) fn has(&self, k: usize) -> bool
        ensures { result ≡ has self.now k }
    {
        k < self.items.len() && self.items[k]
    }

    /// The first index from `from` up to below `end` that is left.
    pub(crate) fn first(&self, from: usize, end: usize) -> Option<usize>
        requires within { end ≤ length self.now }
        ensures { MatchOption result (HasNoneIn self.now from end) (IsFirstIn self.now from end) }
    {
        for k in from..end {
            if self.items[k] {
                return Some(k);
            }
        }
        None
    }

    pub(crate) fn len(&self) -> usize
        ensures { result ≡ length self.now }
    {
        self.items.len()
    }

    /// Takes the indices from `from` up to below `end` out.
    pub(crate) fn clear(&mut self, from: usize, end: usize)
        requires order { from ≤ end }
        requires within { end ≤ length self.old }
        ensures same { length self.new ≡ length self.old }
        ensures cleared { (k : ℕ) → has self.new k ≡ (has self.old k && not (nat_le from k && nat_lt k end)) }
    {
        for k in from..end {
            self.items[k] = false;
        }
    }

    /// Leaves the indices that meet a condition.
    pub(crate) fn narrow(&mut self, cond: &Cond)
        ensures same { length self.new ≡ length self.old }
        ensures met { (k : ℕ) → has self.new k ≡ (has self.old k && is_met cond.now k) }
    {
        let count = self.items.len();
        let from = (cond.lo as usize).min(count);
        let end = (cond.hi as usize).min(count);
        let past = if end < count { end + 1 } else { count };
        if cond.inside {
            self.clear(0, from);
            self.clear(past, count);
        } else if from < past {
            self.clear(from, past);
        }
    }
}

//! A shelf in memory, which fails at the calls that are listed.

ghost use Rattle.std.specs.Prelude.{◌≡◌, ◌≢◌, ◌≤◌, ℕ, List, [], IfOk, Err, Some, map, vec_len};
ghost use Rattle.std.specs.declared.option.Option.{Option};
ghost use Rattle.std.specs.Option.{option_copied};
ghost use Rattle.rf_base.specs.Cause.{Rose};
ghost use Rattle.rf_base.specs.Shelf.{AsksOnce, Fetches, file_of};

use crate::asks::{Asked, Asks};
use crate::fault_counts::FaultCounts;
use crate::file_name::FileName;
use crate::shelf::{Fetch, Shelf};
use std::alloc::Global;

/// Files by name. The first entry of a name counts, and a name that has none is missing.
#[derive(Drop)]
pub struct MemShelf {
    files: Vec<(FileName, Vec<u8>)>,
    counts: FaultCounts,
    asks: Asks,
    calls: u64,
    fail: Vec<u64>,
}

impl MemShelf {
    ghost use Rattle.rf_base.specs.Asks.{ask_of};
    ghost use Rattle.rf_base.specs.Mem.{fails_at, FailsAs};

    /// A shelf of these files, which fails at the calls whose numbers, from 1, are in `fail`.
    pub fn new(alloc: Global, files: Vec<(FileName, Vec<u8>)>, fail: Vec<u64>) -> Self
        ensures files { (name : List ℕ) → ⟦<MemShelf as Shelf>⟧.file result name ≡ Some (file_of files.items name) }
        ensures faults { (name : List ℕ) → ⟦<MemShelf as Shelf>⟧.faults result name ≡ 0 }
        ensures asks { ⟦<MemShelf as Shelf>⟧.asked result ≡ Some [] }
        ensures fail { result.fail ≡ fail }
        ensures calls { result.calls ≡ 0 }
    {
        MemShelf {
            files,
            counts: FaultCounts::new(alloc),
            asks: Asks::new(alloc),
            calls: 0,
            fail,
        }
    }

    /// The names that were asked for, in order, each with whether it failed.
    pub fn asks(&self) -> &[Asked]
        ensures { ⟦<MemShelf as Shelf>⟧.asked self.now ≡ Some (map ask_of result.now) }
    {
        self.asks.all()
    }

    /// What this call answers, the one that was counted last.
    fn answer(&self, alloc: Global, name: &str, limit: usize) -> Result<Vec<u8>, Fetch>
        ensures bound { IfOk result (λ copy. vec_len copy ≤ limit) }
        ensures told { Fetches (Some (file_of self.now.files.items name.now)) limit result }
        ensures fails { FailsAs (fails_at self.now self.now.calls name.now) result }
    {
        if self.fail.contains(&self.calls) {
            return Err(Fetch::Failed);
        }
        match find_file(self.files.as_slice(), name) {
            Some(bytes) => copy_file(alloc, bytes, limit),
            None => Err(Fetch::Failed),
        }
    }
}

impl Shelf for MemShelf {
    ghost use Rattle.rf_base.specs.Asks.{asks_in};
    ghost use Rattle.rf_base.specs.FaultCounts.{count_of};
    ghost use Rattle.rf_base.specs.Mem.{one_more, fetch_fails, FailsAs, CountsFetch};

    ghost file = { λ s name. Some (file_of s.files.items name) };

    ghost faults = { λ s name. count_of s.counts name };

    ghost asked = { λ s. Some (asks_in s.asks) };

    fn fetch(&mut self, alloc: Global, name: &str, limit: usize) -> Result<Vec<u8>, Fetch>
        ensures bound { IfOk result (λ bytes. vec_len bytes ≤ limit) }
        ensures told { Fetches (Some (file_of self.old.files.items name.now)) limit result }
        ensures kept { self.new.files ≡ self.old.files }
        ensures later { count_of self.old.counts name.now ≤ count_of self.new.counts name.now }
        ensures others { (other : List ℕ) → other ≢ name.now → count_of self.new.counts other ≡ count_of self.old.counts other }
        ensures fault { result ≡ Err Fetch.Failed → Rose (count_of self.old.counts name.now) (count_of self.new.counts name.now) }
        ensures asks { AsksOnce (Some (asks_in self.old.asks)) (Some (asks_in self.new.asks)) name.now result }
        ensures fails { FailsAs (fetch_fails self.old name.now) result }
        ensures counts { CountsFetch (count_of self.old.counts name.now) (count_of self.new.counts name.now) result }
        ensures calls { self.new.calls ≡ one_more self.old.calls }
        ensures same { self.new.fail ≡ self.old.fail }
    {
        self.calls = self.calls.saturating_add(1);
        if self.counts.open(alloc, name).is_err() {
            return Err(Fetch::Memory);
        }
        let Ok(asked) = self.asks.open(alloc, name) else {
            return Err(Fetch::Memory);
        };
        let fetched = self.answer(alloc, name, limit);
        let failed = matches!(fetched, Err(Fetch::Failed));
        if failed {
            self.counts.raise(name);
        }
        self.asks.note(asked, failed);
        fetched
    }
}

/// The bytes of the first file of a name.
pub(crate) fn find_file<'a>(files: &'a [(FileName, Vec<u8>)], name: &str) -> Option<&'a [u8]>
    ensures { option_copied result ≡ file_of files.now name.now }
{
    for (file, bytes) in files {
        if file.text() == name {
            return Some(bytes.as_slice());
        }
    }
    None
}

/// A copy of a file's bytes, if there are at most `limit`.
pub(crate) fn copy_file(alloc: Global, bytes: &[u8], limit: usize) -> Result<Vec<u8>, Fetch>
    ensures bound { IfOk result (λ copy. vec_len copy ≤ limit) }
    ensures told { Fetches (Some (Some bytes.now)) limit result }
    ensures found { result ≡ Err Fetch.Failed → ⊥ }
{
    if bytes.len() > limit {
        return Err(Fetch::Large);
    }
    match bytes.to_vec(alloc) {
        Ok(copy) => Ok(copy),
        Err(_) => Err(Fetch::Memory),
    }
}

//! A source, a sink and a shelf in memory that never fail.

ghost use Rattle.std.specs.Prelude.{◌≡◌, ◌≢◌, ◌≤◌, ℕ, List, [], Some, None, Ok, Err, IfOk, length, min, vec_len};
ghost use Rattle.std.specs.Io.KnownBytes.{ReadConsumes};
ghost use Rattle.std.specs.declared.option.Option.{Option};
ghost use Rattle.rf_base.specs.Shelf.{AsksOnce, Fetches, clean_file_of};

use crate::asks::Asks;
use crate::file_name::FileName;
use crate::mem_shelf::{copy_file, find_file};
use crate::outside::{Failed, Sink, Source};
use crate::shelf::{Fetch, Shelf};
use std::alloc::Global;

/// Bytes that are given as they are asked for.
#[derive(Drop)]
pub struct CleanSource {
    bytes: Vec<u8>,
    given: usize,
    ghost in_range: { given ≤ vec_len bytes },
}

impl CleanSource {
    /// A source of these bytes.
    pub fn new(bytes: Vec<u8>) -> Self
        ensures { ⟦<CleanSource as Source>⟧.left result ≡ Some bytes.items }
    {
        CleanSource { bytes, given: 0 }
    }
}

impl Source for CleanSource {
    ghost use Rattle.rf_base.specs.Clean.{left_in};

    ghost left = { λ s. Some (left_in s) };

    ghost faults = { λ _. 0 };

    fn read(&mut self, room: &mut [u8]) -> Result<usize, Failed>
        ensures bound { IfOk result (λ count. count ≤ length room.new) }
        ensures bytes { ReadConsumes (Some (left_in self.old)) (Some (left_in self.new)) result room.new }
        ensures all { result ≡ Ok (min (length room.old) (length (left_in self.old))) }
    {
        let count = room.len().min(self.bytes.len() - self.given);
        let end = self.given + count;
        room[..count].copy_from_slice(&self.bytes[self.given..end]);
        self.given = end;
        Ok(count)
    }
}

/// Takes every piece whole, and keeps nothing.
#[derive(Drop)]
pub struct CleanSink;

impl CleanSink {
    /// A sink.
    pub fn new() -> Self {
        CleanSink
    }
}

impl Sink for CleanSink {
    ghost contents = { λ _. None };

    ghost faults = { λ _. 0 };

    fn write(&mut self, piece: &[u8]) -> Result<usize, Failed>
        ensures whole { result ≡ Ok (length piece.now) }
    {
        Ok(piece.len())
    }
}

/// Files by name. The first entry of a name counts, and a name that has none has an empty file.
#[derive(Drop)]
pub struct CleanShelf {
    files: Vec<(FileName, Vec<u8>)>,
    asks: Asks,
}

impl CleanShelf {
    /// A shelf of these files.
    pub fn new(files: Vec<(FileName, Vec<u8>)>) -> Self
        ensures files { (name : List ℕ) → ⟦<CleanShelf as Shelf>⟧.file result name ≡ clean_file_of files.items name }
        ensures asks { ⟦<CleanShelf as Shelf>⟧.asked result ≡ Some [] }
    {
        let asks = Asks::new(*files.allocator());
        CleanShelf { files, asks }
    }
}

impl Shelf for CleanShelf {
    ghost use Rattle.rf_base.specs.Asks.{asks_in};

    ghost file = { λ s name. clean_file_of s.files.items name };

    ghost faults = { λ _ name. 0 };

    ghost asked = { λ s. Some (asks_in s.asks) };

    fn fetch(&mut self, alloc: Global, name: &str, limit: usize) -> Result<Vec<u8>, Fetch>
        ensures bound { IfOk result (λ bytes. vec_len bytes ≤ limit) }
        ensures told { Fetches (clean_file_of self.old.files.items name.now) limit result }
        ensures kept { self.new.files ≡ self.old.files }
        ensures asks { AsksOnce (Some (asks_in self.old.asks)) (Some (asks_in self.new.asks)) name.now result }
        ensures found { result ≢ Err Fetch.Failed }
    {
        let Ok(asked) = self.asks.open(alloc, name) else {
            return Err(Fetch::Memory);
        };
        self.asks.note(asked, false);
        match find_file(self.files.as_slice(), name) {
            Some(bytes) => copy_file(alloc, bytes, limit),
            None => Ok(Vec::new(alloc)),
        }
    }
}

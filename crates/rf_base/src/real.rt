//! The real outside: a reader as a source, a writer as a sink, a folder as a shelf. Each counts its faults, and tells no contents.

ghost use Rattle.std.specs.Prelude.{◌≡◌, ◌≤◌, ◌<◌, ◌+◌, None, IfOk, OnErr, length, vec_len};
ghost use Rattle.std.specs.IoError.{error_kind};
ghost use Rattle.rf_base.specs.Real.{fetch_of};

use crate::fault_counts::FaultCounts;
use crate::outside::{Failed, Sink, Source};
use crate::shelf::{Fetch, Shelf};
use std::alloc::Global;
use std::fs;
use std::io::{Error, ErrorKind, Read, Write};
use std::rt::Files;

/// A reader, as standard input, as a source.
#[derive(Drop)]
pub struct StdSource<R> {
    reader: R,
    faults: u64,
}

impl<R: Read> StdSource<R> {
    /// A source of what the reader gives.
    pub fn new(reader: R) -> Self {
        StdSource { reader, faults: 0 }
    }
}

impl<R: Read> Source for StdSource<R> {
    ghost left = { λ _. None };

    ghost faults = { λ s. s.faults };

    fn read(&mut self, room: &mut [u8]) -> Result<usize, Failed> {
        match self.reader.read(room) {
            Ok(count) => Ok(count),
            Err(_) => {
                self.faults = self.faults.saturating_add(1);
                Err(Failed)
            }
        }
    }
}

/// A writer, as standard output, as a sink. One that takes nothing of a piece has failed.
#[derive(Drop)]
pub struct StdSink<W> {
    writer: W,
    faults: u64,
}

impl<W: Write> StdSink<W> {
    /// A sink whose pieces the writer takes.
    pub fn new(writer: W) -> Self {
        StdSink { writer, faults: 0 }
    }
}

impl<W: Write> Sink for StdSink<W> {
    ghost contents = { λ _. None };

    ghost faults = { λ s. s.faults };

    fn write(&mut self, piece: &[u8]) -> Result<usize, Failed> {
        match self.writer.write(piece) {
            Ok(count) if count > 0 || piece.is_empty() => Ok(count),
            _ => {
                self.faults = self.faults.saturating_add(1);
                Err(Failed)
            }
        }
    }
}

const CHUNK: usize = 65_536;

/// How often a read is tried that is interrupted.
const TRIES: usize = 1_001;

/// The files of the working folder.
#[derive(Drop)]
pub struct FolderShelf<R> {
    files: R,
    counts: FaultCounts,
}

impl<R: Files> FolderShelf<R> {
    /// A shelf of the files that a runtime reaches.
    pub fn new(alloc: Global, files: R) -> Self {
        FolderShelf {
            files,
            counts: FaultCounts::new(alloc),
        }
    }
}

impl<R: Files> Shelf for FolderShelf<R> {
    ghost use Rattle.rf_base.specs.FaultCounts.{count_of};

    ghost file = { λ _ name. None };

    ghost faults = { λ s name. count_of s.counts name };

    ghost asked = { λ _. None };

    fn fetch(&mut self, alloc: Global, name: &str, limit: usize) -> Result<Vec<u8>, Fetch> {
        if self.counts.open(alloc, name).is_err() {
            return Err(Fetch::Memory);
        }
        let fetched = match fs::open(&self.files, name) {
            Ok(mut file) => read_whole(alloc, &mut file, limit),
            Err(error) => Err(fault_of(&error)),
        };
        if fetched == Err(Fetch::Failed) {
            self.counts.raise(name);
        }
        fetched
    }
}

/// What the system's error means: want of memory where it says so.
fn fault_of(error: &Error) -> Fetch
    ensures { result ≡ fetch_of (error_kind error.now) }
{
    if error.kind() == ErrorKind::OutOfMemory {
        Fetch::Memory
    } else {
        Fetch::Failed
    }
}

/// One read, tried again where it was interrupted.
fn read_some<F: Read>(file: &mut F, room: &mut [u8]) -> Result<usize, Fetch>
    ensures { IfOk result (λ count. count ≤ length room.new) }
{
    for _ in 0..TRIES {
        match file.read(room) {
            Ok(count) => return Ok(count),
            Err(error) if error.kind() == ErrorKind::Interrupted => {}
            Err(error) => return Err(fault_of(&error)),
        }
    }
    Err(Fetch::Failed)
}

/// All that a reader gives, if it has at most `limit` bytes.
fn read_whole<F: Read>(alloc: Global, file: &mut F, limit: usize) -> Result<Vec<u8>, Fetch>
    ensures { IfOk result (λ bytes. vec_len bytes ≤ limit) }
{
    let mut bytes = Vec::new(alloc);
    let Ok(mut chunk) = vec![in alloc; 0; CHUNK] else {
        return Err(Fetch::Memory);
    };
    for _ in 0..u64::MAX {
        let count = read_some(file, chunk.as_mut_slice())?;
        if count == 0 {
            return Ok(bytes);
        }
        if count > limit - bytes.len() {
            return Err(Fetch::Large);
        }
        if bytes.extend_from_slice(&chunk[..count]).is_err() {
            return Err(Fetch::Memory);
        }
    }
    Err(Fetch::Large)
}

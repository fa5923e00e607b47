//! Sources, sinks and shelves: those in memory, those that never fail, and the real ones.
use crate::hold::{Broken, hold, told};
use rf_base::{
    CleanShelf, CleanSink, CleanSource, Failed, Fetch, FileName, FolderShelf, MemShelf, MemSink,
    Shelf, Sink, Source, Status, StdSink, StdSource, put,
};
use std::alloc::Global;
use std::fs;
use std::io::Cursor;
use std::test::Fail;

fn sinks_in_memory(alloc: Global) -> Result<(), Broken> {
    let Ok(mut sink) = MemSink::new(alloc, 8, 3, vec![in alloc; 4]?) else {
        return Err(Broken("memory"));
    };
    let whole = put(&mut sink, b"seven..").is_ok();
    let failed = put(&mut sink, b"8") == Err(Failed);
    hold(&[
        (whole, "a piece in three writes"),
        (failed, "the fourth write fails"),
        (
            sink.bytes() == b"seven..".as_slice(),
            "what was written stays",
        ),
    ])
}

/// Whether a shelf has a file of these bytes, where at most so many are asked for.
fn gives<S: Shelf>(shelf: &mut S, alloc: Global, name: &str, limit: usize, bytes: &[u8]) -> bool {
    match shelf.fetch(alloc, name, limit) {
        Ok(fetched) => fetched.as_slice() == bytes,
        Err(_) => false,
    }
}

/// Whether a shelf answers this fault.
fn faults<S: Shelf>(shelf: &mut S, alloc: Global, name: &str, limit: usize, fault: Fetch) -> bool {
    match shelf.fetch(alloc, name, limit) {
        Ok(_) => false,
        Err(answer) => answer == fault,
    }
}

fn shelves_in_memory(alloc: Global) -> Result<(), Broken> {
    let name = FileName::read(b"a.csv").ok_or("a file name")?;
    let files = vec![in alloc; (name, b"500,-80".to_vec(alloc)?)]?;
    let mut shelf = MemShelf::new(alloc, files, vec![in alloc; 4]?);
    let mut clean = CleanShelf::new(Vec::new(alloc));
    hold(&[
        (
            gives(&mut shelf, alloc, "a.csv", 7, b"500,-80"),
            "a file of seven bytes",
        ),
        (
            faults(&mut shelf, alloc, "a.csv", 6, Fetch::Large),
            "a byte too many",
        ),
        (
            faults(&mut shelf, alloc, "none.csv", 6, Fetch::Failed),
            "no such file",
        ),
        (
            faults(&mut shelf, alloc, "a.csv", 7, Fetch::Failed),
            "the fourth read fails",
        ),
        (
            gives(&mut clean, alloc, "none.csv", 6, b""),
            "each file is there",
        ),
    ])
}

/// Whether a shelf was asked for this name in this place, from 0, and failed or not.
fn asked(shelf: &MemShelf, place: usize, name: &str, failed: bool) -> bool {
    match shelf.asks().get(place) {
        Some(ask) => ask.name() == name && ask.has_failed() == failed,
        None => false,
    }
}

fn asks_in_memory(alloc: Global) -> Result<(), Broken> {
    let name = FileName::read(b"a.csv").ok_or("a file name")?;
    let files = vec![in alloc; (name, b"500,-80".to_vec(alloc)?)]?;
    let mut shelf = MemShelf::new(alloc, files, vec![in alloc; 3]?);
    let large = faults(&mut shelf, alloc, "a.csv", 6, Fetch::Large);
    let none = faults(&mut shelf, alloc, "none.csv", 6, Fetch::Failed);
    let third = faults(&mut shelf, alloc, "a.csv", 7, Fetch::Failed);
    hold(&[
        (large && none && third, "the third fetch fails"),
        (shelf.asks().len() == 3, "each fetch is one ask"),
        (asked(&shelf, 0, "a.csv", false), "a file that is too large"),
        (
            asked(&shelf, 1, "none.csv", true),
            "a file that isn't there",
        ),
        (asked(&shelf, 2, "a.csv", true), "a file whose fetch fails"),
    ])
}

fn exit_codes() -> Result<(), Broken> {
    hold(&[
        (Status::Done.exit_code() == 0, "done"),
        (Status::Refused.exit_code() == 1, "refused"),
        (Status::Words.exit_code() == 2, "words"),
        (Status::Read.exit_code() == 3, "read"),
        (Status::Write.exit_code() == 4, "write"),
        (Status::Shelf.exit_code() == 5, "shelf"),
        (Status::Memory.exit_code() == 6, "memory"),
        (Status::Long.exit_code() == 7, "long"),
    ])
}

fn clean_ends(alloc: Global) -> Result<(), Broken> {
    let mut source = CleanSource::new(b"ab".to_vec(alloc)?);
    let mut room = [0; 4];
    hold(&[
        (source.read(&mut room) == Ok(2), "all bytes at once"),
        (source.read(&mut room) == Ok(0), "the end"),
        (CleanSink::new().write(b"abc") == Ok(3), "a whole piece"),
    ])
}

fn real_ends() -> Result<(), Broken> {
    let mut source = StdSource::new(b"ab".as_slice());
    let mut read = [0; 4];
    let count = source.read(&mut read);
    let mut room = [0; 2];
    let mut sink = StdSink::new(Cursor::new(room.as_mut_slice()));
    hold(&[
        (count == Ok(2), "the bytes of a reader"),
        (read == [b'a', b'b', 0, 0], "and no others"),
        (sink.write(b"abc") == Ok(2), "as many as there is room for"),
        (sink.write(b"c") == Err(Failed), "no room is a fault"),
    ])
}

fn all(alloc: Global) -> Result<(), Broken> {
    sinks_in_memory(alloc)?;
    shelves_in_memory(alloc)?;
    asks_in_memory(alloc)?;
    exit_codes()?;
    clean_ends(alloc)?;
    real_ends()
}

#[test]
fn ends_in_memory_tell_their_bytes_and_faults(rt: HostRuntime) -> Result<(), Fail> {
    told(all(rt.alloc()))
}

#[test]
fn a_folder_gives_its_files(rt: HostRuntime) -> Result<(), Fail> {
    let alloc = rt.alloc();
    fs::write(&rt, "two_lines.txt", "first\nsecond\n")?;
    let mut shelf = FolderShelf::new(alloc, rt);
    let whole = gives(&mut shelf, alloc, "two_lines.txt", 13, b"first\nsecond\n");
    let large = faults(&mut shelf, alloc, "two_lines.txt", 12, Fetch::Large);
    let none = faults(&mut shelf, alloc, "none.txt", 12, Fetch::Failed);
    fs::remove_file(&rt, "two_lines.txt")?;
    told(hold(&[
        (whole, "a file of thirteen bytes"),
        (large, "a byte too many"),
        (none, "no such file"),
    ]))
}

//! Runs the worked cases of the files that its words name, tells each that comes to something else than it says, and how
//! many passed and failed. A word that ends in `.txt` names a file of cases; the bytes of another can be inserted by name.
#![tactic(auto)]

#[cfg(test)]
mod clean;

use anyhow::{Result, anyhow};
use rf_base::{FileName, MemShelf, MemSink, MemSource, Status};
use rf_cases::{Book, Fault, Given, Named, Outcome, Program};
use rf_session::run;
use std::alloc::Global;
use std::process::ExitCode;
use std::{env, fs};

fn main(rt: HostRuntime) -> ExitCode {
    let mut book = Book::new(rt.alloc());
    let read = read_files(&rt, &mut book);
    match tell(&rt, &book, read) {
        Ok(true) => ExitCode::from(0),
        _ => ExitCode::from(1),
    }
}

/// Runs the cases of all files.
fn read_files(rt: &HostRuntime, book: &mut Book) -> Result<()> {
    let mut names = env::args(rt)?;
    let _program = names.next();
    for name in names {
        read_file(rt, book, name.as_str())?;
    }
    Ok(())
}

/// Runs the cases of a file of cases, and lets later cases insert the bytes of another file.
fn read_file(rt: &HostRuntime, book: &mut Book, name: &str) -> Result<()> {
    let read = if name.ends_with(".txt") {
        let text = fs::read_to_string(rt, name)?;
        book.read(&mut InMemory { alloc: rt.alloc() }, text.as_str())
    } else {
        let bytes = fs::read(rt, name)?;
        book.add_named(name, bytes)
    };
    match read {
        Ok(()) => Ok(()),
        Err(Fault::Line(what)) => Err(anyhow!("{name} line {}: {what}", book.line())),
        Err(Fault::Memory) => Err(anyhow!("no memory")),
    }
}

/// Tells what came of the cases, and answers whether all is well: at least one was run, and each came to what it says.
fn tell(rt: &HostRuntime, book: &Book, read: Result<()>) -> Result<bool> {
    print!(rt; "{}", book.report())?;
    if let Err(error) = &read {
        println!(rt; "stopped: {error}")?;
    }
    println!(rt; "{} passed, {} failed", book.passed(), book.failed())?;
    Ok(read.is_ok() && book.failed() == 0 && book.passed() > 0)
}

/// The program over a source, a shelf and a sink in memory.
#[derive(Clone, Copy)]
struct InMemory {
    alloc: Global,
}

impl Program for InMemory {
    fn run(&mut self, given: Given) -> Result<Outcome, Fault> {
        let alloc = self.alloc;
        let Given {
            words,
            files,
            input,
            limits,
        } = given;
        if limits.most == 0 {
            return Err(Fault::Line("no call moves a byte"));
        }
        let mut source = MemSource::new(input, limits.most, call(alloc, limits.read)?);
        let mut shelf = MemShelf::new(alloc, shelved(alloc, files)?, call(alloc, limits.fetch)?);
        let faults = call(alloc, limits.write)?;
        let Ok(mut sink) = MemSink::new(alloc, limits.room, limits.most, faults) else {
            return Err(Fault::Memory);
        };
        let status = run_once(alloc, words.as_slice(), &mut source, &mut shelf, &mut sink);
        let written = sink.bytes().to_vec(alloc)?;
        Ok(Outcome {
            status: usize::from(status.exit_code()),
            written,
        })
    }
}

/// Calls the program.
fn run_once(
    alloc: Global,
    words: &[String],
    source: &mut MemSource,
    shelf: &mut MemShelf,
    sink: &mut MemSink,
) -> Status {
    run(alloc, words, source, shelf, sink)
}

/// The list of one call.
fn call(alloc: Global, number: usize) -> Result<Vec<u64>, Fault> {
    Ok(vec![in alloc; number as u64]?)
}

/// The files of a shelf.
fn shelved(alloc: Global, files: Vec<Named>) -> Result<Vec<(FileName, Vec<u8>)>, Fault> {
    let mut shelved = Vec::new(alloc);
    for file in files {
        let Some(name) = FileName::read(file.name.as_bytes()) else {
            return Err(Fault::Line("no file name"));
        };
        shelved.push((name, file.bytes))?;
    }
    Ok(shelved)
}

//! The program: it gives `run` the process's words, its standard input and output and the files of its working folder, and
//! ends with the status's number.
#![tactic(auto)]

use rf_base::{FolderShelf, NoMemory, Status, StdSink, StdSource};
use rf_session::run;
use std::env;
use std::io::{ErrorKind, writer};
use std::process::ExitCode;
use std::rt::Env;

fn main(rt: HostRuntime) -> ExitCode {
    let alloc = rt.alloc();
    let Ok(words) = words_of(&rt) else {
        return ExitCode::from(Status::Memory.exit_code());
    };
    let mut input = StdSource::new(rt.reader());
    let mut output = StdSink::new(writer(&rt));
    let mut shelf = FolderShelf::new(alloc, &rt);
    let status = run(alloc, &words, &mut input, &mut shelf, &mut output);
    ExitCode::from(status.exit_code())
}

/// The words after the program's name, and none where one of them is no text.
fn words_of(rt: &(impl Env + AllocGlobal)) -> Result<Vec<String>, NoMemory> {
    let mut words = Vec::new(rt.alloc());
    match env::args(rt) {
        Ok(all) => {
            for word in all.skip(1) {
                words.push(word)?;
            }
            Ok(words)
        }
        Err(error) if error.kind() == ErrorKind::OutOfMemory => Err(NoMemory),
        Err(_) => Ok(words),
    }
}

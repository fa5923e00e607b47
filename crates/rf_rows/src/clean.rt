//! The program over an outside in memory that never fails.
use rf_base::{CleanShelf, CleanSink, CleanSource, Status};
use rf_session::run_clean;
use std::alloc::{AllocError, Global};
use std::test::Fail;

/// What the program comes to with these words over this input, where every file is empty.
fn status_of(alloc: Global, words: &[&str], input: &[u8]) -> Result<Status, AllocError> {
    let mut all = Vec::new(alloc);
    for word in words {
        all.push(String::from_str(alloc, word)?)?;
    }
    let mut source = CleanSource::new(input.to_vec(alloc)?);
    let mut shelf = CleanShelf::new(Vec::new(alloc));
    let mut sink = CleanSink::new();
    Ok(run_clean(alloc, all.as_slice(), &mut source, &mut shelf, &mut sink))
}

#[test]
fn nothing_fails_outside(rt: HostRuntime) -> Result<(), Fail> {
    let alloc = rt.alloc();
    let served = status_of(alloc, &["session"], b"zone x\nquit\n")?;
    let refused = status_of(alloc, &["session"], b"undo\n")?;
    let empty_log = status_of(alloc, &["check", "show.txt", "log.txt"], b"")?;
    let no_command = status_of(alloc, &["sing"], b"")?;
    assert!(rt; served == Status::Done);
    assert!(rt; refused == Status::Refused);
    assert!(rt; empty_log == Status::Refused);
    assert!(rt; no_command == Status::Words);
    Ok(())
}

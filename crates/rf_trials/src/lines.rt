//! Script lines that no reply tells of, written again by their commands.
use crate::hold::{Broken, hold, told};
use rf_text::{command_text, read_command};
use std::alloc::Global;
use std::test::Fail;

/// Whether the command that a line writes is written like that.
fn writes(alloc: Global, line: &[u8], again: &[u8]) -> bool {
    let command = match read_command(line) {
        Ok(command) => command,
        Err(_) => return false,
    };
    match command_text(alloc, &command) {
        Ok(text) => text.as_slice() == again,
        Err(_) => false,
    }
}

fn is_written(alloc: Global, line: &[u8]) -> bool {
    writes(alloc, line, line)
}

/// Numbers that a show refuses are read and written like all others.
fn numbers_are_written(alloc: Global) -> Result<(), Broken> {
    let margin = b"profile a 500000 510000 25 350 0 100 50 0 999999999";
    hold(&[
        (read_command(b"").is_err(), "an empty line is no command"),
        (is_written(alloc, b"set a 0"), "a frequency that is none"),
        (is_written(alloc, margin), "a margin above all limits"),
    ])
}

fn lines_are_written(alloc: Global) -> Result<(), Broken> {
    hold(&[
        (is_written(alloc, b"unban 1"), "unban"),
        (is_written(alloc, b"unscan 16"), "unscan"),
        (is_written(alloc, b"profiles p.toml"), "profiles"),
        (is_written(alloc, b"products 500700 500900"), "products"),
        (is_written(alloc, b"solve 0"), "solve"),
        (is_written(alloc, b"place 20000"), "place"),
        (is_written(alloc, b"free a"), "free"),
        (is_written(alloc, b"widen 20001"), "widen"),
        (is_written(alloc, b"why 0"), "why"),
        (is_written(alloc, b"spares P main 33"), "spares"),
        (is_written(alloc, b"quit"), "quit"),
        (is_written(alloc, b"ban 470000 480000 stage"), "ban"),
    ])
}

fn decimals_are_written(alloc: Global) -> Result<(), Broken> {
    let whole = writes(
        alloc,
        b"scan a;b main +070.2500 0 semicolon",
        b"scan a;b main 70.25 0 semicolon",
    );
    let nought = writes(
        alloc,
        b"scan s.csv main -0.0000000009 1 tab",
        b"scan s.csv main 0 1 tab",
    );
    hold(&[
        (whole, "a decimal without needless signs and noughts"),
        (nought, "digits past the ninth are nought"),
    ])
}

fn all(alloc: Global) -> Result<(), Broken> {
    numbers_are_written(alloc)?;
    lines_are_written(alloc)?;
    decimals_are_written(alloc)
}

#[test]
fn lines_are_read_and_written_again(rt: HostRuntime) -> Result<(), Fail> {
    told(all(rt.alloc()))
}

//! The texts of logs, read and written.
ghost use Rattle.std.specs.Prelude.{length};
ghost use Rattle.rf_log.specs.LineTexts.{IsShortLine};
ghost use Rattle.rf_log.specs.LogText.{IsLineBelow};

use crate::hold::{Broken, hold, told};
use rf_base::{Items, Name};
use rf_log::{Cond, Conds, Cut, Log, LogLine, LogText, line_text, read_log};
use std::alloc::Global;
use std::test::Fail;

/// The log that a text writes, or the number of its first bad line, which is 0 where the text can't be read.
pub(crate) fn log_of(alloc: Global, text: &[u8]) -> Result<Log, u32> {
    if text.len() > u32::MAX as usize {
        return Err(0);
    }
    match read_log(alloc, text) {
        Ok(log) => Ok(log),
        Err(LogText::BadLine { line }) => Err(line),
        Err(LogText::Memory) => Err(0),
    }
}

fn cond(carrier: u32) -> Cond {
    Cond {
        carrier,
        inside: carrier % 2 == 0,
        lo: 1,
        hi: 3,
    }
}

fn conditions_keep_their_order(alloc: Global) -> Result<(), Broken> {
    let mut conds = Conds::new(alloc);
    for carrier in 0..20 {
        conds.push(cond(carrier))?;
    }
    let mut carrier = 0;
    for kept in conds.as_slice() {
        hold(&[(kept.carrier == carrier, "the next condition")])?;
        carrier = kept.carrier.saturating_add(1);
    }
    hold(&[(carrier == 20, "twenty conditions")])
}

/// How many lines and names the log of a text has.
fn sizes(alloc: Global, text: &[u8]) -> Option<(usize, usize)> {
    match log_of(alloc, text) {
        Ok(log) => Some((log.lines().len(), log.names().len())),
        Err(_) => None,
    }
}

const REFUTED: &str =
    "b fix a 0\nn in a 0 0 ; rule spacing a b 2 0 1\nu 2\nn out a 0 0 ; rule spacing a b 2 0 1\nu 4\n";

const KEYWORDS: &str =
    "n in in 0 1 out n 2 2 in line 0 0 ; line 3 ban line 0 4 rule 2a+b-2c ban rule 7 u 4 1 2\nplan\n?";

fn texts_are_read(alloc: Global) -> Result<(), Broken> {
    let empty = b"n ; ban zz 0 0\nn ;\nb split in 999999999\n";
    hold(&[
        (sizes(alloc, b"") == Some((0, 0)), "no line"),
        (
            sizes(alloc, REFUTED.as_bytes()) == Some((5, 2)),
            "a closed log",
        ),
        (
            sizes(alloc, empty) == Some((3, 2)),
            "lines without conditions",
        ),
        (
            sizes(alloc, KEYWORDS.as_bytes()) == Some((1, 7)),
            "keywords as names, and a verdict",
        ),
    ])
}

/// The number of the first bad line of a text, 0 where it has none.
fn bad_line(alloc: Global, text: &[u8]) -> u32 {
    match log_of(alloc, text) {
        Ok(_) => 0,
        Err(line) => line,
    }
}

fn bad_lines(alloc: Global) -> Result<(), Broken> {
    let none_left = b"n ; rule spacing a b 0 0 1";
    let beyond = b"n ; rule spacing a b 3 0 1";
    hold(&[
        (
            bad_line(alloc, b"n in a 0 ;\n") == 1,
            "a condition without its end",
        ),
        (bad_line(alloc, b"u 1\nu 01\n") == 2, "a nought in front"),
        (bad_line(alloc, b"u 1\n\nu 1\n") == 2, "an empty line"),
        (bad_line(alloc, none_left) == 1, "role 0"),
        (bad_line(alloc, beyond) == 1, "role 3 of two"),
        (bad_line(alloc, b"b fix a 0\r\n") == 1, "a carriage return"),
    ])?;
    hold(&[
        (bad_line(alloc, b"n ; line 1 \n") == 1, "a blank at the end"),
        (bad_line(alloc, b"plans\n") == 1, "a longer word"),
        (bad_line(alloc, b"spent\n") == 1, "no number"),
        (
            bad_line(alloc, b"u 1\nrefuted\nplan\n?\n") == 0,
            "nothing is read behind a verdict",
        ),
        (
            bad_line(alloc, b"u 1\nspent 12\n?\n") == 0,
            "nor behind a budget",
        ),
    ])
}

fn is_written(alloc: Global, line: &LogLine, names: &[Name], text: &[u8]) -> bool
    requires known { IsLineBelow (length names.now) line.now }
    requires short { IsShortLine line.now }
{
    match line_text(alloc, line, names) {
        Ok(written) => written.as_slice() == text,
        Err(_) => false,
    }
}

fn lines_are_written(alloc: Global) -> Result<(), Broken> {
    let a = Name::read(b"a").ok_or("a name")?;
    let b = Name::read(b"b").ok_or("a name")?;
    let names = [a, b];
    let fix = LogLine::Branch {
        cut: Cut::Fix,
        carrier: 0,
        at: 0,
    };
    let split = LogLine::Branch {
        cut: Cut::Split,
        carrier: 1,
        at: 999_999_999,
    };
    let nogood = LogLine::Nogood {
        conds: Conds::new(alloc),
        hints: Items::from_vec(Vec::new(alloc)),
    };
    let up = LogLine::Up { line: 4 };
    hold(&[
        (
            is_written(alloc, &fix, &names, b"b fix a 0\n"),
            "one channel alone",
        ),
        (
            is_written(alloc, &split, &names, b"b split b 999999999\n"),
            "up to the last channel",
        ),
        (is_written(alloc, &up, &names, b"u 4\n"), "the other side"),
        (
            is_written(alloc, &nogood, &names, b"n ;\n"),
            "no conditions and no hints",
        ),
    ])
}

fn all(alloc: Global) -> Result<(), Broken> {
    conditions_keep_their_order(alloc)?;
    texts_are_read(alloc)?;
    bad_lines(alloc)?;
    lines_are_written(alloc)
}

#[test]
fn logs_are_read_and_written_by_their_grammar(rt: HostRuntime) -> Result<(), Fail> {
    told(all(rt.alloc()))
}

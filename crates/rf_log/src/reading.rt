//! How one line of a log is read, by its first word.

ghost use Rattle.std.specs.Prelude.{◌≡◌, ◌≤◌, [], length, IfOk, option_map, ℕ, List};
ghost use Rattle.rf_log.specs.Reading as spec;

use crate::cond::Cond;
use crate::conds::Conds;
use crate::hint::Hint;
use crate::line::LogLine;
use crate::names::Names;
use crate::operand::{Operand, take_place, take_target};
use crate::words::{Words, only, take};
use rf_base::{Items, NoMemory};
use rf_terms::roles;
use std::alloc::Global;

/// The line that bytes write, whose names are numbered; None where no line is written so.
pub(crate) fn read_line(
    alloc: Global,
    names: &mut Names,
    line: &[u8],
) -> Result<Option<LogLine>, NoMemory>
    ensures { IfOk result (λ read. option_map (λ line. (line, names.new)) read ≡ spec.line_in names.old line.now) }
{
    let mut words = Words::of(line);
    let Some(word) = words.next() else {
        return Ok(None);
    };
    if word == "n".as_bytes() {
        return read_nogood(alloc, line.len(), names, words);
    }
    if word == "b".as_bytes() {
        return read_branch(names, words);
    }
    if word == "u".as_bytes() {
        return Ok(read_up(words));
    }
    Ok(None)
}

fn read_up(words: Words<'_>) -> Option<LogLine>
    ensures { (names : List (List ℕ)) → option_map (λ line. (line, names)) result ≡ spec.up_in names words.entry }
{
    let line = only(words)?;
    Some(LogLine::Up { line })
}

fn read_branch(names: &mut Names, mut words: Words<'_>) -> Result<Option<LogLine>, NoMemory>
    ensures { IfOk result (λ read. option_map (λ line. (line, names.new)) read ≡ spec.branch_in names.old words.entry) }
{
    let Some(cut) = take(&mut words) else {
        return Ok(None);
    };
    let Some(name) = take(&mut words) else {
        return Ok(None);
    };
    let Some(at) = only(words) else {
        return Ok(None);
    };
    let carrier = names.number(name)?;
    Ok(Some(LogLine::Branch { cut, carrier, at }))
}

fn read_nogood(
    alloc: Global,
    most: usize,
    names: &mut Names,
    mut words: Words<'_>,
) -> Result<Option<LogLine>, NoMemory>
    ensures { IfOk result (λ read. option_map (λ line. (line, names.new)) read ≡ spec.nogood_in most names.old words.entry) }
{
    let Some(conds) = read_conds(alloc, most, names, &mut words)? else {
        return Ok(None);
    };
    let Some(hints) = read_hints(alloc, most, names, words)? else {
        return Ok(None);
    };
    Ok(Some(LogLine::Nogood { conds, hints }))
}

// The conditions up to `;`, of which there are at most so many.
fn read_conds(
    alloc: Global,
    most: usize,
    names: &mut Names,
    words: &mut Words<'_>,
) -> Result<Option<Conds>, NoMemory>
    ensures { IfOk result (λ read. option_map (λ conds. (conds, names.new, words.new)) read ≡ spec.conds_in most [] names.old words.old) }
{
    let mut conds = Conds::new(alloc);
    for _ in 0..most {
        let Some(word) = words.next() else {
            return Ok(None);
        };
        if word == ";".as_bytes() {
            return Ok(Some(conds));
        }
        let Some(cond) = read_cond(word, names, words)? else {
            return Ok(None);
        };
        conds.push(cond)?;
    }
    Ok(None)
}

// The condition that a word and those after it write.
fn read_cond(
    word: &[u8],
    names: &mut Names,
    words: &mut Words<'_>,
) -> Result<Option<Cond>, NoMemory>
    ensures { IfOk result (λ read. option_map (λ cond. (cond, names.new, words.new)) read ≡ spec.cond_by word.now names.old words.old) }
{
    let Some(inside) = bool::read(word) else {
        return Ok(None);
    };
    let Some((name, lo, hi)) = take_place(words) else {
        return Ok(None);
    };
    let carrier = names.number(name)?;
    Ok(Some(Cond {
        carrier,
        inside,
        lo,
        hi,
    }))
}

// The hints up to the end of the line, of which there are at most so many.
fn read_hints(
    alloc: Global,
    most: usize,
    names: &mut Names,
    mut words: Words<'_>,
) -> Result<Option<Items<Hint>>, NoMemory>
    ensures { IfOk result (λ read. option_map (λ hints. (hints, names.new)) read ≡ spec.hints_in most [] names.old words.entry) }
{
    let mut hints = Vec::new(alloc);
    for _ in 0..most {
        let Some(word) = words.next() else {
            return Ok(Some(Items::from_vec(hints)));
        };
        let Some(hint) = read_hint(word, names, &mut words)? else {
            return Ok(None);
        };
        hints.push(hint)?;
    }
    Ok(None)
}

// The hint that a word and those after it write.
fn read_hint(
    word: &[u8],
    names: &mut Names,
    words: &mut Words<'_>,
) -> Result<Option<Hint>, NoMemory>
    ensures { IfOk result (λ read. option_map (λ hint. (hint, names.new, words.new)) read ≡ spec.hint_by word.now names.old words.old) }
{
    if word == "line".as_bytes() {
        return Ok(read_earlier(words));
    }
    if word == "ban".as_bytes() {
        return read_ban(names, words);
    }
    if word == "rule".as_bytes() {
        return read_rule(names, words);
    }
    Ok(None)
}

fn read_earlier(words: &mut Words<'_>) -> Option<Hint>
    ensures { (names : List (List ℕ)) → option_map (λ hint. (hint, names, words.new)) result ≡ spec.line_hint_in names words.old }
{
    let line = take(words)?;
    Some(Hint::Earlier { line })
}

fn read_ban(names: &mut Names, words: &mut Words<'_>) -> Result<Option<Hint>, NoMemory>
    ensures { IfOk result (λ read. option_map (λ hint. (hint, names.new, words.new)) read ≡ spec.ban_in names.old words.old) }
{
    let Some((name, lo, hi)) = take_place(words) else {
        return Ok(None);
    };
    let carrier = names.number(name)?;
    Ok(Some(Hint::Ban { carrier, lo, hi }))
}

fn read_rule(names: &mut Names, words: &mut Words<'_>) -> Result<Option<Hint>, NoMemory>
    ensures { IfOk result (λ read. option_map (λ hint. (hint, names.new, words.new)) read ≡ spec.rule_in names.old words.old) }
{
    let Some(kind) = take(words) else {
        return Ok(None);
    };
    let Some(roles) = read_roles(roles(kind), names, words)? else {
        return Ok(None);
    };
    let Some((target, lo, hi)) = take_target(words, kind) else {
        return Ok(None);
    };
    Ok(Some(Hint::Rule {
        kind,
        roles,
        target,
        lo,
        hi,
    }))
}

// So many names, numbered; further roles are 0.
fn read_roles(
    count: usize,
    names: &mut Names,
    words: &mut Words<'_>,
) -> Result<Option<[u32; 4]>, NoMemory>
    requires { count ≤ 4 }
    ensures { IfOk result (λ read. option_map (λ roles. (roles, names.new, words.new)) read ≡ spec.roles_in count 0 spec.no_roles names.old words.old) }
{
    let mut roles = [0; 4];
    for place in 0..count {
        let Some(name) = take(words) else {
            return Ok(None);
        };
        roles[place] = names.number(name)?;
    }
    Ok(Some(roles))
}

//! The text of a line of a case: bytes and escapes.

use crate::fault::Fault;
use std::alloc::Global;

/// Appends the bytes that a text means, and a line feed unless the text ends in a single `\`.
pub(crate) fn append_line(out: &mut Vec<u8>, text: &str) -> Result<(), Fault> {
    if append(out, text.as_bytes())? {
        out.push(b'\n')?;
    }
    Ok(())
}

/// Appends N times the bytes that a text means, where `rest` is N, a blank and the text.
pub(crate) fn append_times(alloc: Global, out: &mut Vec<u8>, rest: &str) -> Result<(), Fault> {
    let Some((count, text)) = rest.split_once(' ') else {
        return Err(Fault::Line("no count and text"));
    };
    let mut once = Vec::new(alloc);
    append(&mut once, text.as_bytes())?;
    for _ in 0..number(count)? {
        out.extend_from_slice(once.as_slice())?;
    }
    Ok(())
}

/// The number that a text writes, at most a hundred million.
pub(crate) fn number(text: &str) -> Result<usize, Fault> {
    match text.parse::<usize>() {
        Ok(value) if value <= 100_000_000 => Ok(value),
        _ => Err(Fault::Line("no line of the format, or no number up to 100000000")),
    }
}

/// Appends the bytes that a text means, and answers whether it doesn't end in a single `\`.
///
/// `\\` is a backslash, `\r` and `\n` are a carriage return and a line feed, and `\xHH` is the byte of two hexadecimal digits.
fn append(out: &mut Vec<u8>, text: &[u8]) -> Result<bool, Fault> {
    let mut left = text;
    for _ in 0..text.len() {
        match left {
            [] => break,
            [b'\\'] => return Ok(false),
            _ => {
                let (byte, rest) = first_of(left)?;
                out.push(byte)?;
                left = rest;
            }
        }
    }
    Ok(true)
}

/// The first byte that a text means, and the rest of the text.
fn first_of(text: &[u8]) -> Result<(u8, &[u8]), Fault> {
    match text {
        [b'\\', b'\\', rest @ ..] => Ok((b'\\', rest)),
        [b'\\', b'r', rest @ ..] => Ok((b'\r', rest)),
        [b'\\', b'n', rest @ ..] => Ok((b'\n', rest)),
        [b'\\', b'x', high, low, rest @ ..] => match (digit(*high), digit(*low)) {
            (Some(high), Some(low)) => Ok((high << 4 | low, rest)),
            _ => Err(Fault::Line("no hexadecimal digits")),
        },
        [b'\\', ..] | [] => Err(Fault::Line("no such escape")),
        [byte, rest @ ..] => Ok((*byte, rest)),
    }
}

/// The value of a hexadecimal digit.
fn digit(byte: u8) -> Option<u8> {
    let value = char::from(byte).to_digit(16)?;
    u8::try_from(value).ok()
}

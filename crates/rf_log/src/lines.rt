//! How a log's text falls into lines, and which line ends it.

ghost use Rattle.std.specs.Prelude.{◌≡◌, ◌<◌, ◌∷◌, [], MatchOption, length};
ghost use Rattle.rf_log.specs.LogText as text;
ghost use Rattle.rf_log.specs.Words as spec;

use crate::words::{Words, only};
use std::marker::Model;

/// The lines of a log's text that are left, up to the first that ends the log.
#[derive(Drop)]
pub(crate) struct Lines<'a> {
    rest: &'a [u8],
}

impl<'a> Model for Lines<'a> {
    ghost use Rattle.std.specs.Prelude.{ℕ, List};
    ghost use Rattle.rf_log.specs.LogText.{before_ending};
    ghost use Rattle.rf_log.specs.Words.{lines_in};

    ghost Value = { List (List ℕ) };

    ghost view = { λ lines. before_ending (lines_in lines.rest.now) };
}

impl<'a> Lines<'a> {
    pub(crate) fn of(bytes: &'a [u8]) -> Lines<'a>
        ensures { result ≡ text.before_ending (spec.lines_in bytes.now) }
    {
        Lines { rest: bytes }
    }

    /// Takes the first line.
    pub(crate) fn next(&mut self) -> Option<&'a [u8]>
        ensures { MatchOption result (self.old ≡ []) (λ line. self.old ≡ line.now ∷ self.new) }
    {
        if self.rest.is_empty() {
            return None;
        }
        let (line, rest) = first_line(self.rest);
        if is_ending(line) {
            return None;
        }
        self.rest = rest;
        Some(line)
    }
}

// The first line of a text that is not empty, and what is left after it.
fn first_line(bytes: &[u8]) -> (&[u8], &[u8])
    requires { 0 < length bytes.now }
    ensures { spec.lines_in bytes.now ≡ result.0.now ∷ spec.lines_in result.1.now }
{
    match feed_of(bytes) {
        None => (bytes, &[]),
        Some(feed) => (&bytes[..feed], &bytes[feed + 1..]),
    }
}

// Where the first line feed stands.
fn feed_of(bytes: &[u8]) -> Option<usize>
    ensures { result ≡ spec.feed_of bytes.now }
{
    bytes.iter().position(|byte| *byte == b'\n')
}

// Whether the line is `plan`, `refuted`, or `spent` with a number.
fn is_ending(line: &[u8]) -> bool
    ensures { result ≡ text.is_ending line.now }
{
    line == "plan".as_bytes() || line == "refuted".as_bytes() || is_spent(Words::of(line))
}

fn is_spent(mut words: Words<'_>) -> bool
    ensures { result ≡ text.is_spent words.entry }
{
    match words.next() {
        None => false,
        Some(word) => word == "spent".as_bytes() && only::<u32>(words).is_some(),
    }
}

//! How a line of a log falls into words, which are taken one after another.

ghost use Rattle.std.specs.Prelude.{◌≡◌, ◌∷◌, [], MatchOption, option_map};
ghost use Rattle.rf_log.specs.Operands as operand;
ghost use Rattle.rf_log.specs.Words as spec;
ghost use Rattle.rf_base.specs.Words.{is_space, space_of};

use crate::operand::Operand;
use std::marker::Model;

/// The words of a line that are left.
#[derive(Drop)]
pub(crate) struct Words<'a> {
    rest: Option<&'a [u8]>,
}

impl<'a> Model for Words<'a> {
    ghost use Rattle.std.specs.Prelude.{ℕ, List};
    ghost use Rattle.rf_log.specs.Words.{words_left};

    ghost Value = { List (List ℕ) };

    ghost view = { λ words. words_left words.rest };
}

impl<'a> Words<'a> {
    /// The parts of a line between single spaces.
    pub(crate) fn of(line: &'a [u8]) -> Words<'a>
        ensures { result ≡ spec.words_in line.now }
    {
        Words { rest: Some(line) }
    }

    /// Takes the first word.
    pub(crate) fn next(&mut self) -> Option<&'a [u8]>
        ensures { MatchOption result (self.old ≡ []) (λ word. self.old ≡ word.now ∷ self.new) }
    {
        let (word, rest) = first_part(self.rest?);
        self.rest = rest;
        Some(word)
    }
}

/// Takes the first word for what it is read as.
pub(crate) fn take<A: Operand>(words: &mut Words<'_>) -> Option<A>
    ensures { option_map (λ x. (x, words.new)) result ≡ operand.taken A.reads words.old }
{
    A::read(words.next()?)
}

/// What the word is read as, where it is the only one.
pub(crate) fn only<A: Operand>(mut words: Words<'_>) -> Option<A>
    ensures { result ≡ operand.only A.reads words.entry }
{
    let word = words.next()?;
    match words.next() {
        None => A::read(word),
        Some(_) => None,
    }
}

// What stands before the first space, and what is left after it.
fn first_part(line: &[u8]) -> (&[u8], Option<&[u8]>)
    ensures { spec.words_in line.now ≡ result.0.now ∷ spec.words_left result.1 }
{
    match space_of(line) {
        None => (line, None),
        Some(space) => (&line[..space], Some(&line[space + 1..])),
    }
}

// Where the first space stands.
fn space_of(line: &[u8]) -> Option<usize>
    ensures { result ≡ space_of line.now }
{
    line.iter().position(|byte| *byte == b' ')
}

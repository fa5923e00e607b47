//! How a script line falls into words, which are taken one after another.

ghost use Rattle.std.specs.Prelude.{◌≡◌, ◌∷◌, [], option_map, MatchOption};
ghost use Rattle.std.specs.List.{list_all, slice_split};
ghost use Rattle.rf_text.specs.Words as spec;
ghost use Rattle.rf_base.specs.Words.{is_space, is_word_byte, space_of};

use std::marker::Model;

/// The words of a line that are left.
#[derive(Drop)]
pub(crate) struct Words<'a> {
    rest: Option<&'a [u8]>,
}

impl<'a> Model for Words<'a> {
    ghost use Rattle.std.specs.Prelude.{ℕ, List};
    ghost use Rattle.rf_text.specs.Words.{parts_of};

    ghost Value = { List (List ℕ) };

    ghost view = { λ words. parts_of words.rest };
}

impl<'a> Words<'a> {
    /// The words of a line. None where a byte is outside space and `!` to `~`, and where a space stands at its front, at
    /// its end or beside another.
    #[tactic(auto, unfolding(crate::specs::Words::words_of))]
    pub(crate) fn of(line: &'a [u8]) -> Option<Words<'a>>
        ensures { result ≡ spec.words_of line.now }
    {
        if !are_words(line) {
            return None;
        }
        Some(Words { rest: Some(line) })
    }

    /// Takes the first word.
    pub(crate) fn next(&mut self) -> Option<&'a [u8]>
        ensures { MatchOption result (self.old ≡ []) (λ word. self.old ≡ word.now ∷ self.new) }
    {
        let (word, rest) = first_part(self.rest?);
        self.rest = rest;
        Some(word)
    }

    /// The word that is left, where it is the only one.
    pub(crate) fn only(mut self) -> Option<&'a [u8]>
        ensures { option_map (λ word. word.now) result ≡ spec.only self.entry }
    {
        let word = self.next()?;
        match self.next() {
            None => Some(word),
            Some(_) => None,
        }
    }

    /// Whether no word is left.
    pub(crate) fn is_empty(mut self) -> bool
        ensures { result ≡ spec.is_empty self.entry }
    {
        self.next().is_none()
    }
}

// What stands before the first space, and what is left after it.
fn first_part(line: &[u8]) -> (&[u8], Option<&[u8]>)
    ensures { slice_split is_space line.now ≡ result.0.now ∷ spec.parts_of result.1 }
{
    match space_of(line) {
        None => (line, None),
        Some(space) => (&line[..space], Some(&line[space + 1..])),
    }
}

// Where the first space stands.
fn space_of(line: &[u8]) -> Option<usize>
    ensures { result ≡ space_of line.now }
{
    line.iter().position(|byte| *byte == b' ')
}

// The parts of a line between single spaces are words.
fn are_words(line: &[u8]) -> bool
    ensures { result ≡ list_all spec.is_word (slice_split is_space line.now) }
{
    line.split(|byte| *byte == b' ').all(|part| is_word(part))
}

fn is_word(part: &[u8]) -> bool
    ensures { result ≡ spec.is_word part.now }
{
    !part.is_empty() && are_word_bytes(part)
}

fn are_word_bytes(part: &[u8]) -> bool
    ensures { result ≡ list_all is_word_byte part.now }
{
    part.iter().all(|byte| *byte >= b'!' && *byte <= b'~')
}

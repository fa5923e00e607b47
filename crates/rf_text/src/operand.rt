//! The operands of a line, each read as what its command takes.

ghost use Rattle.std.specs.Prelude.{◌≡◌, ℕ, List, option_map};
ghost use Rattle.std.specs.declared.option.Option.{Option};
ghost use Rattle.rf_base.specs.Name.{name_of};
ghost use Rattle.rf_base.specs.Decimal.{number_of};
ghost use Rattle.rf_base.specs.FileName.{file_name_of};
ghost use Rattle.rf_text.specs.Decimals.{decimal_in};
ghost use Rattle.rf_text.specs.Separators.{sep_of};
ghost use Rattle.rf_text.specs.Operands as spec;

use crate::separator::read_sep;
use crate::words::Words;
use rf_base::{Decimal, FileName, Name, read_decimal, read_number};
use rf_exclusions::Sep;
use rf_profiles::Profile;

/// How many numbers the line of a profile has at least: all but the last.
pub(crate) const FEWEST_NUMBERS: usize = Profile::NUMBERS - 1;

/// What a word of a line is read as.
pub(crate) trait Operand: Copy {
    /// What a word is.
    ghost reads: { List ℕ → Option Self };

    /// What the word is, or None where it is outside the grammar.
    fn read(word: &[u8]) -> Option<Self>
        ensures { result ≡ reads word.now };
}

impl Operand for Name {
    ghost reads = { name_of };

    fn read(word: &[u8]) -> Option<Name> {
        Name::read(word)
    }
}

impl Operand for u32 {
    ghost reads = { number_of };

    fn read(word: &[u8]) -> Option<u32> {
        read_number(word)
    }
}

impl Operand for FileName {
    ghost reads = { file_name_of };

    fn read(word: &[u8]) -> Option<FileName> {
        FileName::read(word)
    }
}

impl Operand for Decimal {
    ghost reads = { decimal_in };

    fn read(word: &[u8]) -> Option<Decimal> {
        read_decimal(word)
    }
}

impl Operand for Sep {
    ghost reads = { sep_of };

    fn read(word: &[u8]) -> Option<Sep> {
        read_sep(word)
    }
}

/// No operand.
pub(crate) fn none(words: Words<'_>) -> Option<()>
    ensures { result ≡ spec.none words.entry }
{
    words.is_empty().then_some(())
}

/// One operand.
pub(crate) fn one<A: Operand>(words: Words<'_>) -> Option<A>
    ensures { result ≡ spec.one A.reads words.entry }
{
    A::read(words.only()?)
}

/// One operand, or none.
pub(crate) fn at_most_one<A: Operand>(mut words: Words<'_>) -> Option<Option<A>>
    ensures { result ≡ spec.at_most_one A.reads words.entry }
{
    let Some(word) = words.next() else {
        return Some(None);
    };
    if !words.is_empty() {
        return None;
    }
    Some(Some(A::read(word)?))
}

/// Two operands.
pub(crate) fn two<A: Operand, B: Operand>(mut words: Words<'_>) -> Option<(A, B)>
    ensures { result ≡ spec.two A.reads B.reads words.entry }
{
    let first = A::read(words.next()?)?;
    let second = one(words)?;
    Some((first, second))
}

/// Three operands.
pub(crate) fn three<A: Operand, B: Operand, C: Operand>(mut words: Words<'_>) -> Option<(A, B, C)>
    ensures { option_map (λ w. (w.0, (w.1, w.2))) result ≡ spec.three A.reads B.reads C.reads words.entry }
{
    let first = A::read(words.next()?)?;
    let (second, third) = two(words)?;
    Some((first, second, third))
}

/// The numbers of a profile after its name, of which the last is 0 where it is left out.
#[tactic(auto, unfolding(crate::specs::Operands::profile_numbers))]
pub(crate) fn profile_numbers(mut words: Words<'_>) -> Option<[u32; Profile::NUMBERS]>
    ensures { result ≡ spec.profile_numbers words.entry }
{
    let mut numbers = [0; Profile::NUMBERS];
    for place in 0..FEWEST_NUMBERS {
        numbers[place] = u32::read(words.next()?)?;
    }
    let last = at_most_one::<u32>(words)?;
    numbers[FEWEST_NUMBERS] = last.unwrap_or(0);
    Some(numbers)
}

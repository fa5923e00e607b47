//! The words of a log line, each read as what stands at its place: a name, a number, a side, a cut or a kind.

ghost use Rattle.std.specs.Prelude.{◌≡◌, ℕ, List, option_map};
ghost use Rattle.std.specs.declared.option.Option.{Option};
ghost use Rattle.rf_base.specs.Decimal.{number_of};
ghost use Rattle.rf_base.specs.Name.{name_of};
ghost use Rattle.rf_terms.specs.Kinds as table;
ghost use Rattle.rf_log.specs.Operands as spec;
ghost use Rattle.rf_log.specs.Reading as reading;

use crate::line::Cut;
use crate::words::{Words, take};
use rf_base::{Name, read_number};
use rf_terms::{Kind, kinds, roles, text};

/// What a word of a line is read as.
pub(crate) trait Operand: Copy {
    /// What a word is.
    ghost reads: { List ℕ → Option Self };

    /// What the word is, or None where it is outside the grammar.
    fn read(word: &[u8]) -> Option<Self>
        ensures { result ≡ reads word.now };
}

impl Operand for Name {
    ghost reads = { name_of };

    fn read(word: &[u8]) -> Option<Name> {
        Name::read(word)
    }
}

impl Operand for u32 {
    ghost reads = { number_of };

    fn read(word: &[u8]) -> Option<u32> {
        read_number(word)
    }
}

// The side of a condition.
impl Operand for bool {
    ghost reads = { spec.side_of };

    fn read(word: &[u8]) -> Option<bool> {
        if word == "in".as_bytes() {
            return Some(true);
        }
        if word == "out".as_bytes() {
            return Some(false);
        }
        None
    }
}

impl Operand for Cut {
    ghost reads = { spec.cut_of };

    fn read(word: &[u8]) -> Option<Cut> {
        if word == "fix".as_bytes() {
            return Some(Cut::Fix);
        }
        if word == "split".as_bytes() {
            return Some(Cut::Split);
        }
        None
    }
}

impl Operand for Kind {
    ghost reads = { table.kind_of };

    fn read(word: &[u8]) -> Option<Kind> {
        kinds()
            .iter()
            .copied()
            .find(|kind| word == text(*kind).as_bytes())
    }
}

/// LO HI.
pub(crate) fn take_range(words: &mut Words<'_>) -> Option<(u32, u32)>
    ensures { option_map (λ x. (x, words.new)) result ≡ spec.range_in words.old }
{
    let lo = take(words)?;
    let hi = take(words)?;
    Some((lo, hi))
}

/// NAME LO HI.
pub(crate) fn take_place(words: &mut Words<'_>) -> Option<(Name, u32, u32)>
    ensures { option_map (λ x. (x, words.new)) result ≡ spec.place_in words.old }
{
    let name = take(words)?;
    let (lo, hi) = take_range(words)?;
    Some((name, lo, hi))
}

/// ROLE LO HI, where the target counts roles from 0.
pub(crate) fn take_target(words: &mut Words<'_>, kind: Kind) -> Option<(u32, u32, u32)>
    ensures { option_map (λ x. (x, words.new)) result ≡ reading.target_range_in kind words.old }
{
    let role = take(words)?;
    let target = target_in(kind, role)?;
    let (lo, hi) = take_range(words)?;
    Some((target, lo, hi))
}

fn target_in(kind: Kind, role: u32) -> Option<u32>
    ensures { result ≡ spec.target_in kind role }
{
    if role >= 1 && role as usize <= roles(kind) {
        return Some(role - 1);
    }
    None
}

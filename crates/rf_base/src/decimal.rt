//! Decimals and numbers, as words write them.

ghost use Rattle.std.specs.Prelude.{◌≡◌, ◌<◌, ◌^◌, length, true, IfSome, option_map};
ghost use Rattle.std.specs.Char.{is_ascii_digit};
ghost use Rattle.std.specs.List.{list_all};
ghost use Rattle.std.specs.Str.Parse.{digits_value, starts_with_minus, without_leading_sign};
ghost use Rattle.rf_base.specs.Decimal as spec;

/// A number in billionths.
#[derive(Clone, Copy, PartialEq, Eq, PartialOrd, Ord)]
pub struct Decimal(pub i64);

/// The decimal that a word writes.
pub fn read_decimal(word: &[u8]) -> Option<Decimal>
    ensures { option_map (λ d. d.0) result ≡ spec.decimal_of word.now }
{
    let value = read_unsigned(without_sign(word))? as i64;
    if is_negative(word) {
        Some(Decimal(-value))
    } else {
        Some(Decimal(value))
    }
}

fn is_negative(word: &[u8]) -> bool
    ensures { result ≡ starts_with_minus word.now }
{
    !word.is_empty() && word[0] == b'-'
}

fn without_sign(word: &[u8]) -> &[u8]
    ensures { result.now ≡ without_leading_sign word.now }
{
    match word {
        [b'-' | b'+', rest @ ..] => rest,
        _ => word,
    }
}

/// The number that a word writes.
#[tactic(auto, unfolding(crate::specs::Decimal::number_of))]
pub fn read_number(word: &[u8]) -> Option<u32>
    ensures { result ≡ spec.number_of word.now }
{
    if !is_whole(word) || (word.len() != 1 && word[0] == b'0') {
        return None;
    }
    Some(number(word) as u32)
}

const BILLION: u64 = 1_000_000_000;

// A decimal without a sign, in billionths.
fn read_unsigned(word: &[u8]) -> Option<u64>
    ensures value { result ≡ spec.unsigned_of word.now }
    ensures within { IfSome result (λ n. n < 10 ^ 18) }
{
    match point_of(word) {
        None => {
            if !is_whole(word) {
                return None;
            }
            Some(number(word) * BILLION)
        }
        Some(i) => {
            let whole = &word[..i];
            let fraction = &word[i + 1..];
            if !is_whole(whole) || !is_digits(fraction) {
                return None;
            }
            Some(number(whole) * BILLION + number(&nine(fraction)))
        }
    }
}

#[tactic(auto, unfolding(crate::specs::Decimal::is_digits))]
fn is_digits(digits: &[u8]) -> bool
    ensures { result ≡ spec.is_digits digits.now }
{
    !digits.is_empty() && all_digits(digits)
}

fn all_digits(digits: &[u8]) -> bool
    ensures { result ≡ list_all is_ascii_digit digits.now }
{
    digits.iter().all(|b| b.is_ascii_digit())
}

// Where the point stands.
fn point_of(word: &[u8]) -> Option<usize>
    ensures value { result ≡ spec.point_of word.now }
    ensures within { IfSome result (λ i. i < length word.now) }
{
    word.iter().position(|b| *b == b'.')
}

#[tactic(auto, unfolding(crate::specs::Decimal::is_whole))]
fn is_whole(digits: &[u8]) -> bool
    ensures { result ≡ spec.is_whole digits.now }
{
    is_digits(digits) && digits.len() <= 9
}

// The first nine digits of a fraction, with zeros behind where there are fewer.
fn nine(fraction: &[u8]) -> [u8; 9]
    requires { spec.is_digits fraction.now ≡ true }
    ensures value { result ≡ spec.padded 9 fraction.now }
    ensures whole { spec.is_whole result ≡ true }
{
    let mut digits = [b'0'; 9];
    let count = fraction.len().min(9);
    digits[..count].copy_from_slice(&fraction[..count]);
    digits
}

// The number that up to nine digits write.
fn number(digits: &[u8]) -> u64
    requires { spec.is_whole digits.now ≡ true }
    ensures value { result ≡ digits_value 10 digits.now }
    ensures within { result < 10 ^ 9 }
{
    let mut value = 0;
    for digit in digits {
        value = value * 10 + u64::from(*digit - b'0');
    }
    value
}

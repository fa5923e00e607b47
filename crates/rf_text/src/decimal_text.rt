//! How decimals are printed.

ghost use Rattle.std.specs.Prelude.{◌≡◌, ◌++◌, ◌∷◌, [], ◌<◌, ◌^◌, OnOk, string_bytes};
ghost use Rattle.rf_text.specs.Decimals as spec;

use rf_base::{Decimal, NoMemory};

const BILLION: u64 = 1_000_000_000;

/// Writes a decimal in printed form: `-` where it is negative, the whole part without leading zeros, and where there is a
/// fraction, a point and its digits without zeros at the end.
#[tactic(auto, using(crate::proofs::LineLemmas::pieces), unfolding(crate::specs::Decimals::decimal_text))]
pub(crate) fn write_decimal(text: &mut String, decimal: Decimal) -> Result<(), NoMemory>
    ensures { OnOk result (string_bytes text.new ≡ string_bytes text.old ++ spec.decimal_text decimal.0) }
{
    let Decimal(value) = decimal;
    let sign = sign_text(value);
    write!(text, "{sign}")?;
    write_billionths(text, value.unsigned_abs())
}

fn sign_text(value: i64) -> &'static str
    ensures { result.now ≡ spec.sign_text value }
{
    if value < 0 { "-" } else { "" }
}

fn write_billionths(text: &mut String, billionths: u64) -> Result<(), NoMemory>
    ensures { OnOk result (string_bytes text.new ≡ string_bytes text.old ++ spec.billionths_text billionths) }
{
    let whole = billionths / BILLION;
    write!(text, "{whole}")?;
    write_fraction(text, billionths % BILLION)
}

// Writes the point and the digits after it, where the fraction isn't zero.
fn write_fraction(text: &mut String, fraction: u64) -> Result<(), NoMemory>
    requires { fraction < 10 ^ 9 }
    ensures { OnOk result (string_bytes text.new ≡ string_bytes text.old ++ spec.fraction_text fraction) }
{
    if fraction == 0 {
        return Ok(());
    }
    write!(text, ".")?;
    write_places(text, fraction)
}

// Writes the digits of a fraction, without zeros at the end.
fn write_places(text: &mut String, fraction: u64) -> Result<(), NoMemory>
    requires { fraction < 10 ^ 9 }
    ensures { OnOk result (string_bytes text.new ≡ string_bytes text.old ++ spec.places 9 fraction) }
{
    let mut rest = fraction;
    for place in 0..9 {
        if rest == 0 {
            return Ok(());
        }
        let unit = 10_u64.pow(8 - place);
        let digit = rest / unit;
        write!(text, "{digit}")?;
        rest %= unit;
    }
    Ok(())
}

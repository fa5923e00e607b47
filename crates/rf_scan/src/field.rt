//! What the fields of a record say: whether it is passed over, and the point that it gives.

ghost use Rattle.std.specs.Prelude.{◌≡◌, option_map};
ghost use Rattle.csv.specs.Records.{fields_of};
ghost use Rattle.rf_scan.specs.Scan as spec;

use crate::point::Point;
use csv::ByteRecord;
use rf_base::{Decimal, read_decimal};

// Whether a record stands before the first point, and its first field is no decimal.
#[tactic(auto, unfolding(crate::specs::Scan::is_passed_over))]
pub fn is_passed_over(count: usize, row: &ByteRecord) -> bool
    ensures { result ≡ spec.is_passed_over count (fields_of row.now) }
{
    count == 0 && decimal_at(row, 0).is_none()
}

// The point of a record, or the number of the field that is wrong.
#[tactic(auto, unfolding(crate::specs::Scan::point_of))]
pub fn point_of(row: &ByteRecord) -> Result<Point, u32>
    ensures { result ≡ spec.point_of (fields_of row.now) }
{
    let Some(millihertz) = frequency_of(decimal_at(row, 0)) else {
        return Err(1);
    };
    match decimal_at(row, 1) {
        Some(level) => Ok(Point { millihertz, level }),
        None => Err(2),
    }
}

// A frequency in megahertz, in millihertz.
fn frequency_of(value: Option<Decimal>) -> Option<u64>
    ensures { result ≡ spec.frequency_of (option_map (λ d. d.0) value) }
{
    let value = value?.0;
    if value >= 1_000_000 && value <= 10_000_000_000_000 {
        Some(value as u64)
    } else {
        None
    }
}

// The decimal in a field.
#[tactic(auto, unfolding(crate::specs::Scan::decimal_at))]
fn decimal_at(row: &ByteRecord, i: usize) -> Option<Decimal>
    ensures { option_map (λ d. d.0) result ≡ spec.decimal_at (fields_of row.now) i }
{
    match row.get(i) {
        Some(field) => read_decimal(trimmed(field)),
        None => None,
    }
}

// A field without the spaces and tabs at both ends.
fn trimmed(field: &[u8]) -> &[u8]
    ensures { result.now ≡ spec.trimmed field.now }
{
    trim_back(trim_front(field))
}

#[tactic(auto, using(crate::proofs::TrimLemmas::front_blank, crate::proofs::TrimLemmas::front_kept), unfolding(crate::specs::Scan::trim_front))]
fn trim_front(field: &[u8]) -> &[u8]
    ensures { result.now ≡ spec.trim_front field.now }
{
    for (i, b) in field.iter().enumerate() {
        if !is_blank(*b) {
            return &field[i..];
        }
    }
    &field[field.len()..]
}

#[tactic(auto, using(crate::proofs::TrimLemmas::back_blank, crate::proofs::TrimLemmas::back_kept), unfolding(crate::specs::Scan::trim_front))]
fn trim_back(field: &[u8]) -> &[u8]
    ensures { result.now ≡ spec.trim_back field.now }
{
    let mut end = field.len();
    while end > 0 {
        if !is_blank(field[end - 1]) {
            return &field[..end];
        }
        end -= 1;
    }
    &field[..0]
}

fn is_blank(b: u8) -> bool
    ensures { result ≡ spec.is_blank b }
{
    b == b' ' || b == b'\t'
}

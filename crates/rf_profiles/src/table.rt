//! What stands in the table of a profile.

ghost use Rattle.std.specs.Prelude.{◌≡◌, true, None, option_map, IfSome, IfOk};
ghost use Rattle.std.specs.List.{list_all};
ghost use Rattle.toml.specs.Data.{get_member};
ghost use Rattle.toml.specs.View.{array_view, table_view, view};
ghost use Rattle.rf_profiles.specs.File as spec;
ghost use Rattle.rf_profiles.specs.Profile.{is_width, margin_widths};

use crate::channels::Channels;
use crate::fault::Field;
use crate::profile::{Margins, Profile};
use crate::range::Range;
use rf_base::Khz;
use toml::value::Array;
use toml::{Table, Value};

// The margins of a profile, or the first that is wrong.
pub fn margins_at(table: &Table) -> Result<Margins, Field>
    ensures exact { result ≡ spec.margins_at (table_view table.now) }
    ensures numbers { IfOk result (λ m. list_all is_width (margin_widths m) ≡ true) }
{
    let m2t3 = width_or_zero_at(table, "m2t3").ok_or(Field::M2t3)?;
    let m3t3 = width_or_zero_at(table, "m3t3").ok_or(Field::M3t3)?;
    let m2t5 = width_or_zero_at(table, "m2t5").ok_or(Field::M2t5)?;
    let m3t5 = width_or_zero_at(table, "m3t5").ok_or(Field::M3t5)?;
    let m2t7 = width_or_zero_at(table, "m2t7").ok_or(Field::M2t7)?;
    Ok(Margins {
        m2t3,
        m3t3,
        m2t5,
        m3t5,
        m2t7,
    })
}

// Whether there is a key that no field has.
#[tactic(auto, unfolding(crate::specs::File::has_further_key))]
pub fn has_further_key(table: &Table) -> bool
    ensures { result ≡ spec.has_further_key (table_view table.now) }
{
    for (key, _) in table {
        if !is_field(key.as_str()) {
            return true;
        }
    }
    false
}

#[tactic(auto, unfolding(crate::specs::File::is_field))]
fn is_field(key: &str) -> bool
    ensures { result ≡ spec.is_field key.now }
{
    key == "ranges"
        || key == "spacing"
        || key == "half"
        || key == "m2t3"
        || key == "m3t3"
        || key == "m2t5"
        || key == "m3t5"
        || key == "m2t7"
}

fn value_at<'a>(table: &'a Table, key: &str) -> Option<&'a Value>
    ensures { option_map (λ v. view v.now) result ≡ get_member key.now (table_view table.now) }
{
    table.get(key)
}

// The width at a key, in kilohertz.
#[tactic(auto, unfolding(crate::specs::File::width_at))]
pub fn width_at(table: &Table, key: &str) -> Option<u32>
    ensures exact { result ≡ spec.width_at key.now (table_view table.now) }
    ensures number { IfSome result (λ n. is_width n ≡ true) }
{
    match value_at(table, key) {
        Some(value) => width_in(value),
        None => None,
    }
}

// The width at a key, in kilohertz, which is 0 where the key is missing.
#[tactic(auto, unfolding(crate::specs::File::width_or_zero_at))]
pub fn width_or_zero_at(table: &Table, key: &str) -> Option<u32>
    ensures exact { result ≡ spec.width_or_zero_at key.now (table_view table.now) }
    ensures number { IfSome result (λ n. is_width n ≡ true) }
{
    match value_at(table, key) {
        Some(value) => width_in(value),
        None => Some(0),
    }
}

#[tactic(auto, unfolding(crate::specs::File::width_in))]
fn width_in(value: &Value) -> Option<u32>
    ensures exact { result ≡ spec.width_in (view value.now) }
    ensures number { IfSome result (λ n. is_width n ≡ true) }
{
    match value.as_integer() {
        Some(n) if n >= 0 && n <= i64::from(Profile::MAX_WIDTH) => Some(n as u32),
        _ => None,
    }
}

#[tactic(auto, unfolding(crate::specs::File::khz_in))]
fn khz_in(value: &Value) -> Option<u32>
    ensures { result ≡ spec.khz_in (view value.now) }
{
    match value.as_integer() {
        Some(n) if n >= 1 && n <= i64::from(Khz::MAX) => Some(n as u32),
        _ => None,
    }
}

// The channels of the ranges.
#[tactic(auto, unfolding(crate::specs::File::channels_at))]
pub fn channels_at(table: &Table) -> Option<Channels>
    ensures { result ≡ spec.channels_at (table_view table.now) }
{
    match value_at(table, "ranges") {
        Some(value) => match value.as_array() {
            Some(array) => channels_in(array),
            None => None,
        },
        None => None,
    }
}

fn channels_in(array: &Array) -> Option<Channels>
    ensures { result ≡ spec.channels_in None (array_view array.now) }
{
    let mut channels = None;
    for value in array {
        let range = match range_in(value) {
            Some(range) => range,
            None => return None,
        };
        channels = match added(channels, range) {
            Some(more) => Some(more),
            None => return None,
        };
    }
    channels
}

#[tactic(auto, unfolding(crate::specs::File::added))]
fn added(channels: Option<Channels>, range: Range) -> Option<Channels>
    ensures { result ≡ spec.added channels range }
{
    match channels {
        None => Channels::one(range),
        Some(channels) => channels.with(range).ok(),
    }
}

#[tactic(auto, unfolding(crate::specs::File::range_in))]
fn range_in(value: &Value) -> Option<Range>
    ensures { result ≡ spec.range_in (view value.now) }
{
    match value.as_array() {
        Some(array) => range_of_items(array),
        None => None,
    }
}

fn range_of_items(array: &Array) -> Option<Range>
    ensures { result ≡ spec.range_of_items (array_view array.now) }
{
    if array.len() != 3 {
        return None;
    }
    range_with(khz_in(&array[0]), khz_in(&array[1]), khz_in(&array[2]))
}

fn range_with(from: Option<u32>, to: Option<u32>, step: Option<u32>) -> Option<Range>
    ensures { result ≡ spec.range_with from to step }
{
    match (from, to, step) {
        (Some(from), Some(to), Some(step)) => Range::new(from, to, step),
        _ => None,
    }
}

//! The front of a list of products in the order of their values, without a sort of all.

ghost use Rattle.std.specs.Prelude.{◌≡◌, ◌≤◌, ℕ, List, IfOk, filter};
ghost use Rattle.rf_rules.specs.Products as told;
ghost use Rattle.rf_rules.specs.Products.{lies, values};
ghost use Rattle.rf_rules.specs.Tallies.{shown_of};
ghost use Rattle.rf_rules.specs.declared.product.Product.{Product};

use crate::product::{Product, sort_by_size};
use crate::tally::Tally;
use rf_base::{Khz, NoMemory};
use std::alloc::Global;

// How many cells of values there are, in which products are counted.
const CELLS: u32 = 65_536;

/// The products from `lo` to `hi` in the order of their values, as far as they are shown, and maybe some more. `found` has all
/// of them.
pub fn front(alloc: Global, lo: Khz, hi: Khz, found: &[Product]) -> Result<Vec<Product>, NoMemory>
    ensures { IfOk result (λ front. (all : List Product) → found.now ≡ filter (lies lo hi) all → shown_of front.items ≡ shown_of (values lo hi all)) }
{
    let end = likely_end(alloc, lo, hi, found)?;
    let some = sorted(alloc, found, end)?;
    if some.len() >= Tally::MAX_SHOWN {
        return Ok(some);
    }
    let all = sorted(alloc, found, hi.get())?;
    Ok(all)
}

/// The products up to a value, in the order of their values.
fn sorted(alloc: Global, found: &[Product], end: u32) -> Result<Vec<Product>, NoMemory>
    ensures { IfOk result (λ some. (lo hi : ℕ) (all : List Product) → end ≤ hi → found.now ≡ filter (lies lo hi) all → some.items ≡ values lo end all) }
{
    let mut some = upto(alloc, found, end)?;
    sort_by_size(&mut some)?;
    Ok(some)
}

/// The products up to a value.
fn upto(alloc: Global, found: &[Product], end: u32) -> Result<Vec<Product>, NoMemory>
    ensures { IfOk result (λ some. some.items ≡ filter (told.is_upto end) found.now) }
{
    let mut some = Vec::new(alloc);
    for product in found {
        if is_upto(end, product) {
            some.push(*product)?;
        }
    }
    Ok(some)
}

fn is_upto(end: u32, product: &Product) -> bool
    ensures { result ≡ told.is_upto end product.now }
{
    product.value.unsigned_abs() <= u64::from(end)
}

/// A value up to which there are likely not many more products than are shown, and as many at least.
fn likely_end(alloc: Global, lo: Khz, hi: Khz, found: &[Product]) -> Result<u32, NoMemory>
    ensures { IfOk result (λ end. end ≤ hi) }
{
    if found.len() < Tally::MAX_SHOWN {
        return Ok(hi.get());
    }
    let width = hi.get().saturating_sub(lo.get()) / CELLS + 1;
    let mut counts = vec![in alloc; 0; CELLS as usize]?;
    for product in found {
        count(&mut counts, lo, width, product);
    }
    Ok(end_of(&counts, lo, width).min(hi.get()))
}

/// Counts a product in its cell.
fn count(counts: &mut [u32], lo: Khz, width: u32, product: &Product)
    requires { 1 ≤ width }
{
    let above = product
        .value
        .unsigned_abs()
        .saturating_sub(u64::from(lo.get()));
    let cell = (above / u64::from(width)) as usize;
    if let Some(count) = counts.get_mut(cell) {
        *count = count.saturating_add(1);
    }
}

/// The last value of the cell with which there are as many products as are shown.
fn end_of(counts: &[u32], lo: Khz, width: u32) -> u32 {
    let mut end = lo.get().saturating_sub(1);
    let mut sum: u32 = 0;
    for count in counts {
        end = end.saturating_add(width);
        sum = sum.saturating_add(*count);
        if sum as usize >= Tally::MAX_SHOWN {
            return end;
        }
    }
    u32::MAX
}

//! Intermodulation products, and their order by value.

ghost use Rattle.std.specs.Prelude.{◌≡◌, ℕ, OnOk, filter};
ghost use Rattle.std.specs.List.Sorted.{IsNonDecreasingBy, IsPermutation};
ghost use Rattle.rf_rules.specs.Products.{has_size, is_between, size_of};

use rf_base::{Items, Khz, NoMemory};
use rf_terms::Kind;

/// An intermodulation product of sources, which stand in the order of the kind's roles; a kind with two sources has 0 in
/// the third place. Its value is in kilohertz.
#[derive(Clone, Copy)]
pub struct Product {
    pub value: i64,
    pub kind: Kind,
    pub sources: [usize; 3],
}

/// The first 10,000 of a list of products, and how many there are.
#[derive(Drop)]
pub struct Products {
    pub shown: Items<Product>,
    pub total: u64,
}

/// A value lies from `lo` to `hi`.
pub fn is_between(lo: Khz, hi: Khz, value: i64) -> bool
    ensures { result ≡ is_between lo hi value }
{
    i64::from(lo.get()) <= value && value <= i64::from(hi.get())
}

/// Sorts products by their size. Those of one size stay in their order.
pub fn sort_by_size(products: &mut Vec<Product>) -> Result<(), NoMemory>
    ensures sorted { OnOk result (IsNonDecreasingBy size_of products.new.items) }
    ensures stable { (v : ℕ) → filter (has_size v) products.new.items ≡ filter (has_size v) products.old.items }
    ensures same { IsPermutation products.old.items products.new.items }
{
    products.sort_by_key(|p| p.value.unsigned_abs())?;
    Ok(())
}

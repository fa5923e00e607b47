//! Which carriers may stand last but one, by the value of the form so far.

ghost use Rattle.std.specs.Prelude.{◌≡◌, ◌<◌, ◌≤◌, ◌%◌, ◌&&◌, ◌||◌, ◌+ℤ◌, ℕ, ℤ, true, false, IfOk, length, slice_index_or, unsigned_abs};
ghost use Rattle.std.specs.Bool.{OnTrue};
ghost use Rattle.rf_show.specs.Limits.{most_carriers};
ghost use Rattle.rf_zones.specs.Masks.{has_bit, mask_width};
ghost use Rattle.rf_rules.specs.Paired as paired;
ghost use Rattle.rf_rules.specs.Paired.{Covers, HasPairs, IsPairings, mask_near, pair_value};
ghost use Rattle.rf_rules.specs.Searches.{IsReady};
ghost use Rattle.rf_rules.specs.Touched.{HasTouching};
ghost use Rattle.rf_rules.specs.declared.lane.Lane.{Lane};

use crate::arithmetic::{place, place_of_opposite, sum};
use crate::lane::Lane;
use crate::search::Search;
use rf_base::NoMemory;
use rf_zones::Mask;
use rf_zones::mask::{all, both, has, none, with};
use std::alloc::Global;

// How many cells there are for each pair.
const CELLS: usize = 4;

/// The carriers that can take the last role but one of a kind, by what the form over the roles before is: there are cells of
/// values, each as wide as the widest margin, and a carrier stands in those in which, with some carrier in the last role, the
/// whole form may be less than a margin. The cells go round, so that a mask may have carriers too many.
#[derive(Drop)]
pub struct Pairings {
    pub width: u64,
    pub cells: Vec<Mask>,
}

impl Pairings {
    /// The pairs of a search's carriers.
    pub fn of(alloc: Global, search: &Search) -> Result<Pairings, NoMemory>
        requires ready { IsReady search.now }
        requires few { length search.now.ats.now ≤ most_carriers }
        ensures { IfOk result (λ pairings. HasPairs pairings search.now) }
    {
        Pairings::touching(alloc, search, all())
    }

    /// The pairs of a search's carriers of which one is in a mask.
    pub fn touching(alloc: Global, search: &Search, mask: Mask) -> Result<Pairings, NoMemory>
        requires ready { IsReady search.now }
        requires few { length search.now.ats.now ≤ most_carriers }
        ensures { IfOk result (λ pairings. HasTouching pairings search.now mask) }
    {
        let standing = search.standing();
        let changed = both(standing, mask);
        let mut pairings = Pairings {
            width: u64::from(widest(search.lanes)),
            cells: vec![in alloc; none(); room(many(standing), many(changed))]?,
        };
        for first in 0..search.ats.len() {
            if !has(standing, first) {
                continue;
            }
            pairings.add_all(search, first, partners(mask, first, standing, changed));
        }
        Ok(pairings)
    }

    /// No pair is left out: there is one cell, and all carriers are in it.
    pub fn full(alloc: Global, search: &Search) -> Result<Pairings, NoMemory>
        requires ready { IsReady search.now }
        requires few { length search.now.ats.now ≤ most_carriers }
        ensures { IfOk result (λ pairings. HasPairs pairings search.now) }
    {
        Ok(Pairings {
            width: u64::from(widest(search.lanes)),
            cells: vec![in alloc; all(); 1]?,
        })
    }

    /// The carriers that can be next where the form over the first roles is this.
    pub fn near(&self, product: i64) -> Mask
        requires form { IsPairings self.now }
        requires small { unsigned_abs product ≤ 640000000 }
        ensures { result ≡ mask_near self.now product }
    {
        let cell = place(product) / self.width + 1;
        self.cells[self.index(cell)]
    }

    // Adds a carrier with each carrier of a mask in the last role.
    fn add_all(&mut self, search: &Search, first: usize, lasts: Mask)
        requires form { IsPairings self.old }
        requires ready { IsReady search.now }
        requires few { length search.now.ats.now ≤ most_carriers }
        requires there { first < length search.now.ats.now }
        ensures form { IsPairings self.new }
        ensures width { self.new.width ≡ self.old.width }
        ensures covers { (d : ℕ) → d < length search.now.ats.now → has_bit lasts d ≡ true → Covers self.new first (pair_value search.now first d) }
        ensures keeps { (other : ℕ) (value : ℤ) → Covers self.old other value → Covers self.new other value }
    {
        let own = search.second_term(first);
        for last in 0..search.ats.len() {
            if !has(lasts, last) {
                continue;
            }
            self.add(first, sum(own, search.lanes[last].term));
        }
    }

    // Adds a carrier where the form over the first roles is opposite to a value, and less than a width from there.
    fn add(&mut self, carrier: usize, value: i64)
        requires form { IsPairings self.old }
        requires carrier { carrier < most_carriers }
        requires small { unsigned_abs value ≤ 640000000 }
        ensures form { IsPairings self.new }
        ensures width { self.new.width ≡ self.old.width }
        ensures covers { Covers self.new carrier value }
        ensures keeps { (other : ℕ) (value : ℤ) → Covers self.old other value → Covers self.new other value }
    {
        let cell = place_of_opposite(value) / self.width;
        self.mark(cell, carrier);
        self.mark(cell + 1, carrier);
        self.mark(cell + 2, carrier);
    }

    fn mark(&mut self, cell: u64, carrier: usize)
        requires form { IsPairings self.old }
        requires carrier { carrier < most_carriers }
        ensures width { self.new.width ≡ self.old.width }
        ensures room { length self.new.cells.items ≡ length self.old.cells.items }
        ensures marked { has_bit (paired.cell self.new cell) carrier ≡ true }
        ensures kept { (i other : ℕ) → has_bit (slice_index_or self.old.cells.items i 0) other ≡ true → has_bit (slice_index_or self.new.cells.items i 0) other ≡ true }
    {
        let index = self.index(cell);
        self.cells[index] = with(self.cells[index], carrier);
    }

    #[inline]
    fn index(&self, cell: u64) -> usize
        requires { IsPairings self.now }
        ensures value { result ≡ cell % length self.now.cells.items }
        ensures within { result < length self.now.cells.items }
    {
        (cell % self.cells.len() as u64) as usize
    }
}

// The carriers that stand and make a pair with a carrier of which one is in a mask. `changed` has those that stand and are in it.
fn partners(mask: Mask, first: usize, standing: Mask, changed: Mask) -> Mask
    requires first { first < most_carriers }
    requires changed { (c : ℕ) → has_bit changed c ≡ (has_bit standing c && has_bit mask c) }
    ensures { (c : ℕ) → has_bit result c ≡ (has_bit standing c && (has_bit mask first || has_bit mask c)) }
{
    if has(mask, first) {
        return standing;
    }
    changed
}

// How many carriers a mask has.
fn many(mask: Mask) -> usize
    ensures { result ≤ mask_width }
{
    mask.count_ones() as usize
}

// How many cells there are for so many carriers that stand, of which so many changed: some for each pair.
fn room(standing: usize, changed: usize) -> usize
    requires standing { standing ≤ mask_width }
    requires changed { changed ≤ mask_width }
    ensures { 0 < result }
{
    standing * standing.min(2 * changed) * CELLS + 1
}

// The most that a carrier asks, and at least 1.
fn widest(lanes: &[Lane]) -> u32
    ensures some { 0 < result }
    ensures wide { (c : ℕ) (d : Lane) → c < length lanes.now → (slice_index_or lanes.now c d).needs ≤ result }
{
    let mut most = 1;
    for lane in lanes {
        most = most.max(lane.needs);
    }
    most
}

/// A mask has no carrier.
pub fn is_none(mask: Mask) -> bool
    ensures { OnTrue result ((c : ℕ) → has_bit mask c ≡ false) }
{
    mask == none()
}

//! Who is together with whom in a show, by masks that are made once.

ghost use Rattle.std.specs.Prelude.{◌≡◌, ◌<◌, ◌≤◌, ◌∷◌, ◌++◌, [], ℕ, All, IfOk, IfSome, length, slice_index_or};
ghost use Rattle.std.specs.Bool.{OnTrue};
ghost use Rattle.std.specs.List.{list_all, list_any};
ghost use Rattle.rf_zones.specs.Masks.{has_bit, has_bits};
ghost use Rattle.rf_show.specs.Limits.{most_carriers};
ghost use Rattle.rf_show.specs.Query.{are_joined, meet_at};
ghost use Rattle.rf_rules.specs.Companies.{IsCompany, Meets, masks_of, zone_at};

use rf_base::NoMemory;
use rf_show::{Carrier, Show, meeting_is_mutual};
use rf_zones::mask::{all, both, either, has_all, none};
use rf_zones::{Mask, Slices};
use std::alloc::Global;

// The size of a set of two carriers.
const PAIR: usize = 2;

// The size of a set of more than two: whether carriers may be together in it is the same for all such sizes.
const MORE: usize = 3;

/// What tells quickly whether carriers of a show are together: for each carrier the mask of those that may be together with
/// it in a set of more than two (`heard`) and in a set of two (`reach`), and the masks of those that are on in one minute.
#[derive(Drop)]
pub struct Company<'a> {
    pub show: &'a Show,
    pub heard: [Mask; Show::MAX_CARRIERS],
    pub reach: [Mask; Show::MAX_CARRIERS],
    pub slices: Slices,
}

impl<'a> Company<'a> {
    /// The masks of a show.
    pub fn of(alloc: Global, show: &'a Show) -> Result<Company<'a>, NoMemory>
        ensures known { IfOk result (λ company. IsCompany company) }
        ensures same { IfOk result (λ company. company.show.now ≡ show.now) }
    {
        Ok(Company {
            show,
            heard: make_masks(show, MORE),
            reach: make_masks(show, PAIR),
            slices: show.slices(alloc)?,
        })
    }

    /// The carriers of which each can stand with all of these in a set of so many that is together.
    pub fn mates(&self, size: usize, t: &[usize]) -> Mask
        requires known { IsCompany self.now }
        requires taken { All (λ c. c < length self.now.show.now.carriers) t.now }
        ensures { (c : ℕ) → c < length self.now.show.now.carriers → has_bit result c ≡ are_joined self.now.show.now size (t.now ++ c ∷ []) }
    {
        meeting_is_mutual();
        let meeters = self.meeters(size, t);
        if !has_all(meeters, t) {
            return none();
        }
        both(meeters, self.sharers(t))
    }

    // For each carrier those that may be together with it in a set of so many.
    fn masks(&self, size: usize) -> &[Mask; Show::MAX_CARRIERS]
        ensures { result.now ≡ masks_of size self.now }
    {
        if size <= PAIR {
            return &self.reach;
        }
        &self.heard
    }

    // The carriers that each of these may be together with in a set of so many.
    fn meeters(&self, size: usize, t: &[usize]) -> Mask
        requires known { IsCompany self.now }
        requires taken { All (λ c. c < length self.now.show.now.carriers) t.now }
        ensures { (c : ℕ) → c < length self.now.show.now.carriers → has_bit result c ≡ list_all (λ a. meet_at size self.now.show.now.zones self.now.show.now.carriers a c) t.now }
    {
        let masks = self.masks(size);
        let mut mask = all();
        for a in t {
            mask = both(mask, masks[*a]);
        }
        mask
    }

    // The carriers that are on with all of these in one minute.
    fn sharers(&self, t: &[usize]) -> Mask
        requires { All (λ c. c < most_carriers) t.now }
        ensures { (c : ℕ) → has_bit result c ≡ list_any (has_bits (t.now ++ c ∷ [])) self.now.slices }
    {
        let mut mask = none();
        for slice in self.slices.masks() {
            mask = either(mask, part(*slice, t));
        }
        mask
    }
}

/// A mask that has all of these carriers, and otherwise the empty one.
fn part(mask: Mask, t: &[usize]) -> Mask
    requires { All (λ c. c < most_carriers) t.now }
    ensures { (c : ℕ) → has_bit result c ≡ has_bits (t.now ++ c ∷ []) mask }
{
    if has_all(mask, t) {
        return mask;
    }
    none()
}

/// For each carrier those that may be together with it in a set of so many, and what fills the room behind them.
fn make_masks(show: &Show, size: usize) -> [Mask; Show::MAX_CARRIERS]
    ensures meets { (a : ℕ) → a < length show.now.carriers → Meets show.now size a (slice_index_or result a 0) }
    ensures few { length show.now.carriers ≤ most_carriers }
{
    let mut masks = [none(); Show::MAX_CARRIERS];
    for a in 0..show.carriers().len() {
        if let Some(b) = neighbour(show, a) {
            masks[a] = masks[b];
            continue;
        }
        masks[a] = show.meeters(size, a);
    }
    masks
}

/// A carrier before this one that is in the same zone. It may be together with the same carriers.
fn neighbour(show: &Show, a: usize) -> Option<usize>
    requires { a < length show.now.carriers }
    ensures before { IfSome result (λ b. b < a) }
    ensures zone { IfSome result (λ b. zone_at show.now.carriers b ≡ zone_at show.now.carriers a) }
{
    let carriers = show.carriers();
    for b in 0..a {
        if same_zone(&carriers[b], &carriers[a]) {
            return Some(b);
        }
    }
    None
}

fn same_zone(a: &Carrier, b: &Carrier) -> bool
    ensures { OnTrue result (a.now.zone ≡ b.now.zone) }
{
    a.zone == b.zone
}

//! Which carriers can be together with each other and with a newcomer.

ghost use Rattle.std.specs.Prelude.{◌≡◌, ◌<◌, ◌≤◌, All, IfOk, Some, ℕ, length, map, slice_get, slice_index_or, true};
ghost use Rattle.std.specs.List.{list_all, list_any};
ghost use Rattle.rf_show.specs.Limits.{most_carriers};
ghost use Rattle.rf_show.specs.Show.{is_show, zone_number};
ghost use Rattle.rf_zones.specs.Masks.{has_bit, has_bits};
ghost use Rattle.rf_spares.specs.Crowds.{AreZones, HearsAll, IsCrowd, asked_at, masks_of, meets, needs_of, zone_numbers, own_of, times_of, with_newcomers};
ghost use Rattle.rf_spares.specs.Harms.{all_meet, hears_all, joins_all, meets_at};
ghost use Rattle.rf_spares.specs.Searches.{site};
ghost use Rattle.rf_zones.specs.Slices.{share_minute};

use rf_base::{Name, NoMemory};
use rf_profiles::Profile;
use rf_show::Show;
use rf_terms::Kind;
use rf_zones::mask::{has_all, none, with};
use rf_zones::{Mask, Slices, Times};
use std::alloc::Global;

// The size of a set of two carriers.
const PAIR: usize = 2;

// The size of a set of more than two: whether carriers may be together in it is the same for all such sizes.
const MORE: usize = 3;

/// What tells quickly whether carriers can be together with a newcomer of a profile and a zone: for each place of a show,
/// where newcomers stand behind the show's carriers, the mask of those that may be together with it in a set of more than
/// two (`heard`) and in a set of two (`reach`); the same for a newcomer; and the masks of those that are on in one minute.
#[derive(Drop)]
pub struct Crowd<'a> {
    pub show: &'a Show,
    pub profile: usize,
    pub zone: u8,
    pub heard: [Mask; Show::MAX_CARRIERS],
    pub reach: [Mask; Show::MAX_CARRIERS],
    pub own_heard: Mask,
    pub own_reach: Mask,
    pub slices: Slices,
}

impl<'a> Crowd<'a> {
    /// The masks of a show. `NoMemory` where no memory is found.
    pub fn of(
        alloc: Global,
        show: &'a Show,
        profile: usize,
        zone: u8,
    ) -> Result<Crowd<'a>, NoMemory>
        requires profile { profile < length show.now.profiles }
        requires zone { zone < length show.now.zones.names }
        ensures known { IfOk result (λ crowd. IsCrowd crowd) }
        ensures show { IfOk result (λ crowd. crowd.show.now ≡ show.now) }
        ensures profile { IfOk result (λ crowd. crowd.profile ≡ profile) }
        ensures zone { IfOk result (λ crowd. crowd.zone ≡ zone) }
    {
        let own = number_of(show, show.zones().name(zone));
        let numbers = zone_numbers(show, own);
        let times = times(show);
        Ok(Crowd {
            show,
            profile,
            zone,
            heard: make_masks(show, &numbers, MORE),
            reach: make_masks(show, &numbers, PAIR),
            own_heard: hearers(show, &numbers, MORE, own),
            own_reach: hearers(show, &numbers, PAIR, own),
            slices: Slices::of(alloc, &times)?,
        })
    }

    /// These carriers can be together with a newcomer in a set of so many.
    pub fn joins(&self, size: usize, u: &[usize]) -> bool
        requires known { IsCrowd self.now }
        requires taken { All (λ c. c < most_carriers) u.now }
        ensures { result ≡ joins_all (site self.now) size u.now }
    {
        self.hears_all(size, u) && (self.all_meet(size, u) && self.share_minute(u))
    }

    // Each of these carriers may be together with a newcomer in a set of so many.
    fn hears_all(&self, size: usize, u: &[usize]) -> bool
        requires known { IsCrowd self.now }
        requires taken { All (λ c. c < most_carriers) u.now }
        ensures { result ≡ hears_all (site self.now) size u.now }
    {
        has_all(self.own(size), u)
    }

    fn own(&self, size: usize) -> Mask
        ensures { result ≡ own_of size self.now }
    {
        if size <= PAIR {
            return self.own_reach;
        }
        self.own_heard
    }

    // Each two of these carriers may be together in a set of so many.
    #[tactic(auto, unfolding(crate::specs::Harms::all_meet))]
    fn all_meet(&self, size: usize, u: &[usize]) -> bool
        requires known { IsCrowd self.now }
        requires taken { All (λ c. c < most_carriers) u.now }
        ensures { result ≡ all_meet (site self.now) size u.now }
    {
        u.iter().all(|a| self.meets_all(size, *a, u))
    }

    fn meets_all(&self, size: usize, a: usize, u: &[usize]) -> bool
        requires known { IsCrowd self.now }
        requires there { a < most_carriers }
        requires taken { All (λ c. c < most_carriers) u.now }
        ensures { result ≡ list_all (λ b. meets_at (site self.now) size a b) u.now }
    {
        has_all(self.masks(size)[a], u)
    }

    // For each place those that may be together with it in a set of so many.
    fn masks(&self, size: usize) -> &[Mask; Show::MAX_CARRIERS]
        ensures { result.now ≡ masks_of size self.now }
    {
        if size <= PAIR {
            return &self.reach;
        }
        &self.heard
    }

    // All of these carriers are on in one minute.
    fn share_minute(&self, u: &[usize]) -> bool
        requires known { IsCrowd self.now }
        requires taken { All (λ c. c < most_carriers) u.now }
        ensures { result ≡ share_minute (times_of self.now.show.now) u.now }
    {
        self.has_slice(u)
    }

    fn has_slice(&self, u: &[usize]) -> bool
        requires { All (λ c. c < most_carriers) u.now }
        ensures { result ≡ list_any (has_bits u.now) self.now.slices }
    {
        self.slices.masks().iter().any(|mask| has_all(*mask, u))
    }

    /// The profile of a newcomer.
    pub fn own_profile(&self) -> &Profile
        requires { IsCrowd self.now }
        ensures { slice_get self.now.show.now.profiles self.now.profile ≡ Some result.now }
    {
        &self.show.profiles()[self.profile]
    }

    /// What a newcomer's profile asks of the form of a kind, in kilohertz.
    pub fn own_needs(&self, kind: Kind) -> u32
        requires { IsCrowd self.now }
        ensures { result ≡ asked_at self.now.show.now self.now.profile kind }
    {
        self.own_profile().margin(kind)
    }

    /// What each carrier's profile asks of the form of a kind, in kilohertz.
    pub fn needs(&self, kind: Kind) -> [u32; Show::MAX_CARRIERS]
        requires { IsCrowd self.now }
        ensures { result ≡ needs_of self.now.show.now self.now.profile kind }
    {
        let mut needs = [self.own_needs(kind); Show::MAX_CARRIERS];
        for carrier in 0..self.show.carriers().len() {
            needs[carrier] = self.show.profile_of(carrier).margin(kind);
        }
        needs
    }
}

/// The number of each carrier's zone, and behind them that of newcomers.
fn zone_numbers(show: &Show, own: u8) -> [u8; Show::MAX_CARRIERS]
    requires { own < length show.now.zones.names }
    ensures value { result ≡ with_newcomers (map (λ c. zone_number show.now.zones c.zone) show.now.carriers) own }
    ensures within { AreZones show.now result }
{
    let mut numbers = [own; Show::MAX_CARRIERS];
    for (i, carrier) in show.carriers().iter().enumerate() {
        numbers[i] = number_of(show, carrier.zone);
    }
    numbers
}

/// The number of a zone's name, and 0 where it isn't there.
fn number_of(show: &Show, name: Name) -> u8
    requires { 0 < length show.now.zones.names }
    ensures value { result ≡ zone_number show.now.zones name }
    ensures within { result < length show.now.zones.names }
{
    show.zones().find(name).unwrap_or(0)
}

/// When each carrier is on, and newcomers behind them.
fn times(show: &Show) -> [Times; Show::MAX_CARRIERS]
    ensures value { result ≡ times_of show.now }
    ensures form { is_show show.now ≡ true }
    ensures few { length show.now.carriers ≤ most_carriers }
{
    let mut times = [Times::new(); Show::MAX_CARRIERS];
    for (i, carrier) in show.carriers().iter().enumerate() {
        times[i] = carrier.times;
    }
    times
}

/// The carriers, of which these are the zones, that may be together with those of a zone in a set of so many.
fn hearers(show: &Show, numbers: &[u8; Show::MAX_CARRIERS], size: usize, a: u8) -> Mask
    requires a { a < length show.now.zones.names }
    requires within { AreZones show.now numbers.now }
    ensures { HearsAll show.now numbers.now size a result }
{
    let zones = show.zones();
    let mut mask = none();
    for b in 0..Show::MAX_CARRIERS {
        if !zones.coupling(a, numbers[b]).joins(size) {
            continue;
        }
        mask = with(mask, b);
    }
    mask
}

/// For each of the carriers, of which these are the zones, those that may be together with it in a set of so many.
fn make_masks(
    show: &Show,
    numbers: &[u8; Show::MAX_CARRIERS],
    size: usize,
) -> [Mask; Show::MAX_CARRIERS]
    requires { AreZones show.now numbers.now }
    ensures { (a : ℕ) → a < most_carriers → HearsAll show.now numbers.now size (slice_index_or numbers.now a 0) (slice_index_or result a 0) }
{
    let mut masks = [none(); Show::MAX_CARRIERS];
    for a in 0..Show::MAX_CARRIERS {
        masks[a] = hearers(show, numbers, size, numbers[a]);
    }
    masks
}

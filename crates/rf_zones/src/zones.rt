//! Zones: their names, their numbers, and which of them are coupled, near or far.

ghost use Rattle.std.specs.Prelude.{◌≡◌, ◌≢◌, ℕ, ◌<◌, ◌≤◌, ◌&&◌, nat_eq, nat_lt, if◌then◌else◌, true, None, length, slice_get, Some, position};
ghost use Rattle.rf_base.specs.Name.{same_name};
ghost use Rattle.rf_zones.specs.Zones.{ZonesData, IsMutual, IsZones, coupling_of, pair_place, pairs, first_zones, heard, is_last_free};
ghost use Rattle.rf_zones.specs.Zones.{reach, same_pair, with_coupling, with_zone, without_last, zone_of};
ghost use Rattle.rf_zones.specs.declared.coupling.Coupling.TheVariants.{Apart, Coupled, Far};

use crate::coupling::Coupling;
use crate::couplings::{Couplings, MAX_PAIRS};
use crate::zone_names::{MAX_ZONES, ZoneNames};
use rf_base::Name;
use std::marker::Model;

/// The zones of a show, numbered from 0 in the order in which they were added, `main` first; and how they are coupled.
#[derive(Clone, Copy, PartialEq, Eq)]
pub struct Zones {
    names: ZoneNames,
    couplings: Couplings,
}

impl Model for Zones {
    ghost use Rattle.rf_zones.specs.Zones.{ZonesData, IsZones};

    ghost Value = { ZonesData };

    ghost view = { λ z. record { names = z.names; couplings = z.couplings } };

    ghost invariant = { λ z. IsZones (record { names = z.names; couplings = z.couplings }) };

    ghost inverse = { λ z. record { names = z.names; couplings = z.couplings } };
}

impl Zones {
    /// How many zones there may be.
    pub const MAX: u8 = MAX_ZONES as u8;

    /// `main` alone.
    pub fn new() -> Zones
        ensures { result ≡ first_zones }
    {
        Zones {
            names: ZoneNames::of_main(),
            couplings: Couplings::none(),
        }
    }

    /// How many zones there are.
    pub fn count(&self) -> u8
        ensures value { result ≡ length self.now.names }
        ensures form { IsZones self.now }
    {
        self.names.list().len() as u8
    }

    /// The number of the zone of a name. None exactly where there is none.
    pub fn find(&self, name: Name) -> Option<u8>
        ensures { result ≡ zone_of self.now name }
    {
        let place = place_of(self.names.list(), name)?;
        Some(place as u8)
    }

    /// The name of a zone.
    pub fn name(&self, z: u8) -> Name
        requires { z < length self.now.names }
        ensures { slice_get self.now.names z ≡ Some result }
    {
        self.names.list()[z as usize]
    }

    /// How two zones stand to each other. A zone is coupled with itself.
    pub fn coupling(&self, a: u8, b: u8) -> Coupling
        requires a_in { a < length self.now.names }
        requires b_in { b < length self.now.names }
        ensures value { result ≡ coupling_of self.now a b }
        ensures either { result ≡ coupling_of self.now b a }
    {
        if a == b {
            return Coupling::Coupled;
        }
        self.couplings.at(pair_place(a, b))
    }

    /// Whether carriers in two zones hear each other: the zones are the same or coupled.
    pub fn heard(&self, a: u8, b: u8) -> bool
        requires a_in { a < length self.now.names }
        requires b_in { b < length self.now.names }
        ensures value { result ≡ heard self.now a b }
        ensures either { result ≡ heard self.now b a }
    {
        matches!(self.coupling(a, b), Coupling::Coupled)
    }

    /// Whether carriers in two zones keep their spacing: the zones are the same or coupled, near or far.
    pub fn reach(&self, a: u8, b: u8) -> bool
        requires a_in { a < length self.now.names }
        requires b_in { b < length self.now.names }
        ensures value { result ≡ reach self.now a b }
        ensures either { result ≡ reach self.now b a }
    {
        !matches!(self.coupling(a, b), Coupling::Apart)
    }

    /// Adds a zone that is apart from all others.
    pub fn add(&mut self, name: Name)
        requires fresh { zone_of self.old name ≡ None }
        requires room { length self.old.names < MAX_ZONES }
        ensures added { self.new ≡ with_zone self.old name }
        ensures free { is_last_free self.new ≡ true }
        ensures back { without_last self.new ≡ self.old }
        ensures stand { (x y : ℕ) → x < length self.new.names → y < length self.new.names →
            coupling_of self.new x y ≡ (if nat_eq x y then Coupled else (if nat_lt x (length self.old.names) && nat_lt y (length self.old.names) then coupling_of self.old x y else Apart)) }
    {
        let count = self.count();
        self.names.push(name);
        self.couplings.grow(count as u16);
    }

    /// Takes the last zone away, which isn't the only one and is apart from all others, and answers its name.
    pub fn drop_last(&mut self) -> Name
        requires more { 1 < length self.old.names }
        requires free { is_last_free self.old ≡ true }
        ensures dropped { self.new ≡ without_last self.old }
        ensures fresh { zone_of self.new result ≡ None }
        ensures back { with_zone self.new result ≡ self.old }
    {
        let count = self.count();
        self.couplings.shrink(count as u16 - 1);
        self.names.pop()
    }

    /// Changes how two zones stand to each other. A zone with itself changes nothing.
    pub fn set_coupling(&mut self, a: u8, b: u8, coupling: Coupling)
        requires a_in { a < length self.old.names }
        requires b_in { b < length self.old.names }
        ensures changed { self.new ≡ with_coupling self.old a b coupling }
        ensures back { with_coupling self.new a b (coupling_of self.old a b) ≡ self.old }
        ensures stand { (x y : ℕ) → x < length self.old.names → y < length self.old.names →
            coupling_of self.new x y ≡ (if nat_eq x y then Coupled else (if same_pair a b x y then coupling else coupling_of self.old x y)) }
    {
        if a != b {
            self.couplings.set(pair_place(a, b), coupling);
        }
    }

    /// Couples two zones. A zone with itself changes nothing.
    pub fn couple(&mut self, a: u8, b: u8)
        requires a_in { a < length self.old.names }
        requires b_in { b < length self.old.names }
        ensures { self.new ≡ with_coupling self.old a b Coupled }
    {
        self.set_coupling(a, b, Coupling::Coupled);
    }

    /// Couples two zones far, and no longer near. A zone with itself changes nothing.
    pub fn far(&mut self, a: u8, b: u8)
        requires a_in { a < length self.old.names }
        requires b_in { b < length self.old.names }
        ensures { self.new ≡ with_coupling self.old a b Far }
    {
        self.set_coupling(a, b, Coupling::Far);
    }

    /// Uncouples two zones, near or far. A zone with itself changes nothing.
    pub fn uncouple(&mut self, a: u8, b: u8)
        requires a_in { a < length self.old.names }
        requires b_in { b < length self.old.names }
        ensures { self.new ≡ with_coupling self.old a b Apart }
    {
        self.set_coupling(a, b, Coupling::Apart);
    }
}

/// How two zones stand to each other does not depend on their order, and each is coupled with itself.
pub fn coupling_is_mutual()
    ensures { (zones : ZonesData) → IsMutual zones }
{}

fn place_of(names: &[Name], name: Name) -> Option<usize>
    ensures { result ≡ position (same_name name) names.now }
{
    names.iter().position(|n| name == *n)
}

// Where the pair of two zones stands.
fn pair_place(a: u8, b: u8) -> u16
    requires a_in { a < MAX_ZONES }
    requires b_in { b < MAX_ZONES }
    requires apart { a ≢ b }
    ensures { result ≡ pair_place a b }
{
    if a < b {
        pairs(b) + a as u16
    } else {
        pairs(a) + b as u16
    }
}

// How many pairs so many zones make.
fn pairs(count: u8) -> u16
    requires { count ≤ MAX_ZONES }
    ensures value { result ≡ pairs count }
    ensures within { result ≤ MAX_PAIRS }
{
    let count = count as u16;
    count * count.saturating_sub(1) / 2
}

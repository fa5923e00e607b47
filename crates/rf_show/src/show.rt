//! The show itself: its parts, how it is edited, and how an edit is taken back.

ghost use Rattle.std.specs.Prelude.{◌≡◌, ◌≤◌, true, length, None, Some, Ok, IfOk, IfErr, OnErr, IsSome, IsTrue};
ghost use Rattle.rf_show.specs.After.{after, edited, is_edit, refusal};
ghost use Rattle.rf_show.specs.Limits.{most_carriers, most_raised};
ghost use Rattle.rf_show.specs.Raised.{is_textual, raised};
ghost use Rattle.rf_show.specs.Reasons.{ok_unless};
ghost use Rattle.rf_show.specs.Show.{first_show, is_show};
ghost use Rattle.rf_show.specs.Taken.{leads, step_fits, stepped, taken};

use crate::carrier::Carrier;
use crate::change::{Change, make_change};
use crate::copies::{copied, copied_scans};
use crate::edit::Edit;
use crate::frequencies::change_frequencies;
use crate::raise::widen_all;
use crate::refusal::Refusal;
use crate::undo::{Step, Undo};
use crate::zone_change::{ZoneChange, change_zones, with_coupling};
use crate::{admit, carrier_steps, exclusion_steps, profile_steps};
use rf_base::{Khz, NoMemory};
use rf_exclusions::{Ban, ScanSet};
use rf_profiles::{Profile, Range};
use rf_zones::{Coupling, Zones};
use std::alloc::Global;
use std::marker::Model;

/// A show: profiles, zones, carriers, bans and scans, each in the order in which they were added, with room for all that
/// the limits allow.
#[derive(Drop)]
pub struct Show {
    profiles: Vec<Profile>,
    zones: Zones,
    carriers: Vec<Carrier>,
    bans: Vec<Ban>,
    scans: Vec<ScanSet>,
}

impl Model for Show {
    ghost use Rattle.std.specs.Prelude.{◌≤◌, IsTrue, length, vec_capacity};
    ghost use Rattle.rf_show.specs.Limits.{most_bans, most_carriers, most_profiles, most_scans, most_zones};
    ghost use Rattle.rf_show.specs.Show.{ShowData, is_show};

    ghost Value = { ShowData };

    ghost view = { λ s. record { profiles = s.profiles.items; zones = s.zones; carriers = s.carriers.items; bans = s.bans.items; scans = s.scans.items } };

    ghost invariant = { λ s. IsTrue (is_show (record { profiles = s.profiles.items; zones = s.zones; carriers = s.carriers.items; bans = s.bans.items; scans = s.scans.items })) ×
        (1 ≤ length s.zones.names) × (length s.zones.names ≤ most_zones) × (most_profiles ≤ vec_capacity s.profiles) × (most_carriers ≤ vec_capacity s.carriers) ×
        (most_bans ≤ vec_capacity s.bans) × (most_scans ≤ vec_capacity s.scans) };
}

impl Show {
    /// How many carriers there may be.
    pub const MAX_CARRIERS: usize = rf_zones::MAX_CARRIERS;

    /// How many profiles there may be.
    pub const MAX_PROFILES: usize = 64;

    /// How many bans there may be.
    pub const MAX_BANS: usize = 256;

    /// How many scans there may be.
    pub const MAX_SCANS: usize = 16;

    /// How far the threshold of a scan may be from 0, in billionths.
    pub const MAX_THRESHOLD: u64 = 200_000_000_000;

    /// The largest width of a scan, in kilohertz.
    pub const MAX_SCAN_WIDTH: u32 = 100_000;

    /// By how much a show may be raised, in kilohertz.
    pub const MAX_RAISED: u32 = 1_000;

    /// The show with the zone `main` alone.
    pub fn new(alloc: Global) -> Result<Show, NoMemory>
        ensures { IfOk result (λ show. show ≡ first_show) }
    {
        Ok(Show {
            profiles: Vec::with_capacity(alloc, Show::MAX_PROFILES)?,
            zones: Zones::new(),
            carriers: Vec::with_capacity(alloc, Show::MAX_CARRIERS)?,
            bans: Vec::with_capacity(alloc, Show::MAX_BANS)?,
            scans: Vec::with_capacity(alloc, Show::MAX_SCANS)?,
        })
    }

    /// The same show again, with room for all limits. `NoMemory` where no memory is found.
    pub fn copy(&self, alloc: Global) -> Result<Show, NoMemory>
        ensures { IfOk result (λ show. show ≡ self.now) }
    {
        Ok(Show {
            profiles: copied(alloc, self.profiles(), Show::MAX_PROFILES)?,
            zones: self.zones,
            carriers: copied(alloc, self.carriers(), Show::MAX_CARRIERS)?,
            bans: copied(alloc, self.bans(), Show::MAX_BANS)?,
            scans: copied_scans(alloc, self.scans())?,
        })
    }

    /// Widens each spacing and each margin that isn't 0 by `extra`, at most `MAX_RAISED`, of a show of which none is wider
    /// than a text may give. It takes no memory.
    pub fn raise(&mut self, extra: u32)
        requires few { extra ≤ most_raised }
        requires textual { is_textual self.old ≡ true }
        ensures { self.new ≡ raised self.old extra }
    {
        widen_all(&mut self.profiles, extra);
    }

    /// Whether an edit can be made, or the first reason against it.
    pub fn admits(&self, edit: &Edit) -> Result<(), Refusal>
        ensures { result ≡ ok_unless (refusal self.now edit.now) }
    {
        let profiles = self.profiles();
        let zones = self.zones();
        let carriers = self.carriers();
        match edit {
            Edit::AddProfile { name, numbers } => admit::new_profile(profiles, *name, numbers),
            Edit::AddProfiles { list } => admit::new_profiles(profiles, list.as_slice()),
            Edit::AddRange {
                name,
                from,
                to,
                step,
            } => admit::new_range(profiles, carriers, *name, Range::new(*from, *to, *step)),
            Edit::DropProfile { name } => admit::profile_removal(profiles, carriers, *name),
            Edit::AddZone { name } => admit::new_zone(zones, *name),
            Edit::Couple { a, b } | Edit::Uncouple { a, b } | Edit::Far { a, b } => {
                admit::coupling(zones, *a, *b)
            }
            Edit::AddCarrier {
                name,
                profile,
                zone,
            } => admit::new_carrier(profiles, zones, carriers, *name, *profile, *zone),
            Edit::Remove { name } | Edit::Clear { name } => admit::unlocked(carriers, *name),
            Edit::AddTime { name, from, to } => admit::new_time(carriers, *name, *from, *to),
            Edit::Always { name } | Edit::Unlock { name } => admit::named(carriers, *name),
            Edit::SetAt { name, khz } => admit::frequency(carriers, *name, *khz),
            Edit::Lock { name } => admit::lock(carriers, *name),
            Edit::AddBan { lo, hi, zone } => admit::new_ban(zones, self.bans(), *lo, *hi, *zone),
            Edit::Unban { number } => admit::numbered(self.bans.len(), *number),
            Edit::AddScan {
                zone,
                threshold,
                width,
                ..
            } => admit::new_scan(zones, self.scans(), *zone, *threshold, *width),
            Edit::Unscan { number } => admit::numbered(self.scans.len(), *number),
            Edit::Place { at } => admit::place(carriers, at.as_slice()),
        }
    }

    /// Makes an edit, and answers what leads back. It is refused exactly as `admits` says, and then the show is unchanged.
    pub fn apply(&mut self, edit: Edit) -> Result<Undo, Refusal>
        requires { IsTrue (is_edit edit) }
        ensures after { IfOk result (λ _. after self.old edit ≡ Ok self.new) }
        ensures undo { IfOk result (λ undo. taken self.new undo ≡ Some self.old) }
        ensures refused { IfErr result (λ reason. after self.old edit ≡ Err reason) }
        ensures unchanged { OnErr result (self.new ≡ self.old) }
    {
        self.admits(&edit)?;
        let step = self.step_of(edit);
        Ok(self.back(Undo { step }))
    }

    // The step that makes an edit against which there is no reason.
    fn step_of(&self, edit: Edit) -> Step
        requires { refusal self.now edit ≡ None }
        ensures fits { step_fits self.now result ≡ true }
        ensures there { stepped self.now result ≡ edited self.now edit }
        ensures shown { is_show self.now ≡ true }
    {
        let profiles = self.profiles();
        let zones = self.zones();
        let carriers = self.carriers();
        match edit {
            Edit::AddProfile { name, numbers } => {
                Step::Profiles(profile_steps::with_profile(profiles, name, &numbers))
            }
            Edit::AddProfiles { list } => Step::Profiles(Change::PutAll { more: list }),
            Edit::AddRange {
                name,
                from,
                to,
                step,
            } => Step::Profiles(profile_steps::with_range(profiles, name, from, to, step)),
            Edit::DropProfile { name } => { Step::Profiles(profile_steps::removal(profiles, name)) }
            Edit::AddZone { name } => Step::Zones(ZoneChange::PutZone { name }),
            Edit::Couple { a, b } => Step::Zones(with_coupling(zones, a, b, Coupling::Coupled)),
            Edit::Uncouple { a, b } => Step::Zones(with_coupling(zones, a, b, Coupling::Apart)),
            Edit::Far { a, b } => Step::Zones(with_coupling(zones, a, b, Coupling::Far)),
            Edit::AddCarrier {
                name,
                profile,
                zone,
            } => Step::Carriers(carrier_steps::with_carrier(carriers, name, profile, zone)),
            Edit::Remove { name } => Step::Carriers(carrier_steps::removal(carriers, name)),
            Edit::AddTime { name, from, to } => {
                Step::Carriers(carrier_steps::with_time(carriers, name, from, to))
            }
            Edit::Always { name } => Step::Carriers(carrier_steps::always_on(carriers, name)),
            Edit::SetAt { name, khz } => {
                let at = Khz::new(u64::from(khz));
                Step::Carriers(carrier_steps::with_at(carriers, name, at))
            }
            Edit::Clear { name } => Step::Carriers(carrier_steps::with_at(carriers, name, None)),
            Edit::Lock { name } => Step::Carriers(carrier_steps::with_lock(carriers, name, true)),
            Edit::Unlock { name } => {
                Step::Carriers(carrier_steps::with_lock(carriers, name, false))
            }
            Edit::AddBan { lo, hi, zone } => {
                Step::Bans(exclusion_steps::with_ban(self.bans(), lo, hi, zone))
            }
            Edit::Unban { number } => Step::Bans(exclusion_steps::removal(self.bans(), number)),
            Edit::AddScan {
                file,
                sep,
                zone,
                threshold,
                width,
                hot,
            } => {
                let scan = ScanSet {
                    file,
                    sep,
                    zone,
                    threshold,
                    width,
                    hot,
                };
                Step::Scans(exclusion_steps::with_scan(self.scans(), scan))
            }
            Edit::Unscan { number } => Step::Scans(exclusion_steps::removal(self.scans(), number)),
            Edit::Place { at } => Step::Frequencies(at),
        }
    }

    /// Goes to the show to which an undo value leads, and answers what leads back from there.
    pub fn back(&mut self, undo: Undo) -> Undo
        requires { IsSome (taken self.old undo) }
        ensures there { taken self.old undo ≡ Some self.new }
        ensures forth { taken self.new result ≡ Some self.old }
    {
        let Undo { step } = undo;
        let step = match step {
            Step::Profiles(change) => Step::Profiles(make_change(&mut self.profiles, change)),
            Step::Carriers(change) => Step::Carriers(make_change(&mut self.carriers, change)),
            Step::Zones(change) => Step::Zones(change_zones(&mut self.zones, change)),
            Step::Bans(change) => Step::Bans(make_change(&mut self.bans, change)),
            Step::Scans(change) => Step::Scans(make_change(&mut self.scans, change)),
            Step::Frequencies(ats) => {
                Step::Frequencies(change_frequencies(&mut self.carriers, ats))
            }
        };
        Undo { step }
    }

    /// The carriers, in the order in which they were added.
    pub fn carriers(&self) -> &[Carrier]
        ensures value { result.now ≡ self.now.carriers }
        ensures form { IsTrue (is_show self.now) }
        ensures few { length self.now.carriers ≤ most_carriers }
    {
        self.carriers.as_slice()
    }

    /// The profiles, in the order in which they were added.
    pub fn profiles(&self) -> &[Profile]
        ensures { result.now ≡ self.now.profiles }
    {
        self.profiles.as_slice()
    }

    /// The zones, `main` first.
    pub fn zones(&self) -> &Zones
        ensures { result.now ≡ self.now.zones }
    {
        &self.zones
    }

    /// The bans, numbered by their places from 1.
    pub fn bans(&self) -> &[Ban]
        ensures { result.now ≡ self.now.bans }
    {
        self.bans.as_slice()
    }

    /// The scans, numbered by their places from 1.
    pub fn scans(&self) -> &[ScanSet]
        ensures { result.now ≡ self.now.scans }
    {
        self.scans.as_slice()
    }
}

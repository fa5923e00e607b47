//! The tests for edits, list by list.

ghost use Rattle.std.specs.Prelude.{◌≡◌};
ghost use Rattle.std.specs.List.{list_any};
ghost use Rattle.rf_profiles.specs.Range.{range_of};
ghost use Rattle.rf_show.specs.Reasons.{ok_or_first};
ghost use Rattle.rf_show.specs.Reasons as reasons;
ghost use Rattle.rf_show.specs.Show as of_show;

use crate::carrier::Carrier;
use crate::find::{carrier_named, has_profile, is_used, profile_named};
use crate::refusal::Refusal;
use crate::show::Show;
use rf_base::{Decimal, Khz, Name};
use rf_exclusions::{Ban, ScanSet};
use rf_profiles::{ChannelsFault, Profile, Range};
use rf_zones::{Times, Zones};

pub(crate) fn new_profile(
    profiles: &[Profile],
    name: Name,
    numbers: &[u32; Profile::NUMBERS],
) -> Result<(), Refusal>
    ensures { result ≡ ok_or_first (reasons.new_profile_reasons profiles.now name numbers.now) }
{
    if has_profile(profiles, name) {
        return Err(Refusal::Taken);
    }
    if Profile::from_numbers(name, numbers).is_none() {
        return Err(Refusal::Number);
    }
    if profiles.len() >= Show::MAX_PROFILES {
        return Err(Refusal::Full);
    }
    Ok(())
}

pub(crate) fn new_profiles(profiles: &[Profile], list: &[Profile]) -> Result<(), Refusal>
    ensures { result ≡ ok_or_first (reasons.new_profiles_reasons profiles.now list.now) }
{
    if has_any(profiles, list) {
        return Err(Refusal::Taken);
    }
    if profiles.len() + list.len() > Show::MAX_PROFILES {
        return Err(Refusal::Full);
    }
    Ok(())
}

// Whether a name of the list is there already.
fn has_any(profiles: &[Profile], list: &[Profile]) -> bool
    ensures { result ≡ list_any (λ p. of_show.has_profile profiles.now p.name) list.now }
{
    list.iter().any(|p| has_profile(profiles, p.name))
}

pub(crate) fn new_range(
    profiles: &[Profile],
    carriers: &[Carrier],
    name: Name,
    range: Option<Range>,
) -> Result<(), Refusal>
    ensures { result ≡ ok_or_first (reasons.range_reasons profiles.now carriers.now name range) }
{
    let profile = profile_named(profiles, name).ok_or(Refusal::Unknown)?;
    let reason = range_reason(profile, range);
    if reason == Some(Refusal::Number) {
        return Err(Refusal::Number);
    }
    if is_used(carriers, name) {
        return Err(Refusal::InUse);
    }
    if reason.is_some() {
        return Err(Refusal::Full);
    }
    Ok(())
}

// The reason against a range more of a profile.
fn range_reason(profile: &Profile, range: Option<Range>) -> Option<Refusal>
    ensures { result ≡ reasons.range_reason profile.now range }
{
    let range = match range {
        Some(range) => range,
        None => return Some(Refusal::Number),
    };
    match profile.channels.with(range) {
        Ok(_) => None,
        Err(ChannelsFault::NotRising) | Err(ChannelsFault::Many) => Some(Refusal::Number),
        Err(ChannelsFault::Ninth) => Some(Refusal::Full),
    }
}

pub(crate) fn profile_removal(
    profiles: &[Profile],
    carriers: &[Carrier],
    name: Name,
) -> Result<(), Refusal>
    ensures { result ≡ ok_or_first (reasons.drop_profile_reasons profiles.now carriers.now name) }
{
    if !has_profile(profiles, name) {
        return Err(Refusal::Unknown);
    }
    if is_used(carriers, name) {
        return Err(Refusal::InUse);
    }
    Ok(())
}

pub(crate) fn new_zone(zones: &Zones, name: Name) -> Result<(), Refusal>
    ensures { result ≡ ok_or_first (reasons.new_zone_reasons zones.now name) }
{
    if zones.find(name).is_some() {
        return Err(Refusal::Taken);
    }
    if zones.count() >= Zones::MAX {
        return Err(Refusal::Full);
    }
    Ok(())
}

pub(crate) fn coupling(zones: &Zones, a: Name, b: Name) -> Result<(), Refusal>
    ensures { result ≡ ok_or_first (reasons.coupling_reasons zones.now a b) }
{
    if zones.find(a).is_none() || zones.find(b).is_none() {
        return Err(Refusal::Unknown);
    }
    Ok(())
}

pub(crate) fn new_carrier(
    profiles: &[Profile],
    zones: &Zones,
    carriers: &[Carrier],
    name: Name,
    profile: Name,
    zone: Name,
) -> Result<(), Refusal>
    ensures { result ≡ ok_or_first (reasons.new_carrier_reasons profiles.now zones.now carriers.now name profile zone) }
{
    if !has_profile(profiles, profile) || zones.find(zone).is_none() {
        return Err(Refusal::Unknown);
    }
    if carrier_named(carriers, name).is_some() {
        return Err(Refusal::Taken);
    }
    if carriers.len() >= Show::MAX_CARRIERS {
        return Err(Refusal::Full);
    }
    Ok(())
}

pub(crate) fn named(carriers: &[Carrier], name: Name) -> Result<(), Refusal>
    ensures { result ≡ ok_or_first (reasons.named_reasons carriers.now name) }
{
    carrier_named(carriers, name).ok_or(Refusal::Unknown)?;
    Ok(())
}

pub(crate) fn unlocked(carriers: &[Carrier], name: Name) -> Result<(), Refusal>
    ensures { result ≡ ok_or_first (reasons.unlocked_reasons carriers.now name) }
{
    let carrier = carrier_named(carriers, name).ok_or(Refusal::Unknown)?;
    if carrier.locked {
        return Err(Refusal::Locked);
    }
    Ok(())
}

pub(crate) fn frequency(carriers: &[Carrier], name: Name, khz: u32) -> Result<(), Refusal>
    ensures { result ≡ ok_or_first (reasons.set_reasons carriers.now name khz) }
{
    named(carriers, name)?;
    if Khz::new(u64::from(khz)).is_none() {
        return Err(Refusal::Number);
    }
    unlocked(carriers, name)
}

pub(crate) fn lock(carriers: &[Carrier], name: Name) -> Result<(), Refusal>
    ensures { result ≡ ok_or_first (reasons.lock_reasons carriers.now name) }
{
    let carrier = carrier_named(carriers, name).ok_or(Refusal::Unknown)?;
    if carrier.at.is_none() {
        return Err(Refusal::NoFrequency);
    }
    Ok(())
}

pub(crate) fn new_time(carriers: &[Carrier], name: Name, from: u32, to: u32) -> Result<(), Refusal>
    ensures { result ≡ ok_or_first (reasons.time_reasons carriers.now name from to) }
{
    let carrier = carrier_named(carriers, name).ok_or(Refusal::Unknown)?;
    if from >= to || to > u32::from(Times::WEEK) {
        return Err(Refusal::Number);
    }
    if carrier.times.list().len() >= Times::MAX {
        return Err(Refusal::Full);
    }
    Ok(())
}

pub(crate) fn place(carriers: &[Carrier], ats: &[Option<Khz>]) -> Result<(), Refusal>
    ensures { result ≡ ok_or_first (reasons.place_reasons carriers.now ats.now) }
{
    if ats.len() != carriers.len() {
        return Err(Refusal::Number);
    }
    if moves_locked(carriers, ats) {
        return Err(Refusal::Locked);
    }
    Ok(())
}

// Whether these frequencies move a locked carrier.
fn moves_locked(carriers: &[Carrier], ats: &[Option<Khz>]) -> bool
    ensures { result ≡ reasons.moves_locked carriers.now ats.now }
{
    carriers
        .iter()
        .zip(ats)
        .any(|(c, at)| c.locked && !is_same(c.at, *at))
}

fn is_same(a: Option<Khz>, b: Option<Khz>) -> bool
    ensures { result ≡ reasons.same_at a b }
{
    a == b
}

pub(crate) fn new_ban(
    zones: &Zones,
    bans: &[Ban],
    lo: u32,
    hi: u32,
    zone: Option<Name>,
) -> Result<(), Refusal>
    ensures { result ≡ ok_or_first (reasons.new_ban_reasons zones.now bans.now lo hi zone) }
{
    if !has_zone_or_all(zones, zone) {
        return Err(Refusal::Unknown);
    }
    let are_khz = Khz::new(u64::from(lo)).is_some() && Khz::new(u64::from(hi)).is_some();
    if !are_khz || lo > hi {
        return Err(Refusal::Number);
    }
    if bans.len() >= Show::MAX_BANS {
        return Err(Refusal::Full);
    }
    Ok(())
}

// Whether a zone is there, or all zones are meant.
fn has_zone_or_all(zones: &Zones, zone: Option<Name>) -> bool
    ensures { result ≡ of_show.has_zone_or_all zones.now zone }
{
    match zone {
        Some(name) => zones.find(name).is_some(),
        None => true,
    }
}

pub(crate) fn new_scan(
    zones: &Zones,
    scans: &[ScanSet],
    zone: Name,
    threshold: Decimal,
    width: u32,
) -> Result<(), Refusal>
    ensures { result ≡ ok_or_first (reasons.new_scan_reasons zones.now scans.now zone threshold width) }
{
    if zones.find(zone).is_none() {
        return Err(Refusal::Unknown);
    }
    if threshold.0.unsigned_abs() > Show::MAX_THRESHOLD || width > Show::MAX_SCAN_WIDTH {
        return Err(Refusal::Number);
    }
    if scans.len() >= Show::MAX_SCANS {
        return Err(Refusal::Full);
    }
    Ok(())
}

pub(crate) fn numbered(count: usize, number: u32) -> Result<(), Refusal>
    ensures { result ≡ ok_or_first (reasons.numbered_reasons count number) }
{
    if number < 1 || number as usize > count {
        return Err(Refusal::Number);
    }
    Ok(())
}

//! Who hears whom, and who shares a minute.
use crate::hold::{Broken, hold, told};
use rf_base::Name;
use rf_zones::{Coupling, MAX_CARRIERS, Mask, Slices, Times, Zones, share_minute};
use std::alloc::Global;
use std::test::Fail;

fn add(zones: &mut Zones, word: &[u8]) -> bool {
    match Name::read(word) {
        Some(name) if zones.find(name).is_none() && zones.count() < Zones::MAX => {
            zones.add(name);
            true
        }
        _ => false,
    }
}

fn couple(zones: &mut Zones, a: u8, b: u8, coupling: Coupling) {
    if a >= zones.count() || b >= zones.count() {
        return;
    }
    match coupling {
        Coupling::Apart => zones.uncouple(a, b),
        Coupling::Coupled => zones.couple(a, b),
        Coupling::Far => zones.far(a, b),
    }
}

fn hear(zones: &Zones, a: u8, b: u8) -> bool {
    a < zones.count() && b < zones.count() && zones.heard(a, b)
}

fn reach(zones: &Zones, a: u8, b: u8) -> bool {
    a < zones.count() && b < zones.count() && zones.reach(a, b)
}

fn is_main(zones: &Zones) -> bool {
    zones.count() == 3 && zones.name(0).bytes() == b"main".as_slice()
}

fn is_found(zones: &Zones, z: u8) -> bool {
    z < zones.count() && zones.find(zones.name(z)) == Some(z)
}

fn coupled_zones() -> Result<(), Broken> {
    let mut zones = Zones::new();
    let stage = add(&mut zones, b"stage");
    let hall = add(&mut zones, b"hall");
    couple(&mut zones, 0, 1, Coupling::Coupled);
    couple(&mut zones, 2, 1, Coupling::Coupled);
    couple(&mut zones, 2, 2, Coupling::Coupled);
    hold(&[
        (stage && hall, "two zones more"),
        (is_main(&zones), "main is the first of three"),
        (is_found(&zones, 2), "the last is found by its name"),
        (hear(&zones, 0, 0), "a zone hears itself"),
        (hear(&zones, 1, 0), "coupled zones hear each other"),
        (hear(&zones, 1, 2), "the other two as well"),
        (!hear(&zones, 0, 2), "coupling is not transitive"),
    ])?;
    couple(&mut zones, 1, 2, Coupling::Apart);
    couple(&mut zones, 2, 2, Coupling::Apart);
    hold(&[
        (!hear(&zones, 2, 1), "no more coupled"),
        (hear(&zones, 2, 2), "a zone hears itself always"),
        (hear(&zones, 0, 1), "the others stay coupled"),
    ])?;
    couple(&mut zones, 2, 0, Coupling::Far);
    couple(&mut zones, 1, 0, Coupling::Far);
    couple(&mut zones, 2, 2, Coupling::Far);
    hold(&[
        (!hear(&zones, 0, 1), "coupled far, and no longer near"),
        (reach(&zones, 0, 1), "far coupled zones reach each other"),
        (reach(&zones, 0, 2), "in either order"),
        (!reach(&zones, 1, 2), "far coupling is not transitive"),
        (hear(&zones, 2, 2), "a zone hears itself always"),
    ])?;
    couple(&mut zones, 0, 1, Coupling::Coupled);
    hold(&[
        (hear(&zones, 0, 1), "coupled, and no longer far"),
        (reach(&zones, 1, 0), "coupled zones reach each other"),
    ])
}

fn times_of(list: &[(u16, u16)]) -> Option<Times> {
    let mut times = Times::new();
    for (from, to) in list {
        if times.list().len() >= Times::MAX || from >= to || *to > Times::WEEK {
            return None;
        }
        times.add(*from, *to);
    }
    Some(times)
}

fn minutes() -> Result<(), Broken> {
    let always = Times::new();
    let times = times_of(&[(9, 10), (20, 30)]).ok_or("times")?;
    hold(&[
        (always.on(0) && always.on(10_079), "always"),
        (!times.on(8), "before the first"),
        (times.on(9), "its start"),
        (!times.on(10), "not its end"),
        (times.on(20), "the start of the second"),
        (times.on(29), "its last minute"),
        (!times.on(30), "not its end either"),
    ])
}

fn have(masks: &[Mask], set: Mask) -> bool {
    for mask in masks {
        if *mask & set == set {
            return true;
        }
    }
    false
}

// Three carriers, of which each two share a minute and the three none.
fn three() -> Option<[Times; 3]> {
    Some([
        times_of(&[(0, 10), (20, 30)])?,
        times_of(&[(0, 20)])?,
        times_of(&[(10, 30)])?,
    ])
}

fn slices(alloc: Global) -> Result<(), Broken> {
    let all = three().ok_or("times")?;
    let slices = Slices::of(alloc, &all)?;
    hold(&[
        (have(slices.masks(), 3), "the first two have a slice"),
        (have(slices.masks(), 5), "the first and the last"),
        (have(slices.masks(), 6), "the last two"),
        (!have(slices.masks(), 7), "the three have none"),
        (share_minute(&all, &[0, 1]), "the first two share a minute"),
        (share_minute(&all, &[0, 2]), "the first and the last do"),
        (share_minute(&all, &[1, 2]), "the last two do"),
        (share_minute(&all, &[]), "none of them do"),
        (!share_minute(&all, &[2, 0, 1]), "the three don't"),
    ])
}

// All are always on but two: the last one in minute 0 alone, another in minute 5 alone.
fn slices_of_all(alloc: Global) -> Result<(), Broken> {
    let mut all = [Times::new(); MAX_CARRIERS];
    all[MAX_CARRIERS - 1] = times_of(&[(0, 1)]).ok_or("times")?;
    all[64] = times_of(&[(5, 6)]).ok_or("times")?;
    let slices = Slices::of(alloc, &all)?;
    let first: Mask = 1;
    hold(&[
        (
            have(slices.masks(), first | first << 95),
            "the first and the last share minute 0",
        ),
        (
            have(slices.masks(), first << 63 | first << 64),
            "the sixty-fourth and the next share minute 5",
        ),
        (
            !have(slices.masks(), first << 64 | first << 95),
            "the last shares no minute with that one",
        ),
    ])
}

fn all(alloc: Global) -> Result<(), Broken> {
    coupled_zones()?;
    minutes()?;
    slices(alloc)?;
    slices_of_all(alloc)
}

#[test]
fn zones_hear_and_times_meet_pair_by_pair(rt: HostRuntime) -> Result<(), Fail> {
    told(all(rt.alloc()))
}

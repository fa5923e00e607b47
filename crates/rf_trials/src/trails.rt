//! Trails beside plain lists of what was removed.
ghost use Rattle.std.specs.Prelude.{◌≡◌};

use crate::hold::{Broken, hold, told};
use rf_base::NoMemory;
use rf_log::{Cond, Hint};
use rf_trail::{Entry, Mark, Trail};
use std::alloc::Global;
use std::test::Fail;

fn ban(carrier: u32, lo: u32, hi: u32) -> Hint {
    Hint::Ban { carrier, lo, hi }
}

/// Removes a range, where it is one of the carrier's.
fn remove(trail: &mut Trail, carrier: usize, lo: u32, hi: u32) -> Result<(), NoMemory> {
    let domains = trail.domains();
    if carrier >= domains.carriers() || carrier >= 64 {
        return Ok(());
    }
    if lo > hi || hi >= domains.size(carrier) {
        return Ok(());
    }
    trail.remove_because(carrier, lo, hi, ban(carrier as u32, lo, hi))
}

/// Decides a condition, where its range is one of the carrier's.
pub(crate) fn decide(trail: &mut Trail, cond: Cond) -> Result<(), NoMemory>
    ensures { trail.new.counts ≡ trail.old.counts }
{
    let domains = trail.domains();
    let carrier = cond.carrier as usize;
    if carrier >= domains.carriers() {
        return Ok(());
    }
    if cond.lo > cond.hi || cond.hi >= domains.size(carrier) {
        return Ok(());
    }
    trail.decide(cond)
}

fn undo(trail: &mut Trail, mark: Mark) {
    if mark.entries <= trail.len() {
        trail.undo_to(mark);
    }
}

/// Whether the entry of a number, counted from the oldest, is this one.
pub(crate) fn is_entry(trail: &Trail, n: usize, wanted: Entry) -> bool {
    n < trail.len() && trail.entry(n) == wanted
}

/// Bit k is set where index k is left to the carrier.
fn left(trail: &Trail, carrier: usize) -> u64 {
    let domains = trail.domains();
    let mut bits = 0;
    if carrier >= domains.carriers() {
        return bits;
    }
    for k in 0..64 {
        if domains.has(carrier, k) {
            bits |= 1 << k;
        }
    }
    bits
}

fn cond(carrier: u32, inside: bool, lo: u32, hi: u32) -> Cond {
    Cond {
        carrier,
        inside,
        lo,
        hi,
    }
}

/// A trail with an entry, and three carriers.
fn begun(alloc: Global) -> Result<Trail, NoMemory> {
    let mut trail = Trail::new(alloc, &[4, 4, 4])?;
    remove(&mut trail, 0, 1, 2)?;
    Ok(trail)
}

fn gone_on(trail: &mut Trail) -> Result<(), NoMemory> {
    decide(trail, cond(2, false, 0, 2))?;
    remove(trail, 0, 0, 1)?;
    remove(trail, 1, 2, 3)
}

fn decided() -> Entry {
    Entry {
        carrier: 2,
        lo: 0,
        hi: 2,
        hint: None,
    }
}

fn removed() -> Entry {
    Entry {
        carrier: 0,
        lo: 1,
        hi: 2,
        hint: Some(ban(0, 1, 2)),
    }
}

fn all_entries(trail: &Trail) -> Result<(), Broken> {
    hold(&[
        (trail.len() == 6, "six entries"),
        (left(trail, 0) == 0b1000, "what is left to the first"),
        (left(trail, 1) == 0b0010, "what is left to the second"),
        (left(trail, 2) == 0b1000, "what is left to the third"),
        (trail.left() == 3, "one index each"),
        (is_entry(trail, 3, decided()), "a decision has no hint"),
    ])
}

fn first_entry(trail: &Trail) -> Result<(), Broken> {
    hold(&[
        (trail.len() == 1, "one entry is left"),
        (is_entry(trail, 0, removed()), "a removal has its hint"),
        (left(trail, 0) == 0b1001, "what it leaves"),
        (left(trail, 1) == 0b1111, "the second has all again"),
        (left(trail, 2) == 0b1111, "the third has all again"),
    ])
}

fn undone(alloc: Global) -> Result<(), Broken> {
    let mut trail = begun(alloc)?;
    let mark = trail.mark();
    decide(&mut trail, cond(1, true, 1, 2))
        .ok()
        .ok_or("memory")?;
    hold(&[
        (trail.len() == 3, "a decision cuts at both ends"),
        (left(&trail, 1) == 0b0110, "what it leaves"),
    ])?;
    gone_on(&mut trail)?;
    all_entries(&trail)?;
    undo(&mut trail, mark);
    first_entry(&trail)
}

fn next(seed: u64) -> u64 {
    seed.wrapping_mul(6_364_136_223_846_793_005)
        .wrapping_add(1_442_695_040_888_963_407)
}

/// A removal: a carrier, its lowest and its highest index.
type Removal = (usize, u32, u32);

/// What is left to a carrier of 64 indices by removals.
fn plainly_left(removals: &[Removal], carrier: usize) -> u64 {
    let mut bits = u64::MAX;
    for removal in removals {
        for k in removal.1..removal.2.saturating_add(1) {
            if removal.0 == carrier && k < 64 {
                bits &= !(1 << k);
            }
        }
    }
    bits
}

fn some_removal(seed: u64) -> Removal {
    let carrier = ((seed >> 20) % 3) as usize;
    let lo = ((seed >> 30) % 60) as u32;
    (carrier, lo, lo + ((seed >> 40) % 4) as u32)
}

/// Removes a range, or undoes some of the removals, in the trail and in the list.
fn step(trail: &mut Trail, removals: &mut Vec<Removal>, seed: u64) -> Result<(), NoMemory> {
    if seed >> 60 == 0 {
        let keep = (seed >> 50) as usize % (removals.len() + 1);
        removals.truncate(keep);
        undo(trail, Mark { entries: keep });
        return Ok(());
    }
    let (carrier, lo, hi) = some_removal(seed);
    removals.push((carrier, lo, hi))?;
    remove(trail, carrier, lo, hi)
}

fn agree(trail: &Trail, removals: &[Removal]) -> bool {
    for carrier in 0..3 {
        if left(trail, carrier) != plainly_left(removals, carrier) {
            return false;
        }
    }
    trail.len() == removals.len()
}

fn by_chance(alloc: Global) -> Result<bool, NoMemory> {
    let mut trail = Trail::new(alloc, &[64, 64, 64])?;
    let mut removals = Vec::new(alloc);
    let mut seed = 1;
    for _ in 0..3000u32 {
        seed = next(seed);
        step(&mut trail, &mut removals, seed)?;
        if !agree(&trail, removals.as_slice()) {
            return Ok(false);
        }
    }
    Ok(true)
}

fn all(alloc: Global) -> Result<(), Broken> {
    undone(alloc)?;
    let agree = by_chance(alloc)?;
    hold(&[(agree, "removals and undos by chance")])
}

#[test]
fn trails_undo_what_they_removed(rt: HostRuntime) -> Result<(), Fail> {
    told(all(rt.alloc()))
}

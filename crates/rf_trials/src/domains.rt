//! Sets of indices across the ends of words, copied, and within one another.
ghost use Rattle.std.specs.Prelude.{◌≡◌};
ghost use Rattle.rf_domain.specs.Sets.{sizes};

use crate::hold::{Broken, hold, told};
use rf_base::NoMemory;
use rf_domain::Domains;
use std::alloc::Global;
use std::test::Fail;

/// How a range changes a set.
#[derive(Clone, Copy)]
enum Way {
    Removed,
    Kept,
    PutBack,
}

/// Changes a carrier's set by a range, where it is one of the set's.
fn change(domains: &mut Domains, way: Way, carrier: usize, lo: u32, hi: u32)
    ensures { sizes domains.new ≡ sizes domains.old }
{
    if carrier >= domains.carriers() || lo > hi || hi >= domains.size(carrier) {
        return;
    }
    match way {
        Way::Removed => domains.remove_range(carrier, lo, hi),
        Way::Kept => domains.keep_range(carrier, lo, hi),
        Way::PutBack => domains.put_back(carrier, lo, hi),
    }
}

fn next(domains: &Domains, carrier: usize, from: u32) -> Option<u32> {
    if carrier < domains.carriers() {
        return domains.next(carrier, from);
    }
    None
}

fn only(domains: &Domains, carrier: usize) -> Option<u32> {
    if carrier < domains.carriers() {
        return domains.only(carrier);
    }
    None
}

fn count(domains: &Domains, carrier: usize) -> u32 {
    if carrier < domains.carriers() {
        return domains.count(carrier);
    }
    0
}

fn has(domains: &Domains, carrier: usize, k: u32) -> bool {
    carrier < domains.carriers() && domains.has(carrier, k)
}

/// The end of the run that begins at an index that is left.
fn run_end(domains: &Domains, carrier: usize, from: u32) -> Option<u32> {
    if carrier < domains.carriers() && domains.has(carrier, from) {
        return Some(domains.run_end(carrier, from));
    }
    None
}

fn across_words(alloc: Global) -> Result<(), Broken> {
    let mut domains = Domains::new(alloc, &[4, 200])?;
    change(&mut domains, Way::Removed, 1, 60, 130);
    hold(&[
        (count(&domains, 1) == 129, "71 of 200 are gone"),
        (
            next(&domains, 1, 60) == Some(131),
            "the first behind the range",
        ),
    ])?;
    change(&mut domains, Way::Kept, 1, 130, 131);
    hold(&[
        (only(&domains, 1) == Some(131), "one index is left"),
        (next(&domains, 1, 131) == Some(131), "it is found at itself"),
        (next(&domains, 1, 132).is_none(), "none lies above"),
    ])?;
    change(&mut domains, Way::PutBack, 1, 59, 64);
    put_back(&domains)
}

fn put_back(domains: &Domains) -> Result<(), Broken> {
    hold(&[
        (only(domains, 1).is_none(), "more than one is left"),
        (count(domains, 1) == 7, "six came back"),
        (next(domains, 1, 0) == Some(59), "the first that came back"),
        (next(domains, 1, 65) == Some(131), "the one that was left"),
        (next(domains, 1, 132).is_none(), "none above it"),
    ])?;
    hold(&[
        (has(domains, 1, 64), "the last that came back"),
        (!has(domains, 1, 65), "the one above it"),
        (!has(domains, 1, 200), "no index of the set"),
        (has(domains, 1, 60), "one in the middle"),
        (run_end(domains, 1, 60) == Some(64), "the end of its run"),
        (count(domains, 0) == 4, "another carrier's set"),
    ])
}

/// Whether the first sets lie within the others, which were made for the same sizes.
fn within(domains: &Domains, others: &Domains) -> bool
    requires { sizes domains.now ≡ sizes others.now }
{
    domains.is_within(others)
}

fn fewer(alloc: Global) -> Result<[bool; 3], NoMemory> {
    let all = Domains::new(alloc, &[4, 200])?;
    let mut some = all.copy(alloc)?;
    let same = within(&some, &all);
    change(&mut some, Way::Removed, 0, 1, 2);
    change(&mut some, Way::Removed, 1, 130, 131);
    Ok([same, within(&some, &all), within(&all, &some)])
}

fn one_too_many(alloc: Global) -> Result<[bool; 3], NoMemory> {
    let all = Domains::new(alloc, &[200, 200])?;
    let mut less = all.copy(alloc)?;
    change(&mut less, Way::Removed, 0, 199, 199);
    let in_the_last_word = within(&all, &less);
    change(&mut less, Way::PutBack, 0, 199, 199);
    let put_back = within(&all, &less);
    change(&mut less, Way::Removed, 1, 64, 64);
    Ok([in_the_last_word, put_back, within(&all, &less)])
}

fn sets_within(alloc: Global) -> Result<(), Broken> {
    let [same, fewer, more] = fewer(alloc)?;
    let [last_word, put_back, last_carrier] = one_too_many(alloc)?;
    hold(&[
        (same, "a copy lies within the first"),
        (fewer, "fewer lie within more"),
        (!more, "more don't lie within fewer"),
        (!last_word, "one too many in the last word"),
        (put_back, "it came back"),
        (!last_carrier, "one too many in the last carrier"),
    ])
}

fn copies(alloc: Global) -> Result<(Domains, Domains), NoMemory> {
    let mut first = Domains::new(alloc, &[4, 200])?;
    change(&mut first, Way::Removed, 1, 0, 99);
    let copy = first.copy(alloc)?;
    change(&mut first, Way::Kept, 1, 150, 150);
    change(&mut first, Way::Removed, 0, 0, 3);
    Ok((first, copy))
}

fn size(domains: &Domains, carrier: usize) -> u32 {
    if carrier < domains.carriers() {
        return domains.size(carrier);
    }
    0
}

fn copies_stay(alloc: Global) -> Result<(), Broken> {
    let (first, copy) = copies(alloc)?;
    hold(&[
        (copy.carriers() == 2, "as many carriers"),
        (size(&copy, 1) == 200, "of the same size"),
        (count(&copy, 0) == 4, "the first set as it was"),
        (count(&copy, 1) == 100, "the second set as it was"),
        (next(&copy, 1, 0) == Some(100), "and what is left of it"),
        (only(&copy, 1).is_none(), "more than one index"),
        (only(&first, 1) == Some(150), "the first sets have changed"),
        (count(&first, 0) == 0, "each of them"),
    ])
}

fn all(alloc: Global) -> Result<(), Broken> {
    across_words(alloc)?;
    sets_within(alloc)?;
    copies_stay(alloc)
}

#[test]
fn sets_hold_the_indices_that_are_left(rt: HostRuntime) -> Result<(), Fail> {
    told(all(rt.alloc()))
}

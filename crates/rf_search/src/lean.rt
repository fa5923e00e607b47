//! A candidate made shorter: what each carrier has to lose is taken out by the fewest hints that there are, recorded or not.
//! Nothing is promised of them; they are replayed before they are handed out.

ghost use Rattle.std.specs.Prelude.{◌≡◌, ◌<◌, length};
ghost use Rattle.rf_domain.specs.Sets.{sizes};
ghost use Rattle.rf_log.specs.Case.{counts_of};

use crate::analysis::Candidate;
use bumpalo::Bump;
use bumpalo::collections::into_bump_slice;
use rf_base::NoMemory;
use rf_domain::Domains;
use rf_log::Hint;
use rf_propagate::{Applies, Furthest, Reach};
use std::alloc::{AllocError, Global};

/// Fewer hints that take out what the candidate's do, over the sets that its conditions leave. The carriers come in the order in
/// which they lose their last index. None where that does not work. `NoMemory` where no memory is found.
pub fn lean<'a, T: Applies>(
    alloc: Global,
    bump: &'a Bump,
    theory: &T,
    sets: &mut Domains,
    candidate: Candidate<'_>,
) -> Result<Option<&'a [Hint]>, NoMemory>
    requires { sizes sets.old ≡ counts_of (T.case theory.now) }
{
    let mut hints = Vec::new(bump);
    for n in 0..candidate.carriers.len() {
        let carrier = candidate.carriers[n];
        if candidate.carriers[n + 1..].contains(&carrier) {
            continue;
        }
        let shorter = fewest(alloc, bump, theory, sets, candidate, carrier)?;
        for hint in shorter {
            if !theory.apply(sets, hint) {
                return Ok(None);
            }
            hints.push(*hint)?;
        }
    }
    Ok(Some(into_bump_slice(hints)))
}

// The hints on one carrier: those of earlier lines, and the fewest others that take out what the candidate's do.
fn fewest<'a, T: Applies>(
    alloc: Global,
    bump: &'a Bump,
    theory: &T,
    sets: &Domains,
    candidate: Candidate<'_>,
    carrier: usize,
) -> Result<&'a [Hint], NoMemory>
    requires { sizes sets.now ≡ counts_of (T.case theory.now) }
{
    let mut hints = Vec::new(bump);
    if carrier >= sets.carriers() {
        return Ok(into_bump_slice(hints));
    }
    let size = sets.size(carrier);
    let mut wanted = Furthest::new(alloc, size)?;
    let mut offered = Furthest::new(alloc, size)?;
    for (n, own) in candidate.carriers.iter().enumerate() {
        if *own != carrier || n >= candidate.hints.len() {
            continue;
        }
        let hint = candidate.hints[n];
        match range_of(hint) {
            Some((lo, hi)) => {
                wanted.offer(lo, hi, hint);
                offered.offer(lo, hi, hint);
            }
            None => hints.push(hint)?,
        }
    }
    theory.offer(sets, carrier, &mut offered);
    choose(sets, carrier, &wanted, &offered, &mut hints)?;
    Ok(into_bump_slice(hints))
}

// Chooses of the hints that are offered the fewest that take out what the wanted ones do: from the lowest index on, each time the
// one that reaches furthest.
fn choose<'a>(
    sets: &Domains,
    carrier: usize,
    wanted: &Furthest,
    offered: &Furthest,
    hints: &mut Vec<Hint, &'a Bump>,
) -> Result<(), AllocError>
    requires { carrier < length sets.now }
{
    let mut wants = None;
    let mut best = None;
    let mut next = 0;
    for index in 0..sets.size(carrier) {
        wants = further(wants, wanted.at(index));
        best = further(best, offered.at(index));
        if index < next || !reaches(wants, index) || !sets.has(carrier, index) {
            continue;
        }
        if let Some(reach) = best {
            hints.push(reach.hint)?;
            next = reach.hi.saturating_add(1);
        }
    }
    Ok(())
}

// The indices that a hint takes out, where they are its own.
fn range_of(hint: Hint) -> Option<(u32, u32)> {
    match hint {
        Hint::Earlier { .. } => None,
        Hint::Ban { lo, hi, .. } | Hint::Rule { lo, hi, .. } => Some((lo, hi)),
    }
}

// The one of two that reaches further.
fn further(one: Option<Reach>, other: Option<Reach>) -> Option<Reach> {
    match (one, other) {
        (Some(a), Some(b)) => Some(if b.hi > a.hi { b } else { a }),
        (Some(a), None) => Some(a),
        (None, b) => b,
    }
}

fn reaches(reach: Option<Reach>, index: u32) -> bool {
    match reach {
        Some(reach) => index <= reach.hi,
        None => false,
    }
}

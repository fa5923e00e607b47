//! Why a carrier has no index left: the decisions and the hints that it takes, found by walking the trail backwards. Nothing
//! is promised of them; they are replayed before they are handed out.

ghost use Rattle.std.specs.Prelude.{◌≡◌, ◌≤◌, ◌<◌, length};

use crate::level::Level;
use crate::needed::Needed;
use crate::search::Search;
use bumpalo::Bump;
use bumpalo::collections::into_bump_slice;
use rf_log::{Cond, Hint};
use rf_propagate::Applies;
use rf_terms::roles as roles_of;
use rf_trail::{Entry, Trail};
use std::alloc::AllocError;

/// Conditions and hints that may be a valid nogood line, and of each hint the carrier that it takes from.
#[derive(Clone, Copy)]
pub struct Candidate<'a> {
    pub conds: &'a [Cond],
    pub hints: &'a [Hint],
    pub carriers: &'a [usize],
}

// Needs what gives the hint of entry `n` its effect: the removals from the carriers that it looks at.
fn need_for<T: Applies>(
    theory: &T,
    trail: &Trail,
    needed: &mut Needed<'_>,
    hint: Hint,
    n: usize,
) -> Result<(), AllocError> {
    match hint {
        Hint::Ban { .. } => {}
        Hint::Rule {
            kind,
            roles,
            target,
            ..
        } => {
            for i in 0..roles_of(kind) {
                if i != target as usize {
                    needed.need(roles[i] as usize, n)?;
                }
            }
        }
        Hint::Earlier { line } => need_line(theory, trail, needed, line, n)?,
    }
    Ok(())
}

// Needs what makes the conditions of a line hold; the one on the entry's own carrier alone where the line takes out all of it.
fn need_line<T: Applies>(
    theory: &T,
    trail: &Trail,
    needed: &mut Needed<'_>,
    line: u32,
    n: usize,
) -> Result<(), AllocError> {
    let Some(conds) = theory.line(line) else {
        return Ok(());
    };
    let entry = entry_at(trail, n);
    let takes_all = match entry {
        Some(entry) => takes_all(trail, entry),
        None => false,
    };
    for cond in conds {
        let carrier = cond.carrier as usize;
        if takes_all || !is_on(entry, carrier) {
            needed.need(carrier, n)?;
        }
    }
    Ok(())
}

fn entry_at(trail: &Trail, n: usize) -> Option<Entry> {
    if n < trail.len() {
        return Some(trail.entry(n));
    }
    None
}

fn is_on(entry: Option<Entry>, carrier: usize) -> bool {
    match entry {
        Some(entry) => entry.carrier == carrier,
        None => false,
    }
}

// Whether the entry's range is all of its carrier.
fn takes_all(trail: &Trail, entry: Entry) -> bool {
    let domains = trail.domains();
    entry.lo == 0
        && entry.carrier < domains.carriers()
        && entry.hi >= domains.size(entry.carrier).saturating_sub(1)
}

// The last of the first levels whose decision came at entry `n` or before it.
fn level_at(levels: &[Level], mut count: usize, n: usize) -> usize
    requires { count ≤ length levels.now }
    ensures { result ≤ count }
{
    while count > 0 && levels[count - 1].mark.entries > n {
        count -= 1;
    }
    count
}

// The line that closed the left side of a right side, where it is one by which the right side's index would fall.
fn closing<T: Applies>(theory: &T, level: Level) -> Option<Hint> {
    let line = level.closed_by?;
    let conds = theory.line(line)?;
    let left = Cond {
        inside: true,
        ..level.cond
    };
    if !conds.contains(&left) {
        return None;
    }
    Some(Hint::Earlier { line })
}

/// What it takes for the carrier to have no index left. A right side stands for the line that closed its left side.
pub fn analyse<'a, T: Applies>(
    bump: &'a Bump,
    theory: &T,
    search: &Search,
    carrier: usize,
) -> Result<Candidate<'a>, AllocError> {
    let trail = &search.trail;
    let mut needed = Needed::new(bump, trail)?;
    needed.cover(carrier, trail.len())?;
    let mut conds = Vec::new(bump);
    let mut hints = Vec::new(bump);
    let mut carriers = Vec::new(bump);
    let mut level = search.levels.len();
    let entries = trail.len();
    for back in 0..entries {
        let n = entries - 1 - back;
        if !needed.has(n) {
            continue;
        }
        level = level_at(search.levels.as_slice(), level, n);
        if let Some(hint) = reason(theory, search, level, n) {
            hints.push(hint)?;
            carriers.push(trail.entry(n).carrier)?;
            need_for(theory, trail, &mut needed, hint, n)?;
            continue;
        }
        if level > 0 {
            let cond = search.levels[level - 1].cond;
            if !conds.as_slice().contains(&cond) {
                conds.push(cond)?;
            }
        }
    }
    hints.as_mut_slice().reverse();
    carriers.as_mut_slice().reverse();
    Ok(Candidate {
        conds: into_bump_slice(conds),
        hints: into_bump_slice(hints),
        carriers: into_bump_slice(carriers),
    })
}

// The hint of entry `n`, or of a right side the line that closed its left side. None where its decision is needed.
fn reason<T: Applies>(theory: &T, search: &Search, level: usize, n: usize) -> Option<Hint>
    requires level { level ≤ length search.now.levels.items }
    requires known { n < length search.now.trail.entries }
{
    if let Some(hint) = search.trail.entry(n).hint {
        return Some(hint);
    }
    if level == 0 {
        return None;
    }
    closing(theory, search.levels[level - 1])
}

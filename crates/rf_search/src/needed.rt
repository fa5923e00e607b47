//! Which entries of a trail are needed for what carriers have lost.

use bumpalo::Bump;
use rf_trail::Trail;
use std::alloc::AllocError;

/// The entries that are needed, and the carriers whose losses were gone over.
#[derive(Drop)]
pub struct Needed<'a> {
    bump: &'a Bump,
    trail: &'a Trail,
    entries: Vec<bool, &'a Bump>,
    carriers: Vec<bool, &'a Bump>,
}

impl<'a> Needed<'a> {
    /// No entry is needed yet. `AllocError` where no memory is found.
    pub fn new(bump: &'a Bump, trail: &'a Trail) -> Result<Needed<'a>, AllocError> {
        Ok(Needed {
            bump,
            trail,
            entries: flags(bump, trail.len())?,
            carriers: flags(bump, trail.domains().carriers())?,
        })
    }

    /// Whether an entry is needed.
    pub fn has(&self, n: usize) -> bool {
        n < self.entries.len() && self.entries[n]
    }

    /// Needs entries before entry `end` for all that a carrier has lost by then, if that was not done before. `AllocError` where
    /// no memory is found.
    pub fn need(&mut self, carrier: usize, end: usize) -> Result<(), AllocError> {
        if carrier >= self.carriers.len() || self.carriers[carrier] {
            return Ok(());
        }
        self.carriers[carrier] = true;
        self.cover(carrier, end)
    }

    /// Needs entries before entry `end` that take out all that those before it take out of a carrier: from the lowest index on
    /// that is not yet covered, a decision if one took it, else the entry that reaches furthest. `AllocError` where no memory is
    /// found.
    pub fn cover(&mut self, carrier: usize, end: usize) -> Result<(), AllocError> {
        let domains = self.trail.domains();
        if carrier >= domains.carriers() {
            return Ok(());
        }
        let size = domains.size(carrier);
        let decisions = reaches_of(self.bump, self.trail, carrier, end, size, true)?;
        let removals = reaches_of(self.bump, self.trail, carrier, end, size, false)?;
        let mut decision = None;
        let mut removal = None;
        let mut next = 0;
        for index in 0..size {
            decision = further(decision, at(&decisions, index));
            removal = further(removal, at(&removals, index));
            if index < next || domains.has(carrier, index) {
                continue;
            }
            if let Some(reach) = over(decision, index).or(over(removal, index)) {
                self.add(reach.entry);
                next = reach.hi.saturating_add(1);
            }
        }
        Ok(())
    }

    fn add(&mut self, n: usize) {
        if n < self.entries.len() {
            self.entries[n] = true;
        }
    }
}

fn flags<'a>(bump: &'a Bump, count: usize) -> Result<Vec<bool, &'a Bump>, AllocError> {
    let mut flags = Vec::new(bump);
    for _ in 0..count {
        flags.push(false)?;
    }
    Ok(flags)
}

// An entry, and the last index that it takes out.
#[derive(Clone, Copy)]
struct Reach {
    entry: usize,
    hi: u32,
}

// For each index of a carrier, of the entries before entry `end` that take out from there on the one that reaches furthest: of the
// decisions alone, or of the others.
fn reaches_of<'a>(
    bump: &'a Bump,
    trail: &Trail,
    carrier: usize,
    end: usize,
    size: u32,
    decisions: bool,
) -> Result<Vec<Option<Reach>, &'a Bump>, AllocError> {
    let mut reaches = Vec::new(bump);
    for _ in 0..size {
        reaches.push(None)?;
    }
    for n in 0..end.min(trail.len()) {
        let entry = trail.entry(n);
        let lo = entry.lo as usize;
        if entry.carrier == carrier && entry.hint.is_none() == decisions && lo < reaches.len() {
            let reach = Reach {
                entry: n,
                hi: entry.hi,
            };
            reaches[lo] = further(reaches[lo], Some(reach));
        }
    }
    Ok(reaches)
}

fn at(reaches: &[Option<Reach>], index: u32) -> Option<Reach> {
    *reaches.get(index as usize)?
}

// The one of two that reaches further, and of two that reach as far the older one.
fn further(one: Option<Reach>, other: Option<Reach>) -> Option<Reach> {
    match (one, other) {
        (Some(a), Some(b)) => Some(if is_further(b, a) { b } else { a }),
        (Some(a), None) => Some(a),
        (None, b) => b,
    }
}

fn is_further(one: Reach, other: Reach) -> bool {
    one.hi > other.hi || (one.hi == other.hi && one.entry < other.entry)
}

// What takes out the index.
fn over(reach: Option<Reach>, index: u32) -> Option<Reach> {
    match reach {
        Some(reach) if index <= reach.hi => Some(reach),
        _ => None,
    }
}

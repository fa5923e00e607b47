//! Two lists of broken instances made into one, in order.

ghost use Rattle.std.specs.Prelude.{◌≡◌, ◌<◌, ◌≤◌, ◌-◌, ◌++◌, ◌∷◌, [], OnOk, IfOk, List, ℕ, length, take};
ghost use Rattle.rf_terms.specs.Kinds.{roles_of};
ghost use Rattle.rf_rules.specs.Tallies.{Extends, shown_of};
ghost use Rattle.rf_rules.specs.declared.conflict.Conflict.{Conflict};
ghost use Rattle.rf_rules.specs.Merges.{ahead, behind, merge};
ghost use Rattle.rf_rules.specs.Merges as merges;
ghost use Rattle.rf_rules.specs.Renewed as told;

use crate::conflict::Conflict;
use crate::tally::Tally;
use rf_base::NoMemory;
use rf_terms::{Kind, roles};

/// The carriers of a conflict that is a broken instance of a kind, and how many they are.
pub(crate) fn roles_in(kind: Kind, conflict: &Conflict) -> ([usize; 4], usize)
    ensures value { take result.1 result.0 ≡ told.roles_in kind conflict.now }
    ensures few { result.1 ≤ 4 }
{
    match *conflict {
        Conflict::Spacing { a, b, .. } => ([a, b, 0, 0], 2),
        Conflict::Product {
            sources,
            victim,
            ..
        } => ended(kind, sources, victim),
        _ => ([0; 4], 0),
    }
}

fn ended(kind: Kind, sources: [usize; 3], victim: usize) -> ([usize; 4], usize)
    ensures value { take result.1 result.0 ≡ take (roles_of kind - 1) sources ++ victim ∷ [] }
    ensures few { result.1 ≤ 4 }
{
    let last = roles(kind) - 1;
    let mut all = widened(sources);
    all[last] = victim;
    (all, last + 1)
}

/// The first number in which two lists differ is less in the first.
pub(crate) fn stands_before(s: &[usize], t: &[usize]) -> bool
    ensures { result ≡ merges.stands_before s.now t.now }
{
    match s {
        [] => false,
        [a, s @ ..] => match t {
            [] => false,
            [b, t @ ..] => *a < *b || *a == *b && stands_before(s, t),
        },
    }
}

/// A broken instance of a kind stands before another.
fn precedes(kind: Kind, a: &Conflict, b: &Conflict) -> bool
    ensures { result ≡ told.precedes kind a.now b.now }
{
    let (s, m) = roles_in(kind, a);
    let (t, n) = roles_in(kind, b);
    stands_before(&s[..m], &t[..n])
}

/// Adds two lists of broken instances of a kind as one, in their order. Of the second only the front is there, and how many
/// they are.
pub(crate) fn add_merged(
    kind: Kind,
    kept: &[Conflict],
    found: &Tally,
    tally: &mut Tally,
) -> Result<(), NoMemory>
    requires { length found.now.shown.items ≤ found.now.total }
    ensures { OnOk result ((all : List Conflict) → found.now.shown.items ≡ shown_of all → found.now.total ≡ length all → Extends tally.old tally.new (merge (told.precedes kind) kept.now all)) }
{
    let shown = found.shown.as_slice();
    let mut rest = kept;
    for conflict in shown {
        rest = add_ahead(kind, conflict, rest, tally)?;
        tally.add(*conflict)?;
    }
    add_all(rest, tally)?;
    tally.count_more(found.total - shown.len() as u64);
    Ok(())
}

/// Adds the conflicts up to the first before which this one stands, and answers those from there on.
fn add_ahead<'a>(
    kind: Kind,
    conflict: &Conflict,
    kept: &'a [Conflict],
    tally: &mut Tally,
) -> Result<&'a [Conflict], NoMemory>
    ensures added { IfOk result (λ _. Extends tally.old tally.new (ahead (told.precedes kind) conflict.now kept.now)) }
    ensures rest { IfOk result (λ rest. rest.now ≡ behind (told.precedes kind) conflict.now kept.now) }
{
    for i in 0..kept.len() {
        if precedes(kind, conflict, &kept[i]) {
            return Ok(&kept[i..]);
        }
        tally.add(kept[i])?;
    }
    Ok(&[])
}

fn add_all(conflicts: &[Conflict], tally: &mut Tally) -> Result<(), NoMemory>
    ensures { OnOk result (Extends tally.old tally.new conflicts.now) }
{
    for conflict in conflicts {
        tally.add(*conflict)?;
    }
    Ok(())
}

fn widened(sources: [usize; 3]) -> [usize; 4]
    ensures { (k : ℕ) → k ≤ 3 → take k result ≡ take k sources }
{
    let mut roles = [0; 4];
    roles[..3].copy_from_slice(&sources);
    roles
}

//! Plain rounds over small problems: what is struck when each tuple of carriers is looked at, one after another, until
//! nothing falls.
use crate::problems::{Flags, Row, Small};
use rf_terms::{Kind, Margin, asks, broken, kinds, order, roles};

/// The one index that is left, if there is exactly one.
pub(crate) fn only(row: &[bool; 4]) -> Option<usize> {
    let mut found = None;
    for k in 0..4 {
        if !row[k] {
            continue;
        }
        if found.is_some() {
            return None;
        }
        found = Some(k);
    }
    found
}

fn asked(row: &Row, kind: Kind) -> u32 {
    let [m2t3, m3t3, m2t5, m3t5, m2t7] = row.margins;
    match asks(kind) {
        Margin::Spacing => row.spacing,
        Margin::M2t3 => m2t3,
        Margin::M3t3 => m3t3,
        Margin::M2t5 => m2t5,
        Margin::M3t5 => m3t5,
        Margin::M2t7 => m2t7,
    }
}

fn margin(small: &Small, kind: Kind, tuple: &[usize]) -> u32 {
    let (first, last) = match tuple {
        [] => return 0,
        [only] => (*only, *only),
        [first, .., last] => (*first, *last),
    };
    let last = asked(&small[last % 4], kind);
    match kind {
        Kind::Spacing => asked(&small[first % 4], kind).max(last),
        _ => last,
    }
}

/// Whether two distinct carriers may be together in a set of so many.
fn meet(small: &Small, size: usize, a: usize, b: usize) -> bool {
    let (earlier, later) = if a < b { (a, b) } else { (b, a) };
    let row = small[later % 4];
    let reaches = size == 2 && row.reaches_all;
    a != b && (row.hears_all || reaches || earlier % 2 == 0)
}

/// Distinct carriers that may be together, in the order of the kind.
fn is_instance(small: &Small, kind: Kind, tuple: &[usize]) -> bool {
    for i in 0..tuple.len() {
        for j in 0..i {
            if !meet(small, tuple.len(), tuple[i], tuple[j]) {
                return false;
            }
        }
    }
    match order(kind) {
        Some((a, b)) => a < tuple.len() && b < tuple.len() && tuple[a] < tuple[b],
        None => true,
    }
}

/// Whether frequencies, as many as the kind has roles, break it.
fn breaks(kind: Kind, freqs: &[u32], margin: u32) -> bool {
    let high = freqs.iter().any(|f| *f > 10_000_000);
    if high || freqs.len() != roles(kind) {
        return false;
    }
    broken(kind, freqs, margin)
}

/// The frequencies of a tuple where the target has index `k` and each other carrier its one index.
fn at(small: &Small, left: &Flags, tuple: &[usize], place: usize, k: usize) -> Option<[u32; 4]> {
    let mut freqs = [0; 4];
    for (i, c) in tuple.iter().enumerate() {
        let index = if i == place {
            k
        } else {
            match only(&left[*c % 4]) {
                Some(index) => index,
                None => return None,
            }
        };
        freqs[i % 4] = small[*c % 4].freqs[index % 4];
    }
    Some(freqs)
}

/// Takes out what breaks the instance, in each role.
fn strike(small: &Small, left: &mut Flags, kind: Kind, tuple: &[usize]) {
    if tuple.len() > 4 || !is_instance(small, kind, tuple) {
        return;
    }
    let margin = margin(small, kind, tuple);
    for place in 0..tuple.len() {
        for k in 0..4 {
            if let Some(freqs) = at(small, left, tuple, place, k) {
                let gone = breaks(kind, &freqs[..tuple.len()], margin);
                left[tuple[place] % 4][k] &= !gone;
            }
        }
    }
}

/// One round over all kinds and all tuples.
fn round(small: &Small, left: &mut Flags) {
    for kind in kinds() {
        let tuples: usize = match roles(*kind) {
            2 => 16,
            3 => 64,
            _ => 256,
        };
        for number in 0..tuples {
            let tuple = [number % 4, number / 4 % 4, number / 16 % 4, number / 64 % 4];
            strike(small, left, *kind, &tuple[..roles(*kind)]);
        }
    }
}

/// What rounds leave of these indices. Each but the last takes out one of 16.
pub(crate) fn closure(small: &Small, start: Flags) -> Flags {
    let mut left = start;
    for _ in 0..16 {
        let before = left;
        round(small, &mut left);
        if left == before {
            break;
        }
    }
    left
}

fn is_empty(row: &[bool; 4]) -> bool {
    !row[0] && !row[1] && !row[2] && !row[3]
}

/// Whether a carrier has no index left.
pub(crate) fn is_dead(left: &Flags) -> bool {
    is_empty(&left[0]) || is_empty(&left[1]) || is_empty(&left[2]) || is_empty(&left[3])
}

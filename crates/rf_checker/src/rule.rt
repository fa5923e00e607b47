//! Hints by instances that would be broken.

ghost use Rattle.std.specs.Prelude.{◌≡◌, ◌<◌, ◌≤◌, ◌==◌, ◌||◌, ℕ, true, length, map, is_some, IfOk, IfSome, MatchOption, if◌then◌else◌, slice_index, slice_set, take};
ghost use Rattle.std.specs.List.{All, list_all};
ghost use Rattle.rf_terms.specs.Kinds.{roles_of};
ghost use Rattle.rf_terms.specs.Forms.{AreFrequencies};
ghost use Rattle.rf_log.specs.Case as case;
ghost use Rattle.rf_log.specs.Hints as hints;
ghost use Rattle.rf_log.specs.Box as box;
ghost use Rattle.rf_show.specs.Case.{case_of};
ghost use Rattle.rf_checker.specs.Boxes.{box_in, IsBoxFor};
ghost use Rattle.rf_checker.specs.Ranges as spec;

use crate::asked::{are_together, count, freq, margin};
use rf_base::NoMemory;
use rf_exclusions::Spans;
use rf_show::Show;
use rf_terms::{Kind, broken, order};

fn are_distinct(roles: &[usize]) -> bool
    ensures { result ≡ case.are_distinct roles.now }
{
    match roles {
        [] => true,
        [first, rest @ ..] => !rest.contains(first) && are_distinct(rest),
    }
}

fn is_in_order(kind: Kind, roles: &[usize]) -> bool
    requires { length roles.now ≡ roles_of kind }
    ensures { result ≡ case.is_in_order kind roles.now }
{
    match order(kind) {
        None => true,
        Some((first, second)) => roles[first] < roles[second],
    }
}

/// Whether the carriers in the roles are an instance of the kind.
pub fn is_instance(show: &Show, kind: Kind, roles: &[usize]) -> bool
    requires full { length roles.now ≡ roles_of kind }
    requires known { All (λ c. c < length (case_of show.now).carriers) roles.now }
    ensures { result ≡ case.is_instance (case_of show.now) kind roles.now }
{
    if !are_distinct(roles) || !is_in_order(kind, roles) {
        return false;
    }
    are_together(show, roles)
}

// The carrier's one index in the box.
fn only_index(show: &Show, sets: &[Spans], c: usize) -> Option<u32>
    requires known { c < length (case_of show.now).carriers }
    requires box_for { IsBoxFor (case_of show.now) sets.now }
    ensures { result ≡ box.only_index (case_of show.now) (box_in sets.now) c }
{
    sets[c].only()
}

// Whether each carrier but the target has one index.
fn others_are_set(show: &Show, sets: &[Spans], roles: &[usize], target: usize) -> bool
    requires known { All (λ c. c < length (case_of show.now).carriers) roles.now }
    requires box_for { IsBoxFor (case_of show.now) sets.now }
    ensures { result ≡ list_all (λ c. (c == target) || is_some (box.only_index (case_of show.now) (box_in sets.now) c)) roles.now }
{
    for role in roles {
        if *role != target && only_index(show, sets, *role).is_none() {
            return false;
        }
    }
    true
}

// The first index for the target, and for another carrier its one index.
fn index_with(show: &Show, sets: &[Spans], target: usize, c: usize) -> u32
    requires known { c < length (case_of show.now).carriers }
    requires box_for { IsBoxFor (case_of show.now) sets.now }
    ensures { result ≡ hints.indices_with (case_of show.now) (box_in sets.now) target 0 c }
{
    if c == target {
        0
    } else {
        only_index(show, sets, c).unwrap_or(0)
    }
}

// The frequencies of the roles, the target with its first index and the others with their one index.
fn freqs_with(show: &Show, sets: &[Spans], roles: &[usize], target: usize) -> [u32; 4]
    requires few { length roles.now ≤ 4 }
    requires known { All (λ c. c < length (case_of show.now).carriers) roles.now }
    requires box_for { IsBoxFor (case_of show.now) sets.now }
    ensures value { take (length roles.now) result ≡ case.freqs_at (case_of show.now) roles.now (hints.indices_with (case_of show.now) (box_in sets.now) target 0) }
    ensures small { AreFrequencies result }
{
    let mut freqs = [0; 4];
    for (i, role) in roles.iter().enumerate() {
        freqs[i] = freq(show, *role, index_with(show, sets, target, *role));
    }
    freqs
}

fn is_broken(kind: Kind, freqs: &[u32], margin: u32) -> bool
    requires full { length freqs.now ≡ roles_of kind }
    requires small { AreFrequencies freqs.now }
    ensures { result ≡ case.is_broken kind freqs.now margin }
{
    broken(kind, freqs, margin)
}

// Whether each index from `lo` to `hi` of the target, the carrier in one of the roles, breaks the kind's form. The
// roles have these frequencies, but for that one.
fn all_break(
    show: &Show,
    kind: Kind,
    roles: &[usize],
    place: usize,
    target: usize,
    mut freqs: [u32; 4],
    lo: u32,
    hi: u32,
) -> bool
    requires full { length roles.now ≡ roles_of kind }
    requires known { All (λ c. c < length (case_of show.now).carriers) roles.now }
    requires place { place < length roles.now }
    requires target { slice_index roles.now place ≡ target }
    requires small { AreFrequencies freqs }
    requires rising { lo ≤ hi }
    requires index { hi < case.count_of (case_of show.now) target }
    ensures { spec.IsEach (λ k. case.is_broken kind (slice_set (take (length roles.now) freqs) place (case.freq_of (case_of show.now) target k))
        (case.margin_of (case_of show.now) kind roles.now)) lo hi result }
{
    let margin = margin(show, kind, roles);
    for k in lo..count(show, target) {
        if k > hi {
            return true;
        }
        freqs[place] = freq(show, target, k);
        if !is_broken(kind, &freqs[..roles.len()], margin) {
            return false;
        }
    }
    true
}

// Whether the roles are an instance whose other carriers have one index each, and which each index from `lo` to `hi` of
// the target, the carrier in one of the roles, breaks.
fn is_ruled_out(
    show: &Show,
    sets: &[Spans],
    kind: Kind,
    roles: &[usize],
    place: usize,
    target: usize,
    lo: u32,
    hi: u32,
) -> bool
    requires full { length roles.now ≡ roles_of kind }
    requires known { All (λ c. c < length (case_of show.now).carriers) roles.now }
    requires place { place < length roles.now }
    requires target { slice_index roles.now place ≡ target }
    requires rising { lo ≤ hi }
    requires index { hi < case.count_of (case_of show.now) target }
    requires box_for { IsBoxFor (case_of show.now) sets.now }
    ensures { result ≡ hints.is_ruled_out (case_of show.now) (box_in sets.now) kind roles.now target lo hi }
{
    if !is_instance(show, kind, roles) || !others_are_set(show, sets, roles, target) {
        return false;
    }
    let freqs = freqs_with(show, sets, roles, target);
    all_break(show, kind, roles, place, target, freqs, lo, hi)
}

/// Takes the indices from `lo` to `hi` of the target, the carrier in one of the roles, out, where each of them breaks the
/// instance, and says whether that is so.
pub(crate) fn apply_rule(
    show: &Show,
    sets: &mut [Spans],
    kind: Kind,
    roles: &[usize],
    place: usize,
    target: usize,
    lo: u32,
    hi: u32,
) -> Result<bool, NoMemory>
    requires full { length roles.now ≡ roles_of kind }
    requires known { All (λ c. c < length (case_of show.now).carriers) roles.now }
    requires place { place < length roles.now }
    requires target { slice_index roles.now place ≡ target }
    requires rising { lo ≤ hi }
    requires index { hi < case.count_of (case_of show.now) target }
    requires box_for { IsBoxFor (case_of show.now) sets.old }
    ensures effect { IfOk result (λ works. (if hints.is_ruled_out (case_of show.now) (box_in sets.old) kind roles.now target lo hi then
        Some (box.without (box_in sets.old) target (box.between lo hi)) else None) ≡ (if works then Some (box_in sets.new) else None)) }
    ensures box_for { IfOk result (λ works. IsBoxFor (case_of show.now) sets.new) }
{
    if !is_ruled_out(show, sets, kind, roles, place, target, lo, hi) {
        return Ok(false);
    }
    sets[target].cut(lo, hi)?;
    Ok(true)
}

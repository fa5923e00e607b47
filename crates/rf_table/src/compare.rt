//! Whether carriers stay as they were.

ghost use Rattle.std.specs.Prelude.{◌≡◌, ◌<◌, length};
ghost use Rattle.std.specs.Bool.{OnTrue};
ghost use Rattle.rf_profiles.specs.Profile.{margin_of};
ghost use Rattle.rf_terms.specs.declared.kind.Kind.{Kind};
ghost use Rattle.rf_table.specs.Unchanged.{IsAlike, SameAt};

use rf_base::{Khz, Name};
use rf_profiles::Profile;
use rf_show::{Carrier, Show};

/// A carrier of two shows has the same frequency, zone and times, and its profiles ask the same.
pub(crate) fn is_same(old: &Show, new: &Show, c: usize) -> bool
    requires old { c < length old.now.carriers }
    requires new { c < length new.now.carriers }
    ensures { OnTrue result (SameAt old.now new.now c) }
{
    if !are_alike(&old.carriers()[c], &new.carriers()[c]) {
        return false;
    }
    if !ask_alike(old.profile_of(c), new.profile_of(c)) {
        return false;
    }
    true
}

fn are_alike(a: &Carrier, b: &Carrier) -> bool
    ensures { OnTrue result (IsAlike a.now b.now) }
{
    if !same_name(a.zone, b.zone) {
        return false;
    }
    if !same_at(a.at, b.at) {
        return false;
    }
    if !same_times(a.times.list(), b.times.list()) {
        return false;
    }
    true
}

/// Two names are the same.
pub(crate) fn same_name(a: Name, b: Name) -> bool
    ensures { OnTrue result (a ≡ b) }
{
    a == b
}

fn same_at(a: Option<Khz>, b: Option<Khz>) -> bool
    ensures { OnTrue result (a ≡ b) }
{
    match (a, b) {
        (None, None) => true,
        (Some(f), Some(g)) => f.get() == g.get(),
        _ => false,
    }
}

fn same_times(a: &[(u16, u16)], b: &[(u16, u16)]) -> bool
    ensures { OnTrue result (a.now ≡ b.now) }
{
    match a {
        [] => b.is_empty(),
        [i, a @ ..] => match b {
            [] => false,
            [j, b @ ..] => i.0 == j.0 && i.1 == j.1 && same_times(a, b),
        },
    }
}

// Two profiles ask the same.
fn ask_alike(a: &Profile, b: &Profile) -> bool
    ensures { OnTrue result ((kind : Kind) → margin_of a.now kind ≡ margin_of b.now kind) }
{
    if a.spacing != b.spacing
        || a.margins.m2t3 != b.margins.m2t3
        || a.margins.m3t3 != b.margins.m3t3
    {
        return false;
    }
    if a.margins.m2t5 != b.margins.m2t5
        || a.margins.m3t5 != b.margins.m3t5
        || a.margins.m2t7 != b.margins.m2t7
    {
        return false;
    }
    true
}

//! A carrier of a show as one of a problem.

ghost use Rattle.std.specs.Prelude.{◌≡◌, ◌<◌, ◌≤◌, ℕ, All, IfOk, OnOk, Some, length, map};
ghost use Rattle.std.specs.List.{range_with_len};
ghost use Rattle.std.specs.List.Sorted.{IsStrictlyIncreasing};
ghost use Rattle.rf_terms.specs.Forms.{AreFrequencies};
ghost use Rattle.rf_zones.specs.declared.mask.TheConstants.{MAX_CARRIERS};
ghost use Rattle.rf_show.specs.Query.{is_allowed, profile_of};
ghost use Rattle.rf_show.specs.Case.{channels_of};
ghost use Rattle.rf_profiles.specs.Channels as profile;
ghost use Rattle.rf_active.specs.Active.{IsAdded};

use rf_base::NoMemory;
use rf_problem::Problem;
use rf_profiles::{Channels, Profile};
use rf_show::Show;
use std::alloc::Global;

// The size of a set of two carriers, which keep their spacing.
const PAIR: usize = 2;

// The size of a set of three, which tells as well who may be together in a set of four.
const MORE: usize = 3;

/// Adds a carrier of a show to a problem that has all carriers before it.
pub(crate) fn add_carrier(
    alloc: Global,
    problem: &mut Problem,
    show: &Show,
    carrier: usize,
) -> Result<(), NoMemory>
    requires there { carrier < length show.now.carriers }
    requires room { carrier < MAX_CARRIERS }
    requires next { length problem.old.carriers ≡ carrier }
    ensures { OnOk result (IsAdded show.now carrier problem.old problem.new) }
{
    let profile = show.profile_of(carrier);
    let freqs = frequencies(alloc, &profile.channels)?;
    let allowed = flags(alloc, show, carrier, profile)?;
    problem.add(
        freqs,
        allowed,
        profile.spacing,
        &profile.margins.list(),
        show.meeters(MORE, carrier),
        show.meeters(PAIR, carrier),
    )
}

/// The frequencies of channels in kilohertz.
fn frequencies(alloc: Global, channels: &Channels) -> Result<Vec<u32>, NoMemory>
    ensures value { IfOk result (λ freqs. freqs.items ≡ profile.channels channels.now) }
    ensures above { IfOk result (λ freqs. All (λ f. 1 ≤ f) freqs.items) }
    ensures below { IfOk result (λ freqs. AreFrequencies freqs.items) }
    ensures rising { IfOk result (λ freqs. IsStrictlyIncreasing freqs.items) }
    ensures few { IfOk result (λ freqs. length freqs.items ≤ 65536) }
{
    let count = channels.count();
    let mut freqs = Vec::with_capacity(alloc, count as usize)?;
    for k in 0..count {
        freqs.push(channels.freq(k).get())?;
    }
    Ok(freqs)
}

/// Which channels of a carrier, whose profile is this one, are allowed.
fn flags(
    alloc: Global,
    show: &Show,
    carrier: usize,
    profile: &Profile,
) -> Result<Vec<bool>, NoMemory>
    requires there { carrier < length show.now.carriers }
    requires own { profile_of show.now carrier ≡ Some profile.now }
    ensures { IfOk result (λ flags. flags.items ≡ map (is_allowed show.now carrier) (range_with_len 0 (length (channels_of show.now carrier)))) }
{
    let channels = &profile.channels;
    let count = channels.count();
    let mut flags = Vec::with_capacity(alloc, count as usize)?;
    for k in 0..count {
        flags.push(show.may_take(carrier, profile, channels.freq(k)))?;
    }
    Ok(flags)
}

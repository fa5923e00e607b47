//! How spare channels are told, run by run.

ghost use Rattle.std.specs.Prelude.{◌≡◌, ◌<◌, ◌≤◌, ◌-◌, ◌++◌, ◌∷◌, [], All, ℕ, IfOk, MatchOption, OnOk, codes, decimal, length, not, string_bytes};
ghost use Rattle.std.specs.List.{flat_map, range_with_len};
ghost use Rattle.rf_base.specs.Lines.{line_of};
ghost use Rattle.rf_spares.specs.Newcomers.{channels_at};
ghost use Rattle.rf_spares.specs.Runs.{flag_at};
ghost use Rattle.rf_profiles.specs.Runs.{IsNextRun, runs};
ghost use Rattle.rf_spares.specs.Texts as spec;
ghost use Rattle.rf_spares.specs.Texts.{IsListed, is_among};

use crate::answer::Spares;
use rf_base::NoMemory;
use rf_profiles::Channels;
use rf_show::Show;
use std::alloc::Global;

/// The reply to `spares`: the first and the last frequency of each longest run of spare channels that follow each other
/// within one range, in kHz, and how many the run has; how many channels are spare; the frequency of each channel that is
/// taken; and how many are taken. The profile is a place in the show; the channels are its own.
pub fn spares_text(
    alloc: Global,
    show: &Show,
    profile: usize,
    answer: &Spares,
) -> Result<Vec<u8>, NoMemory>
    requires profile { profile < length show.now.profiles }
    requires listed { IsListed show.now profile answer.now }
    ensures { IfOk result (λ text. text.items ≡ spec.text_of show.now profile answer.now) }
{
    let channels = &show.profiles()[profile].channels;
    let free = answer.free.as_slice();
    let taken = answer.taken.as_slice();
    let flags = flags_of(alloc, channels.count(), free)?;
    let mut text = String::new(alloc);
    write_ranges(&mut text, channels, &flags)?;
    let total = free.len();
    writeln!(text, "channels {total}")?;
    write_taken(&mut text, channels, taken)?;
    let number = taken.len();
    writeln!(text, "taken {number}")?;
    Ok(text.into_bytes())
}

// A flag for each of so many channels: whether it is one of these.
fn flags_of(alloc: Global, count: u32, ks: &[u32]) -> Result<Vec<bool>, NoMemory>
    requires { All (λ k. k < count) ks.now }
    ensures size { IfOk result (λ flags. length flags.items ≡ count) }
    ensures flags { IfOk result (λ flags. (k : ℕ) → flag_at flags.items k ≡ is_among ks.now k) }
{
    let mut flags = Vec::with_capacity(alloc, count as usize)?;
    for k in 0..count {
        flags.push(false)?;
    }
    for k in ks {
        flags[*k as usize] = true;
    }
    Ok(flags)
}

// Writes the runs of flagged channels in all ranges.
fn write_ranges(text: &mut String, channels: &Channels, flags: &[bool]) -> Result<(), NoMemory>
    requires { length flags.now ≡ length (spec.channels_in channels.now) }
    ensures { OnOk result (string_bytes text.new ≡ string_bytes text.old ++ flat_map (spec.run_line channels.now) (spec.runs_in (flag_at flags.now) channels.now)) }
{
    let mut start = 0;
    for range in channels.ranges() {
        let end = start + range.count();
        write_runs(text, channels, flags, start, end)?;
        start = end;
    }
    Ok(())
}

// Writes the runs of the flagged channels from `start` up to `end`.
fn write_runs(
    text: &mut String,
    channels: &Channels,
    flags: &[bool],
    start: u32,
    end: u32,
) -> Result<(), NoMemory>
    requires size { length flags.now ≡ length (spec.channels_in channels.now) }
    requires order { start ≤ end }
    requires within { end ≤ length flags.now }
    ensures { OnOk result (string_bytes text.new ≡ string_bytes text.old
        ++ flat_map (spec.run_line channels.now) (runs (flag_at flags.now) (range_with_len start (end - start)))) }
{
    let mut next = start;
    while let Some((first, stop)) = next_run(flags, next, end) {
        write_run(text, channels, first, stop)?;
        next = stop;
    }
    Ok(())
}

// Writes the run of the channels from `first` up to `stop`.
fn write_run(text: &mut String, channels: &Channels, first: u32, stop: u32) -> Result<(), NoMemory>
    requires order { first < stop }
    requires within { stop ≤ length (spec.channels_in channels.now) }
    ensures { OnOk result (string_bytes text.new ≡ string_bytes text.old ++ spec.run_line channels.now (range_with_len first (stop - first))) }
{
    let lowest = channels.freq(first).get();
    let highest = channels.freq(stop - 1).get();
    write_numbers(text, lowest, highest, stop - first)
}

fn write_numbers(text: &mut String, lowest: u32, highest: u32, count: u32) -> Result<(), NoMemory>
    ensures { OnOk result (string_bytes text.new ≡ string_bytes text.old ++ line_of (decimal lowest ∷ decimal highest ∷ decimal count ∷ [])) }
{
    writeln!(text, "{lowest} {highest} {count}")?;
    Ok(())
}

// The first run of flagged channels from `start` up to `end`: where it begins, and where it stops.
fn next_run(flags: &[bool], start: u32, end: u32) -> Option<(u32, u32)>
    requires order { start ≤ end }
    requires within { end ≤ length flags.now }
    ensures { MatchOption result (runs (flag_at flags.now) (range_with_len start (end - start)) ≡ [])
        (λ run. IsNextRun (flag_at flags.now) start end run.0 run.1) }
{
    let first = first_that(flags, true, start, end);
    if first == end {
        return None;
    }
    Some((first, first_that(flags, false, first, end)))
}

// The first channel from `start` up to `end` that is flagged, or isn't; `end` where there is none.
fn first_that(flags: &[bool], wanted: bool, start: u32, end: u32) -> u32
    requires order { start ≤ end }
    requires within { end ≤ length flags.now }
    ensures after { start ≤ result }
    ensures within { result ≤ end }
    ensures before { (k : ℕ) → start ≤ k → k < result → flag_at flags.now k ≡ not wanted }
    ensures at { result < end → flag_at flags.now result ≡ wanted }
{
    for k in start..end {
        if flag(flags, k) == wanted {
            return k;
        }
    }
    end
}

fn flag(flags: &[bool], k: u32) -> bool
    requires { k < length flags.now }
    ensures { result ≡ flag_at flags.now k }
{
    flags[k as usize]
}

// Writes a line for each channel that is taken.
fn write_taken(text: &mut String, channels: &Channels, ks: &[u32]) -> Result<(), NoMemory>
    requires { All (λ k. k < length (spec.channels_in channels.now)) ks.now }
    ensures { OnOk result (string_bytes text.new ≡ string_bytes text.old ++ flat_map (spec.take_line channels.now) ks.now) }
{
    for k in ks {
        write_take(text, channels.freq(*k).get())?;
    }
    Ok(())
}

fn write_take(text: &mut String, khz: u32) -> Result<(), NoMemory>
    ensures { OnOk result (string_bytes text.new ≡ string_bytes text.old ++ line_of (codes "take" ∷ decimal khz ∷ [])) }
{
    writeln!(text, "take {khz}")?;
    Ok(())
}

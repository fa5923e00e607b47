//! How a carrier's allowed channels are told, run by run.

ghost use Rattle.std.specs.Prelude.{◌≡◌, ◌++◌, ◌∷◌, [], ◌+◌, ◌-◌, ◌<◌, ◌≤◌, ℕ, not, length, decimal, sum_by, IfOk, OnOk, MatchOption, string_bytes};
ghost use Rattle.std.specs.List.{flat_map, range_with_len};
ghost use Rattle.rf_show.specs.Query.{is_allowed};
ghost use Rattle.rf_text.specs.Free as spec;
ghost use Rattle.rf_base.specs.Lines.{line_of};
ghost use Rattle.rf_profiles.specs.Runs.{IsNextRun, runs};

use rf_base::NoMemory;
use rf_show::Show;
use std::alloc::Global;

/// The reply to `free`: the first and the last frequency of each longest run of the carrier's allowed channels that
/// follow each other within one range, in kHz, and how many the run has; then how many channels are allowed. The carrier
/// is a place in the show.
pub fn free_text(alloc: Global, show: &Show, carrier: usize) -> Result<Vec<u8>, NoMemory>
    requires { carrier < length show.now.carriers }
    ensures { IfOk result (λ text. text.items ≡ spec.free_text_of show.now carrier) }
{
    let mut text = String::new(alloc);
    let total = write_ranges(&mut text, show, carrier)?;
    writeln!(text, "channels {total}")?;
    Ok(text.into_bytes())
}

// Writes the runs of all ranges, and answers how many channels they have.
fn write_ranges(text: &mut String, show: &Show, carrier: usize) -> Result<u32, NoMemory>
    requires { carrier < length show.now.carriers }
    ensures text { OnOk result (string_bytes text.new ≡ string_bytes text.old ++ flat_map (spec.run_line show.now carrier) (spec.free_runs show.now carrier)) }
    ensures total { IfOk result (λ total. total ≡ sum_by length (spec.free_runs show.now carrier)) }
{
    let channels = &show.profile_of(carrier).channels;
    let mut total = 0;
    let mut start = 0;
    for range in channels.ranges() {
        let end = start + range.count();
        total += write_runs(text, show, carrier, start, end)?;
        start = end;
    }
    Ok(total)
}

// Writes the runs of the channels from `start` up to `end`, and answers how many channels they have.
fn write_runs(
    text: &mut String,
    show: &Show,
    carrier: usize,
    start: u32,
    end: u32,
) -> Result<u32, NoMemory>
    requires carrier { carrier < length show.now.carriers }
    requires order { start ≤ end }
    requires within { end ≤ spec.channel_count show.now carrier }
    ensures text { OnOk result (string_bytes text.new ≡ string_bytes text.old
        ++ flat_map (spec.run_line show.now carrier) (runs (is_allowed show.now carrier) (range_with_len start (end - start)))) }
    ensures total { IfOk result (λ total. total ≡ sum_by length (runs (is_allowed show.now carrier) (range_with_len start (end - start)))) }
    ensures few { IfOk result (λ total. total ≤ end - start) }
{
    let mut total = 0;
    let mut next = start;
    while let Some((first, stop)) = next_run(show, carrier, next, end) {
        write_run(text, show, carrier, first, stop)?;
        total += stop - first;
        next = stop;
    }
    Ok(total)
}

// Writes the run of the channels from `first` up to `stop`.
fn write_run(
    text: &mut String,
    show: &Show,
    carrier: usize,
    first: u32,
    stop: u32,
) -> Result<(), NoMemory>
    requires carrier { carrier < length show.now.carriers }
    requires order { first < stop }
    requires within { stop ≤ spec.channel_count show.now carrier }
    ensures { OnOk result (string_bytes text.new ≡ string_bytes text.old ++ spec.run_line show.now carrier (range_with_len first (stop - first))) }
{
    let channels = &show.profile_of(carrier).channels;
    let lowest = channels.freq(first).get();
    let highest = channels.freq(stop - 1).get();
    write_numbers_line(text, lowest, highest, stop - first)
}

fn write_numbers_line(
    text: &mut String,
    lowest: u32,
    highest: u32,
    count: u32,
) -> Result<(), NoMemory>
    ensures { OnOk result (string_bytes text.new ≡ string_bytes text.old ++ line_of (decimal lowest ∷ decimal highest ∷ decimal count ∷ [])) }
{
    writeln!(text, "{lowest} {highest} {count}")?;
    Ok(())
}

// The first run of allowed channels from `start` up to `end`: where it begins, and where it stops.
fn next_run(show: &Show, carrier: usize, start: u32, end: u32) -> Option<(u32, u32)>
    requires carrier { carrier < length show.now.carriers }
    requires order { start ≤ end }
    ensures { MatchOption result (runs (is_allowed show.now carrier) (range_with_len start (end - start)) ≡ [])
        (λ run. IsNextRun (is_allowed show.now carrier) start end run.0 run.1) }
{
    let first = first_that(show, carrier, true, start, end);
    if first == end {
        return None;
    }
    Some((first, first_that(show, carrier, false, first, end)))
}

// The first channel from `start` up to `end` that is allowed, or isn't; `end` where there is none.
fn first_that(show: &Show, carrier: usize, wanted: bool, start: u32, end: u32) -> u32
    requires carrier { carrier < length show.now.carriers }
    requires order { start ≤ end }
    ensures after { start ≤ result }
    ensures within { result ≤ end }
    ensures before { (k : ℕ) → start ≤ k → k < result → is_allowed show.now carrier k ≡ not wanted }
    ensures at { result < end → is_allowed show.now carrier result ≡ wanted }
{
    for k in start..end {
        if show.allowed(carrier, k) == wanted {
            return k;
        }
    }
    end
}

//! From frequencies to the indices of channels, by search in a rising list.

ghost use Rattle.std.specs.Prelude.{◌≡◌, true, ℕ, ◌<◌, ◌≤◌, ◌↔◌, length, pos, ◌≤ℤ◌, ◌<ℤ◌, MatchOption};
ghost use Rattle.std.specs.List.Sorted.{IsStrictlyIncreasing};
ghost use Rattle.rf_terms.specs.Forms.{AreFrequencies};
ghost use Rattle.rf_problem.specs.declared.limits.TheConstants.{MAX_CHANNELS};
ghost use Rattle.rf_props.specs.Ranges.{IsRangeOf, HasNoneIn, AreBelow};

/// The indices of the frequencies from `lo` to `hi` kilohertz, as the least and the greatest. None where there are none.
pub fn indices_within(freqs: &[u32], lo: i64, hi: i64) -> Option<(u32, u32)>
    requires rising { IsStrictlyIncreasing freqs.now }
    requires below { AreFrequencies freqs.now }
    requires few { length freqs.now ≤ MAX_CHANNELS }
    ensures { MatchOption result (HasNoneIn freqs.now lo hi) (λ r. IsRangeOf freqs.now lo hi r.0 r.1) }
{
    let first = count_below(freqs, from(lo));
    let end = count_below(freqs, above(hi));
    if first >= end {
        return None;
    }
    Some((first as u32, end as u32 - 1))
}

/// A number that is above the same frequencies as a whole number.
pub fn from(lo: i64) -> u32
    ensures { (f : ℕ) → f ≤ 10000000 → (f < result) ↔ (pos f <ℤ lo) }
{
    lo.clamp(0, 10_000_001) as u32
}

// A number that is above just the frequencies that are at most a whole number.
fn above(hi: i64) -> u32
    ensures { (f : ℕ) → f ≤ 10000000 → (f < result) ↔ (pos f ≤ℤ hi) }
{
    (hi.clamp(-1, 10_000_000) + 1) as u32
}

/// How many frequencies are below a number. `near` is tried first.
pub fn count_below_near(freqs: &[u32], number: u32, near: usize) -> usize
    requires rising { IsStrictlyIncreasing freqs.now }
    ensures { AreBelow freqs.now number result }
{
    if is_count_below(freqs, number, near) {
        return near;
    }
    count_below(freqs, number)
}

// Whether just the first `count` frequencies are below a number.
fn is_count_below(freqs: &[u32], number: u32, count: usize) -> bool
    requires rising { IsStrictlyIncreasing freqs.now }
    ensures { result ≡ true → AreBelow freqs.now number count }
{
    if count > freqs.len() || (count > 0 && freqs[count - 1] >= number) {
        return false;
    }
    count == freqs.len() || freqs[count] >= number
}

// How many frequencies are below a number.
fn count_below(freqs: &[u32], number: u32) -> usize
    requires rising { IsStrictlyIncreasing freqs.now }
    ensures { AreBelow freqs.now number result }
{
    let mut from = 0;
    let mut upto = freqs.len();
    while from < upto {
        let middle = from + (upto - from) / 2;
        if freqs[middle] < number {
            from = middle + 1;
        } else {
            upto = middle;
        }
    }
    from
}

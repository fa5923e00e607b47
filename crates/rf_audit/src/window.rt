//! Where a form lies nearer to 0 than a margin.

ghost use Rattle.std.specs.Prelude.{◌≡◌, ℕ, pos, ◌<◌, ◌≤◌, ◌≤ℤ◌, ◌<ℤ◌, ◌+ℤ◌, ◌*ℤ◌, unsigned_abs, length, slice_index};
ghost use Rattle.std.specs.List.Sorted.{IsStrictlyIncreasing};
ghost use Rattle.rf_terms.specs.Forms.{AreFrequencies};
ghost use Rattle.rf_audit.specs.Tables.{IsWindow};

/// The indices of rising frequencies at which `multiple` times the frequency and `rest` lie nearer to 0 than the margin: from
/// the first number to below the second.
pub(crate) fn window(freqs: &[u32], multiple: i64, rest: i64, margin: u32) -> (usize, usize)
    requires small { AreFrequencies freqs.now }
    requires rising { IsStrictlyIncreasing freqs.now }
    requires few { length freqs.now ≤ 65536 }
    requires multiple { (0 < unsigned_abs multiple) × (unsigned_abs multiple ≤ 8) }
    requires rest { unsigned_abs rest ≤ 640000000 }
    ensures window { IsWindow freqs.now multiple rest margin result }
    ensures within { result.1 ≤ length freqs.now }
{
    let margin = i64::from(margin);
    if multiple < 0 {
        (
            first_past(freqs, -multiple, -rest, -margin),
            first_past(freqs, -multiple, -rest, margin - 1),
        )
    } else {
        (
            first_past(freqs, multiple, rest, -margin),
            first_past(freqs, multiple, rest, margin - 1),
        )
    }
}

// The first index at which the form lies above the bound; how many there are, where there is none.
fn first_past(freqs: &[u32], multiple: i64, rest: i64, bound: i64) -> usize
    requires small { AreFrequencies freqs.now }
    requires rising { IsStrictlyIncreasing freqs.now }
    requires few { length freqs.now ≤ 65536 }
    requires above { pos 0 ≤ℤ multiple }
    requires multiple { unsigned_abs multiple ≤ 8 }
    requires rest { unsigned_abs rest ≤ 640000000 }
    ensures within { result ≤ length freqs.now }
    ensures before { (k : ℕ) → k < result → (rest +ℤ (multiple *ℤ pos (slice_index freqs.now k))) ≤ℤ bound }
    ensures after { (k : ℕ) → result ≤ k → k < length freqs.now → bound <ℤ (rest +ℤ (multiple *ℤ pos (slice_index freqs.now k))) }
{
    let mut from = 0;
    let mut end = freqs.len();
    while from < end {
        let middle = from + (end - from) / 2;
        if rest + multiple * i64::from(freqs[middle]) <= bound {
            from = middle + 1;
        } else {
            end = middle;
        }
    }
    from
}

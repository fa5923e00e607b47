//! A range: frequencies at equal steps.

ghost use Rattle.std.specs.Prelude.{◌≡◌, ℕ, ◌<◌, ◌≤◌, length, slice_get, Some, IfSome, IfNone, Contains};
ghost use Rattle.std.specs.Option.{SomeIff};
ghost use Rattle.rf_profiles.specs.Range.{IsRange, span, frequencies, range_of};

use rf_base::Khz;
use std::marker::Model;

/// The frequencies `from`, `from + step` and so on that are at most `to`, in kilohertz. Each number is from 1 to
/// 10,000,000, and `from` is at most `to`.
#[derive(Clone, Copy)]
pub struct Range {
    from: u32,
    to: u32,
    step: u32,
}

impl Model for Range {
    ghost use Rattle.rf_profiles.specs.Range.{Span, IsRange, span};

    ghost Value = { Span };

    ghost view = { λ r. span r.from r.to r.step };

    ghost invariant = { λ r. IsRange (span r.from r.to r.step) };

    ghost inverse = { λ s. record { from = s.from; to = s.to; step = s.step } };
}

impl Range {
    /// The range with these numbers. None exactly where one is outside 1 to 10,000,000 kHz, or `from` is above `to`.
    pub fn new(from: u32, to: u32, step: u32) -> Option<Range>
        ensures exact { result ≡ range_of from to step }
        ensures iff { SomeIff result (IsRange (span from to step)) (span from to step) }
    {
        let is_khz = |n: u32| n >= 1 && n <= Khz::MAX;
        if is_khz(from) && is_khz(to) && is_khz(step) && from <= to {
            Some(Range { from, to, step })
        } else {
            None
        }
    }

    /// Its lowest frequency, in kilohertz.
    pub fn from(&self) -> u32
        ensures value { result ≡ self.now.from }
        ensures form { IsRange self.now }
    {
        self.from
    }

    /// The end that its frequencies don't pass, in kilohertz.
    pub fn to(&self) -> u32
        ensures value { result ≡ self.now.to }
        ensures form { IsRange self.now }
    {
        self.to
    }

    /// How far its frequencies lie apart, in kilohertz.
    pub fn step(&self) -> u32
        ensures value { result ≡ self.now.step }
        ensures form { IsRange self.now }
    {
        self.step
    }

    // What stands in a place where no range is.
    pub(crate) fn filler() -> Range
        ensures { result ≡ span 1 1 1 }
    {
        Range {
            from: 1,
            to: 1,
            step: 1,
        }
    }

    /// How many frequencies there are.
    pub fn count(&self) -> u32
        ensures value { result ≡ length (frequencies self.now) }
        ensures within { result ≤ 10000000 }
    {
        (self.to - self.from) / self.step + 1
    }

    /// Frequency number `k`, from 0.
    pub fn freq(&self, k: u32) -> Khz
        requires { k < length (frequencies self.now) }
        ensures { slice_get (frequencies self.now) k ≡ Some result }
    {
        Khz::new(u64::from(self.from + k * self.step)).unwrap()
    }

    /// The number of a frequency. None exactly where it isn't one of the range.
    pub fn index_of(&self, khz: Khz) -> Option<u32>
        ensures found { IfSome result (λ k. slice_get (frequencies self.now) k ≡ Some khz) }
        ensures none { IfNone result (¬ Contains (frequencies self.now) khz) }
        ensures within { IfSome result (λ k. k < 10000000) }
    {
        let khz = khz.get();
        if khz < self.from || khz > self.to || (khz - self.from) % self.step != 0 {
            return None;
        }
        Some((khz - self.from) / self.step)
    }
}

//! The channels that a profile's ranges make, and how they are numbered.

ghost use Rattle.std.specs.Prelude.{◌≡◌, ℕ, ◌<◌, ◌≤◌, ◌∷◌, ◌++◌, [], length, slice_get, Some, IfSome, IfNone, Contains};
ghost use Rattle.std.specs.List.Sorted.{IsStrictlyIncreasing};
ghost use Rattle.rf_profiles.specs.Channels.{channels};

use crate::range::Range;
use rf_base::Khz;
use std::marker::Model;

/// Why a range isn't added.
#[derive(Clone, Copy, PartialEq, Eq)]
pub enum ChannelsFault {
    /// It doesn't start above the last range's end.
    NotRising,
    /// There would be more than 65,536 channels.
    Many,
    /// There are eight ranges.
    Ninth,
}

/// The channels of a profile: the frequencies of its ranges, one to eight, in rising order, and at most 65,536 of them.
/// They are numbered from 0.
#[derive(Clone, Copy)]
pub struct Channels {
    ranges: [Range; Channels::MAX_RANGES],
    len: u8,
}

impl Model for Channels {
    ghost use Rattle.std.specs.Prelude.{◌≡◌, List, length, take};
    ghost use Rattle.rf_profiles.specs.Range.{Span};

    ghost Value = { List Span };

    ghost use Rattle.rf_profiles.specs.Channels.{IsChannels, filled};

    ghost view = { λ c. take c.len c.ranges };

    ghost invariant = { λ c. IsChannels (take c.len c.ranges) × (filled (take c.len c.ranges) ≡ c.ranges) × (length (take c.len c.ranges) ≡ c.len) };

    ghost inverse = { λ rs. record { ranges = filled rs; len = length rs } };
}

impl Channels {
    ghost use Rattle.rf_profiles.specs.Channels.{IsChannels, channels_of, last_to, with_range};

    /// How many channels there may be.
    pub const MAX_COUNT: u32 = 65_536;

    /// How many ranges there may be.
    pub const MAX_RANGES: usize = 8;

    /// The channels of one range. None exactly where there are more than 65,536.
    pub fn one(range: Range) -> Option<Channels>
        ensures { result ≡ channels_of range }
    {
        if range.count() > Channels::MAX_COUNT {
            return None;
        }
        let mut ranges = [Range::filler(); Channels::MAX_RANGES];
        ranges[0] = range;
        Some(Channels { ranges, len: 1 })
    }

    /// These channels and those of one range more. It answers `NotRising` exactly where the range doesn't start above
    /// the last one's end; else `Many` exactly where there would be more than 65,536 channels; else `Ninth` exactly where
    /// there are eight ranges.
    pub fn with(&self, range: Range) -> Result<Channels, ChannelsFault>
        ensures { result ≡ with_range self.now range }
    {
        if range.from() <= self.last_to() {
            return Err(ChannelsFault::NotRising);
        }
        if self.count() + range.count() > Channels::MAX_COUNT {
            return Err(ChannelsFault::Many);
        }
        if self.ranges().len() >= Channels::MAX_RANGES {
            return Err(ChannelsFault::Ninth);
        }
        Ok(self.pushed(range))
    }

    // The end of the last range, in kilohertz.
    fn last_to(&self) -> u32
        ensures { result ≡ last_to 0 self.now }
    {
        let ranges = self.ranges();
        ranges[ranges.len() - 1].to()
    }

    // The ranges and one more.
    fn pushed(&self, range: Range) -> Channels
        requires { IsChannels (self.now ++ range ∷ []) }
        ensures { result ≡ self.now ++ range ∷ [] }
    {
        let mut ranges = self.ranges;
        ranges[self.len as usize] = range;
        Channels {
            ranges,
            len: self.len + 1,
        }
    }

    /// The ranges, each above the one before.
    pub fn ranges(&self) -> &[Range]
        ensures value { result.now ≡ self.now }
        ensures form { IsChannels self.now }
    {
        &self.ranges[..self.len as usize]
    }

    /// How many channels there are.
    pub fn count(&self) -> u32
        ensures value { result ≡ length (channels self.now) }
        ensures within { result ≤ 65536 }
        ensures rising { IsStrictlyIncreasing (channels self.now) }
    {
        count_of(self.ranges())
    }

    /// The frequency of channel `k`.
    pub fn freq(&self, k: u32) -> Khz
        requires { k < length (channels self.now) }
        ensures { slice_get (channels self.now) k ≡ Some result }
    {
        freq_of(self.ranges(), k)
    }

    /// The channel at a frequency. None exactly where no channel has it.
    pub fn index_of(&self, khz: Khz) -> Option<u32>
        ensures found { IfSome result (λ k. slice_get (channels self.now) k ≡ Some khz) }
        ensures none { IfNone result (¬ Contains (channels self.now) khz) }
    {
        index_in(self.ranges(), khz)
    }
}

fn count_of(ranges: &[Range]) -> u32
    requires { length ranges.now ≤ 8 }
    ensures { result ≡ length (channels ranges.now) }
{
    let mut count = 0;
    for range in ranges {
        count += range.count();
    }
    count
}

fn freq_of(ranges: &[Range], k: u32) -> Khz
    requires { k < length (channels ranges.now) }
    ensures { slice_get (channels ranges.now) k ≡ Some result }
{
    let mut rest = k;
    for range in ranges {
        let count = range.count();
        if rest < count {
            return range.freq(rest);
        }
        rest -= count;
    }
    unreachable!()
}

fn index_in(ranges: &[Range], khz: Khz) -> Option<u32>
    requires { length ranges.now ≤ 8 }
    ensures found { IfSome result (λ k. slice_get (channels ranges.now) k ≡ Some khz) }
    ensures none { IfNone result (¬ Contains (channels ranges.now) khz) }
{
    let mut below = 0;
    for range in ranges {
        if let Some(k) = range.index_of(khz) {
            return Some(below + k);
        }
        below += range.count();
    }
    None
}

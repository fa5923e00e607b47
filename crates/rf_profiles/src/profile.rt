//! One make of transmitter: its channels, its spacing, its half width and its margins.

ghost use Rattle.std.specs.Prelude.{◌≡◌, ◌≤◌, true};
ghost use Rattle.std.specs.List.{list_all};
ghost use Rattle.rf_profiles.specs.Profile.{is_width, margin_of, margin_widths, profile_of, wider_margins, wider_profile, widths};
ghost use Rattle.rf_profiles.specs.Profile as profile;

use crate::channels::Channels;
use crate::range::Range;
use rf_base::Name;
use rf_terms::{Kind, MARGINS, Margin, asks};

/// How far an intermodulation product must stay from a victim of this profile, in kilohertz. A margin of 0 asks nothing.
#[derive(Clone, Copy)]
pub struct Margins {
    /// Of order 3, from two carriers.
    pub m2t3: u32,
    /// Of order 3, from three carriers.
    pub m3t3: u32,
    /// Of order 5, from two carriers.
    pub m2t5: u32,
    /// Of order 5, from three carriers.
    pub m3t5: u32,
    /// Of order 7, from two carriers.
    pub m2t7: u32,
}

impl Margins {
    /// The margins, in the order of the fields.
    pub fn list(&self) -> [u32; MARGINS]
        ensures { result ≡ margin_widths self.now }
    {
        [self.m2t3, self.m3t3, self.m2t5, self.m3t5, self.m2t7]
    }

    fn widen(&mut self, extra: u32)
        requires few { extra ≤ 1000 }
        requires narrow { list_all is_width (margin_widths self.old) ≡ true }
        ensures { self.new ≡ wider_margins extra self.old }
    {
        self.m2t3 = wider(self.m2t3, extra);
        self.m3t3 = wider(self.m3t3, extra);
        self.m2t5 = wider(self.m2t5, extra);
        self.m3t5 = wider(self.m3t5, extra);
        self.m2t7 = wider(self.m2t7, extra);
    }
}

/// What transmitters of one make have in common.
#[derive(Clone, Copy)]
pub struct Profile {
    /// Its name among the profiles of a show.
    pub name: Name,
    /// The frequencies at which its carriers may stand.
    pub channels: Channels,
    /// How far another carrier must stay, in kilohertz.
    pub spacing: u32,
    /// Half the width that a carrier takes up, in kilohertz.
    pub half: u32,
    /// How far intermodulation products must stay.
    pub margins: Margins,
}

impl Profile {
    /// The largest spacing, half width or margin that a text may give, in kilohertz.
    pub const MAX_WIDTH: u32 = 100_000;

    /// How many numbers a profile of one range has: from, to, step, spacing, half and the margins.
    pub const NUMBERS: usize = 10;

    /// The profile of one range with these numbers: from, to, step, spacing, half and the margins in their order. None
    /// exactly where the first three are no range, another number is above 100,000, or there are more than 65,536
    /// channels.
    pub fn from_numbers(name: Name, numbers: &[u32; Profile::NUMBERS]) -> Option<Profile>
        ensures { result ≡ profile_of name numbers.now }
    {
        let [from, to, step, spacing, half, m2t3, m3t3, m2t5, m3t5, m2t7] = *numbers;
        if !are_widths(&numbers[3..]) {
            return None;
        }
        let channels = Channels::one(Range::new(from, to, step)?)?;
        Some(Profile {
            name,
            channels,
            spacing,
            half,
            margins: Margins {
                m2t3,
                m3t3,
                m2t5,
                m3t5,
                m2t7,
            },
        })
    }

    /// What this profile asks of the form of a kind, in kilohertz.
    pub fn margin(&self, kind: Kind) -> u32
        ensures { result ≡ margin_of self.now kind }
    {
        match asks(kind) {
            Margin::Spacing => self.spacing,
            Margin::M2t3 => self.margins.m2t3,
            Margin::M3t3 => self.margins.m3t3,
            Margin::M2t5 => self.margins.m2t5,
            Margin::M3t5 => self.margins.m3t5,
            Margin::M2t7 => self.margins.m2t7,
        }
    }

    /// Let it ask for `extra` kilohertz more, at most 1,000, wherever it asks for some: its spacing and its margins. The
    /// half width and the channels stay. Each width is at most 100,000 kHz before.
    pub fn widen(&mut self, extra: u32)
        requires few { extra ≤ 1000 }
        requires narrow { list_all is_width (widths self.old) ≡ true }
        ensures { self.new ≡ wider_profile extra self.old }
    {
        self.spacing = wider(self.spacing, extra);
        self.margins.widen(extra);
    }
}

fn are_widths(numbers: &[u32]) -> bool
    ensures { result ≡ list_all is_width numbers.now }
{
    numbers.iter().all(|&n| n <= Profile::MAX_WIDTH)
}

// A width of 0 asks nothing, and stays.
fn wider(width: u32, extra: u32) -> u32
    requires few { extra ≤ 1000 }
    requires narrow { is_width width ≡ true }
    ensures { result ≡ profile.wider extra width }
{
    if width == 0 { 0 } else { width + extra }
}

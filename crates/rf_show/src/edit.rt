//! All that can be changed of a show, edit by edit.

use rf_base::{Decimal, FileName, Items, Khz, Name};
use rf_exclusions::{HotPoints, Sep};
use rf_profiles::Profile;

/// A change of a show. Frequencies, spacings and widths are in kilohertz, times in minutes of the week.
#[derive(Drop)]
pub enum Edit {
    /// A profile of one range: from, to, step, spacing, half width and the margins in their order. Taken; Number where
    /// they make no profile; Full at 64 profiles.
    AddProfile {
        name: Name,
        numbers: [u32; Profile::NUMBERS],
    },
    /// Profiles of different names, none with a spacing, half width or margin above 100,000. Taken where one of the
    /// names is there; Full where more than 64 would stand.
    AddProfiles {
        list: Items<Profile>,
    },
    /// A range more for a profile. Unknown; Number where the numbers are no range, it doesn't start above the last one's
    /// end, or there would be more than 65,536 channels; InUse; Full at eight ranges.
    AddRange {
        name: Name,
        from: u32,
        to: u32,
        step: u32,
    },
    /// A profile less. Unknown; InUse.
    DropProfile {
        name: Name,
    },
    /// A zone more, apart from all others. Taken; Full at 32 zones.
    AddZone {
        name: Name,
    },
    /// Two zones are coupled, and no longer far. Unknown.
    Couple {
        a: Name,
        b: Name,
    },
    /// Two zones are neither coupled nor coupled far. Unknown.
    Uncouple {
        a: Name,
        b: Name,
    },
    /// Two zones are coupled far: their carriers keep their spacing and are in no product together. Unknown.
    Far {
        a: Name,
        b: Name,
    },
    /// A carrier more: always on, unlocked and without a frequency. Unknown; Taken; Full at 96 carriers.
    AddCarrier {
        name: Name,
        profile: Name,
        zone: Name,
    },
    /// A carrier less. Unknown; Locked.
    Remove {
        name: Name,
    },
    /// An interval more for a carrier, from `from` up to and without `to`. Unknown; Number where `from` isn't below `to`,
    /// or `to` is above 10,080; Full at eight intervals.
    AddTime {
        name: Name,
        from: u32,
        to: u32,
    },
    /// A carrier loses its intervals, and is always on. Unknown.
    Always {
        name: Name,
    },
    /// A carrier has this frequency. Unknown; Number outside 1 to 10,000,000; Locked.
    SetAt {
        name: Name,
        khz: u32,
    },
    /// A carrier has no frequency. Unknown; Locked.
    Clear {
        name: Name,
    },
    /// A carrier is locked. Unknown; NoFrequency.
    Lock {
        name: Name,
    },
    /// A carrier isn't locked. Unknown.
    Unlock {
        name: Name,
    },
    /// A ban more, of a zone or of all zones, from `lo` to `hi`. Unknown; Number where one of the two is outside 1 to
    /// 10,000,000, or `lo` is above `hi`; Full at 256 bans.
    AddBan {
        lo: u32,
        hi: u32,
        zone: Option<Name>,
    },
    /// The ban of a number, counted from 1, is taken away. Number where there is none.
    Unban {
        number: u32,
    },
    /// A scan more, with its hot points. Unknown; Number where the threshold is outside -200 to 200, or the width is above
    /// 100,000; Full at 16 scans.
    AddScan {
        file: FileName,
        sep: Sep,
        zone: Name,
        threshold: Decimal,
        width: u32,
        hot: HotPoints,
    },
    /// The scan of a number, counted from 1, is taken away. Number where there is none.
    Unscan {
        number: u32,
    },
    /// The carriers have these frequencies, in their order. Number where there aren't as many as carriers; Locked where a
    /// locked carrier would change.
    Place {
        at: Items<Option<Khz>>,
    },
}

//! Bans, hot points and sets of numbers, at their ends.
use crate::hold::{Broken, hold, told};
use rf_base::{Decimal, FileName, Khz, Name};
use rf_exclusions::{Ban, HotPoints, ScanSet, Sep, Spans, touched_by_ban, touched_by_scan};
use std::alloc::Global;
use std::test::Fail;

fn is_banned(ban: &Ban, half: u32, khz: u64) -> Option<bool> {
    Some(touched_by_ban(ban, half, Khz::new(khz)?))
}

fn bans() -> Result<(), Broken> {
    let khz = Khz::new(500_040).ok_or("a frequency")?;
    let ban = Ban {
        lo: khz,
        hi: khz,
        zone: None,
    };
    hold(&[
        (
            is_banned(&ban, 10, 500_029) == Some(false),
            "below its half width",
        ),
        (is_banned(&ban, 10, 500_030) == Some(true), "its lowest"),
        (is_banned(&ban, 10, 500_050) == Some(true), "its highest"),
        (
            is_banned(&ban, 10, 500_051) == Some(false),
            "above its half width",
        ),
    ])
}

fn is_hot(scan: &ScanSet, half: u32, khz: u64) -> Option<bool> {
    Some(touched_by_scan(scan, half, Khz::new(khz)?))
}

fn scans(alloc: Global) -> Result<(), Broken> {
    let scan = ScanSet {
        file: FileName::read(b"s.csv").ok_or("a file name")?,
        sep: Sep::Comma,
        zone: Name::read(b"main").ok_or("a name")?,
        threshold: Decimal(-80_000_000_000),
        width: 1,
        hot: HotPoints::from_vec(vec![in alloc; 500_012_500_000]?),
    };
    hold(&[
        (
            is_hot(&scan, 0, 500_011) == Some(false),
            "more than its width below",
        ),
        (
            is_hot(&scan, 0, 500_012) == Some(true),
            "just below the point",
        ),
        (
            is_hot(&scan, 0, 500_013) == Some(true),
            "just above the point",
        ),
        (
            is_hot(&scan, 0, 500_014) == Some(false),
            "more than its width above",
        ),
        (is_hot(&scan, 1, 500_014) == Some(true), "a half width more"),
        (
            is_hot(&scan, 1, 500_015) == Some(false),
            "and no more than that",
        ),
    ])
}

fn spans(alloc: Global) -> Result<(), Broken> {
    let mut spans = Spans::new(alloc);
    let empty = spans.is_empty();
    let added = spans.add(4, 6).is_ok() && spans.add(10, 12).is_ok() && spans.add(7, 9).is_ok();
    hold(&[
        (empty, "nothing at first"),
        (added, "three spans that touch"),
        (spans.is_within(4, 12), "they are from 4 to 12"),
        (!spans.is_within(5, 12), "4 is one of them"),
        (spans.misses(0, 3), "nothing lies below"),
    ])?;
    let cut = spans.cut(5, 30).is_ok();
    hold(&[
        (cut && spans.has(4), "what is left of a cut"),
        (!spans.has(5), "and what is gone"),
        (!spans.is_empty(), "something is left"),
        (spans.only() == Some(4), "one number alone"),
    ])
}

fn all(alloc: Global) -> Result<(), Broken> {
    bans()?;
    scans(alloc)?;
    spans(alloc)
}

#[test]
fn exclusions_end_where_their_widths_do(rt: HostRuntime) -> Result<(), Fail> {
    told(all(rt.alloc()))
}

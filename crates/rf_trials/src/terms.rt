//! Rules at their margins, and the texts of the rule table.
use crate::hold::{Broken, hold, told};
use rf_terms::{Kind, broken, kinds, text, value, window};
use std::test::Fail;

fn windows() -> Result<(), Broken> {
    let middle = window(Kind::T3Two, 0, &[500_000, 500_400], 100) == Some((500_151, 500_249));
    let without = window(Kind::T3Two, 0, &[500_000, 500_400], 0).is_none();
    let between = window(Kind::T5Two, 1, &[500_000, 500_001], 1).is_none();
    let single = window(Kind::T5Two, 1, &[500_000, 500_000], 1) == Some((500_000, 500_000));
    let quarter = window(Kind::T7Two, 0, &[500_000, 501_600], 100) == Some((500_376, 500_424));
    let third = window(Kind::T7Two, 1, &[500_400, 501_600], 100) == Some((499_967, 500_033));
    hold(&[
        (middle, "half of a margin of 100"),
        (without, "no margin"),
        (between, "no whole number between"),
        (single, "one number alone"),
        (quarter, "a quarter of a margin of 100"),
        (third, "a third of it"),
    ])
}

fn forms() -> Result<(), Broken> {
    let off = value(Kind::T3Two, &[500_400, 500_000, 500_900]);
    let at_margin = broken(Kind::T3Two, &[500_400, 500_000, 500_900], 100);
    let within = broken(Kind::T3Two, &[500_400, 500_000, 500_875], 100);
    let without = broken(Kind::T3Two, &[500_400, 500_000, 500_800], 0);
    hold(&[
        (off == -100, "twice the first without the others"),
        (!at_margin, "a form at its margin is not broken"),
        (within, "a form within its margin is broken"),
        (!without, "no margin is never broken"),
    ])
}

fn kinds_have_their_texts() -> bool {
    let texts = [
        "spacing", "2a-b", "a+b-c", "3a-2b", "3a-b-c", "2a+b-2c", "4a-3b",
    ];
    for (i, kind) in kinds().iter().enumerate() {
        if i >= 7 || text(*kind) != texts[i] {
            return false;
        }
    }
    kinds().len() == 7
}

fn all() -> Result<(), Broken> {
    windows()?;
    forms()?;
    hold(&[(
        kinds_have_their_texts(),
        "the kinds in the order of the table",
    )])
}

#[test]
fn rules_are_broken_within_their_margins(_rt: HostRuntime) -> Result<(), Fail> {
    told(all())
}

//! A show that is copied and raised.
ghost use Rattle.std.specs.Prelude.{◌≡◌, true};
ghost use Rattle.std.specs.List.{list_all};
ghost use Rattle.rf_profiles.specs.Profile.{is_width, widths};
ghost use Rattle.rf_show.specs.Raised.{is_textual};

use crate::hold::{Broken, hold, told};
use crate::shows::in_turns;
use rf_profiles::Profile;
use rf_show::Show;
use rf_terms::Kind;
use rf_text::show_text;
use std::alloc::Global;
use std::test::Fail;

/// Whether no spacing, half width or margin is wider than a text may give.
fn is_narrow(profile: &Profile) -> bool
    ensures { result ≡ list_all is_width (widths profile.now) }
{
    let widest = Profile::MAX_WIDTH;
    let margins = profile.margins;
    profile.spacing <= widest
        && profile.half <= widest
        && margins.m2t3 <= widest
        && margins.m3t3 <= widest
        && margins.m2t5 <= widest
        && margins.m3t5 <= widest
        && margins.m2t7 <= widest
}

/// Whether no spacing, half width or margin of profiles is wider than a text may give.
pub(crate) fn are_narrow(profiles: &[Profile]) -> bool
    ensures { result ≡ list_all (λ p. list_all is_width (widths p)) profiles.now }
{
    profiles.iter().all(|profile| is_narrow(profile))
}

/// Raises a show, unless it is wider than a text may give.
pub(crate) fn raised(show: &mut Show, extra: u32) -> bool {
    if extra > Show::MAX_RAISED || !are_narrow(show.profiles()) {
        return false;
    }
    show.raise(extra);
    true
}

/// The spacing of the first two of three carriers, and what the third asks of products of two and of order five.
fn margins(show: &Show) -> Option<(u32, u32, u32)> {
    if show.carriers().len() != 3 {
        return None;
    }
    Some((
        show.margin(Kind::Spacing, &[0, 1]),
        show.margin(Kind::T3Two, &[0, 1, 2]),
        show.margin(Kind::T5Two, &[0, 1, 2]),
    ))
}

fn all(alloc: Global) -> Result<(), Broken> {
    let show = in_turns(alloc)?;
    let mut copy = show.copy(alloc)?;
    let same = show_text(alloc, &copy)?.as_slice() == show_text(alloc, &show)?.as_slice();
    let wider = raised(&mut copy, 1_000);
    hold(&[
        (same, "a copy has the lines of its show"),
        (wider, "it may be raised"),
        (
            margins(&copy) == Some((1_350, 1_100, 0)),
            "what isn't 0 is wider",
        ),
        (
            margins(&show) == Some((350, 100, 0)),
            "the show itself stays",
        ),
        (!raised(&mut copy, 1_001), "no show is raised by more"),
    ])
}

#[test]
fn shows_are_copied_and_raised(rt: HostRuntime) -> Result<(), Fail> {
    told(all(rt.alloc()))
}

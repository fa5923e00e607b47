//! Shows that are made of edits.
ghost use Rattle.std.specs.Prelude.{IsTrue};
ghost use Rattle.rf_show.specs.After.{is_edit};

use crate::hold::Broken;
use rf_base::Name;
use rf_profiles::Profile;
use rf_show::{Edit, Show};
use std::alloc::Global;

/// Makes an edit that isn't refused.
pub(crate) fn change(show: &mut Show, edit: Edit) -> Result<(), Broken>
    requires { IsTrue (is_edit edit) }
{
    match show.apply(edit) {
        Ok(_) => Ok(()),
        Err(_) => Err(Broken("an edit")),
    }
}

pub(crate) fn add_profile(
    show: &mut Show,
    word: &[u8],
    numbers: [u32; Profile::NUMBERS],
) -> Result<(), Broken> {
    let name = Name::read(word).ok_or("a name")?;
    change(show, Edit::AddProfile { name, numbers })
}

/// A carrier more, of a profile and in a zone.
pub(crate) fn add_carrier(
    show: &mut Show,
    word: &[u8],
    profile: &[u8],
    zone: &[u8],
) -> Result<(), Broken> {
    let edit = Edit::AddCarrier {
        name: Name::read(word).ok_or("a name")?,
        profile: Name::read(profile).ok_or("a name")?,
        zone: Name::read(zone).ok_or("a name")?,
    };
    change(show, edit)
}

/// A carrier is on from one minute up to another.
pub(crate) fn add_time(show: &mut Show, word: &[u8], from: u32, to: u32) -> Result<(), Broken> {
    let name = Name::read(word).ok_or("a name")?;
    change(show, Edit::AddTime { name, from, to })
}

/// A show with three carriers of a profile with 401 channels.
pub(crate) fn evenly_spaced(alloc: Global) -> Result<Show, Broken> {
    let mut show = Show::new(alloc)?;
    let numbers = [500_000, 510_000, 25, 350, 0, 100, 50, 0, 0, 0];
    add_profile(&mut show, b"P", numbers)?;
    for word in [b"a", b"b", b"c"] {
        add_carrier(&mut show, word, b"P", b"main")?;
    }
    Ok(show)
}

/// The same, where each two share a minute and the three none.
pub(crate) fn in_turns(alloc: Global) -> Result<Show, Broken> {
    let mut show = evenly_spaced(alloc)?;
    for (word, from, to) in [(b"a", 0, 10), (b"a", 20, 30), (b"b", 0, 20), (b"c", 10, 30)] {
        add_time(&mut show, word, from, to)?;
    }
    Ok(show)
}

//! The steps that lead back from an edit.

use crate::carrier::Carrier;
use crate::change::Change;
use crate::zone_change::ZoneChange;
use rf_base::{Items, Khz};
use rf_exclusions::{Ban, ScanSet};
use rf_profiles::Profile;
use std::marker::Model;

/// What takes a show back to the one before an edit.
#[derive(Drop)]
pub struct Undo {
    pub(crate) step: Step,
}

impl Model for Undo {
    ghost use Rattle.rf_show.specs.declared.undo.Step.{Step};

    ghost Value = { Step };

    ghost view = { λ u. u.step };
}

/// A change of one part of a show, which another one takes back.
#[derive(Drop)]
pub enum Step {
    /// Of the profiles.
    Profiles(Change<Profile>),
    /// Of the carriers.
    Carriers(Change<Carrier>),
    /// The frequencies of all carriers.
    Frequencies(Items<Option<Khz>>),
    /// Of the zones.
    Zones(ZoneChange),
    /// Of the bans.
    Bans(Change<Ban>),
    /// Of the scans.
    Scans(Change<ScanSet>),
}

//! Carriers and profiles by their names.

ghost use Rattle.std.specs.Prelude.{◌≡◌, ◌<◌, ℕ, IsSome, length, position};
ghost use Rattle.std.specs.List.{position_or_len};
ghost use Rattle.std.specs.Option.{option_copied};
ghost use Rattle.rf_show.specs.Show.{is_carrier, is_profile};
ghost use Rattle.rf_zones.specs.Zones.{zone_of};
ghost use Rattle.rf_show.specs.Show as of_show;

use crate::carrier::Carrier;
use rf_base::Name;
use rf_profiles::Profile;
use rf_zones::Zones;

/// The carrier of a name.
pub(crate) fn carrier_named(carriers: &[Carrier], name: Name) -> Option<&Carrier>
    ensures { option_copied result ≡ of_show.carrier_named carriers.now name }
{
    carriers.iter().find(|c| c.name == name)
}

/// The profile of a name.
pub(crate) fn profile_named(profiles: &[Profile], name: Name) -> Option<&Profile>
    ensures { option_copied result ≡ of_show.profile_named profiles.now name }
{
    profiles.iter().find(|p| p.name == name)
}

/// Whether there is a profile of a name.
pub(crate) fn has_profile(profiles: &[Profile], name: Name) -> bool
    ensures { result ≡ of_show.has_profile profiles.now name }
{
    profile_named(profiles, name).is_some()
}

/// Whether a carrier has the profile of a name.
pub(crate) fn is_used(carriers: &[Carrier], name: Name) -> bool
    ensures { result ≡ of_show.is_used carriers.now name }
{
    carriers.iter().any(|c| c.profile == name)
}

/// The place of the carrier of a name.
pub(crate) fn carrier_place(carriers: &[Carrier], name: Name) -> usize
    requires { IsSome (of_show.carrier_named carriers.now name) }
    ensures place { result ≡ position_or_len (is_carrier name) carriers.now }
    ensures within { result < length carriers.now }
{
    carrier_position(carriers, name).unwrap()
}

fn carrier_position(carriers: &[Carrier], name: Name) -> Option<usize>
    ensures { result ≡ position (is_carrier name) carriers.now }
{
    carriers.iter().position(|c| c.name == name)
}

/// The place of the profile of a name.
pub(crate) fn profile_place(profiles: &[Profile], name: Name) -> usize
    requires { IsSome (of_show.profile_named profiles.now name) }
    ensures place { result ≡ position_or_len (is_profile name) profiles.now }
    ensures within { result < length profiles.now }
{
    profile_position(profiles, name).unwrap()
}

fn profile_position(profiles: &[Profile], name: Name) -> Option<usize>
    ensures { result ≡ position (is_profile name) profiles.now }
{
    profiles.iter().position(|p| p.name == name)
}

/// The number of the zone of a name.
pub(crate) fn zone_number(zones: &Zones, name: Name) -> u8
    requires { IsSome (zone_of zones.now name) }
    ensures value { result ≡ of_show.zone_number zones.now name }
    ensures within { result < length zones.now.names }
{
    zones.find(name).unwrap()
}

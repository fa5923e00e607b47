//! Profiles that ask for more: wider spacings and margins.

ghost use Rattle.std.specs.Prelude.{◌≡◌, ◌≤◌, map, true, vec_capacity};
ghost use Rattle.std.specs.List.{list_all};
ghost use Rattle.rf_profiles.specs.Profile.{is_width, wider_profile, widths};
ghost use Rattle.rf_show.specs.Limits.{most_raised};

use rf_profiles::Profile;

/// Widens each spacing and each margin that isn't 0.
pub(crate) fn widen_all(profiles: &mut Vec<Profile>, extra: u32)
    requires few { extra ≤ most_raised }
    requires narrow { list_all (λ p. list_all is_width (widths p)) profiles.old.items ≡ true }
    ensures there { profiles.new.items ≡ map (wider_profile extra) profiles.old.items }
    ensures capacity { vec_capacity profiles.old ≤ vec_capacity profiles.new }
{
    widen_each(profiles, extra);
}

fn widen_each(profiles: &mut [Profile], extra: u32)
    requires few { extra ≤ most_raised }
    requires narrow { list_all (λ p. list_all is_width (widths p)) profiles.old ≡ true }
    ensures { profiles.new ≡ map (wider_profile extra) profiles.old }
{
    for profile in profiles.iter_mut() {
        profile.widen(extra);
    }
}

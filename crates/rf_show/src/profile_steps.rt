//! Changes of the profiles.

ghost use Rattle.std.specs.Prelude.{◌≡◌, ◌∷◌, ◌++◌, [], true, IsSome, None};
ghost use Rattle.rf_profiles.specs.Range.{span, range_of};
ghost use Rattle.rf_profiles.specs.Profile.{profile_of};
ghost use Rattle.rf_show.specs.After.{change_first, remove_first, with_some};
ghost use Rattle.rf_show.specs.Change.{changed, fits};
ghost use Rattle.rf_show.specs.Reasons.{first_reason};
ghost use Rattle.rf_show.specs.Reasons as reasons;
ghost use Rattle.rf_show.specs.Show.{is_profile};
ghost use Rattle.rf_show.specs.Show as of_show;

use crate::change::Change;
use crate::find::profile_place;
use rf_base::Name;
use rf_profiles::{Profile, Range};

/// A profile of one range is added.
pub(crate) fn with_profile(
    profiles: &[Profile],
    name: Name,
    numbers: &[u32; Profile::NUMBERS],
) -> Change<Profile>
    requires { first_reason (reasons.new_profile_reasons profiles.now name numbers.now) ≡ None }
    ensures fits { fits profiles.now result ≡ true }
    ensures there { changed profiles.now result ≡ with_some profiles.now (profile_of name numbers.now) }
{
    let item = Profile::from_numbers(name, numbers).unwrap();
    Change::Put {
        place: profiles.len(),
        item,
    }
}

/// The named profile has a range more.
pub(crate) fn with_range(
    profiles: &[Profile],
    name: Name,
    from: u32,
    to: u32,
    step: u32,
) -> Change<Profile>
    requires there { IsSome (of_show.profile_named profiles.now name) }
    requires room { reasons.named_range_reason (of_show.profile_named profiles.now name) (range_of from to step) ≡ None }
    ensures fits { fits profiles.now result ≡ true }
    ensures there { changed profiles.now result ≡ change_first (is_profile name) (λ p. record p { channels = p.channels ++ span from to step ∷ [] }) profiles.now }
{
    let place = profile_place(profiles, name);
    let range = Range::new(from, to, step).unwrap();
    let mut item = profiles[place];
    item.channels = item.channels.with(range).unwrap();
    Change::Set { place, item }
}

#[tactic(auto, using(crate::proofs::ListLemmas::remove_first_at))]
/// The named profile is taken away.
pub(crate) fn removal(profiles: &[Profile], name: Name) -> Change<Profile>
    requires { IsSome (of_show.profile_named profiles.now name) }
    ensures fits { fits profiles.now result ≡ true }
    ensures there { changed profiles.now result ≡ remove_first (is_profile name) profiles.now }
{
    let place = profile_place(profiles, name);
    Change::Take { place }
}

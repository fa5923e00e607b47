//! Changes of the carriers.

ghost use Rattle.std.specs.Prelude.{◌≡◌, ◌∷◌, ◌++◌, ◌<◌, [], true, IsSome, IsTrue, None};
ghost use Rattle.rf_zones.specs.Times.{is_interval};
ghost use Rattle.rf_show.specs.After.{change_first, new_carrier, remove_first};
ghost use Rattle.rf_show.specs.Change.{changed, fits};
ghost use Rattle.rf_show.specs.Reasons.{first_reason, time_reasons};
ghost use Rattle.rf_show.specs.Show.{is_carrier};
ghost use Rattle.rf_show.specs.Show as of_show;

use crate::carrier::Carrier;
use crate::change::Change;
use crate::find::carrier_place;
use rf_base::{Khz, Name};
use rf_zones::Times;

/// A carrier is added: always on, unlocked and without a frequency.
pub(crate) fn with_carrier(
    carriers: &[Carrier],
    name: Name,
    profile: Name,
    zone: Name,
) -> Change<Carrier>
    ensures fits { fits carriers.now result ≡ true }
    ensures there { changed carriers.now result ≡ carriers.now ++ new_carrier name profile zone ∷ [] }
{
    let item = Carrier {
        name,
        profile,
        zone,
        times: Times::new(),
        at: None,
        locked: false,
    };
    Change::Put {
        place: carriers.len(),
        item,
    }
}

#[tactic(auto, using(crate::proofs::ListLemmas::remove_first_at))]
/// The named carrier is taken away.
pub(crate) fn removal(carriers: &[Carrier], name: Name) -> Change<Carrier>
    requires { IsSome (of_show.carrier_named carriers.now name) }
    ensures fits { fits carriers.now result ≡ true }
    ensures there { changed carriers.now result ≡ remove_first (is_carrier name) carriers.now }
{
    let place = carrier_place(carriers, name);
    Change::Take { place }
}

/// The named carrier is at this frequency, or at none.
pub(crate) fn with_at(carriers: &[Carrier], name: Name, at: Option<Khz>) -> Change<Carrier>
    requires { IsSome (of_show.carrier_named carriers.now name) }
    ensures fits { fits carriers.now result ≡ true }
    ensures there { changed carriers.now result ≡ change_first (is_carrier name) (λ c. record c { at = at }) carriers.now }
{
    let place = carrier_place(carriers, name);
    let mut item = carriers[place];
    item.at = at;
    Change::Set { place, item }
}

/// The named carrier is locked or not.
pub(crate) fn with_lock(carriers: &[Carrier], name: Name, locked: bool) -> Change<Carrier>
    requires { IsSome (of_show.carrier_named carriers.now name) }
    ensures fits { fits carriers.now result ≡ true }
    ensures there { changed carriers.now result ≡ change_first (is_carrier name) (λ c. record c { locked = locked }) carriers.now }
{
    let place = carrier_place(carriers, name);
    let mut item = carriers[place];
    item.locked = locked;
    Change::Set { place, item }
}

/// The named carrier is always on.
pub(crate) fn always_on(carriers: &[Carrier], name: Name) -> Change<Carrier>
    requires { IsSome (of_show.carrier_named carriers.now name) }
    ensures fits { fits carriers.now result ≡ true }
    ensures there { changed carriers.now result ≡ change_first (is_carrier name) (λ c. record c { times = [] }) carriers.now }
{
    let place = carrier_place(carriers, name);
    let mut item = carriers[place];
    item.times = Times::new();
    Change::Set { place, item }
}

/// The named carrier is on in an interval more.
pub(crate) fn with_time(carriers: &[Carrier], name: Name, from: u32, to: u32) -> Change<Carrier>
    requires { first_reason (time_reasons carriers.now name from to) ≡ None }
    ensures fits { fits carriers.now result ≡ true }
    ensures there { changed carriers.now result ≡ change_first (is_carrier name) (λ c. record c { times = c.times ++ (from, to) ∷ [] }) carriers.now }
{
    let place = carrier_place(carriers, name);
    let mut item = carriers[place];
    item.times.add(from as u16, to as u16);
    Change::Set { place, item }
}

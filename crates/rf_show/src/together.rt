//! Which carriers may be together by their zones.

ghost use Rattle.std.specs.Prelude.{◌≡◌, ◌<◌, All, length, slice_get, true};
ghost use Rattle.std.specs.List.{list_all};
ghost use Rattle.rf_show.specs.Show.{has_zone};
ghost use Rattle.rf_show.specs.Query as query;

use crate::carrier::Carrier;
use crate::find::zone_number;
use rf_zones::Zones;

/// Whether each two of these carriers may be together in a set of so many.
pub(crate) fn all_meet(zones: &Zones, carriers: &[Carrier], size: usize, set: &[usize]) -> bool
    requires in_range { All (λ c. c < length carriers.now) set.now }
    requires placed { list_all (λ c. has_zone zones.now c.zone) carriers.now ≡ true }
    ensures { result ≡ query.all_meet size zones.now carriers.now set.now }
{
    set.iter()
        .all(|a| meets_all(zones, carriers, size, *a, set))
}

// Whether a carrier may be together with each of these in a set of so many.
fn meets_all(zones: &Zones, carriers: &[Carrier], size: usize, a: usize, set: &[usize]) -> bool
    requires there { a < length carriers.now }
    requires in_range { All (λ c. c < length carriers.now) set.now }
    requires placed { list_all (λ c. has_zone zones.now c.zone) carriers.now ≡ true }
    ensures { result ≡ list_all (λ b. query.meet_at size zones.now carriers.now a b) set.now }
{
    set.iter().all(|b| meet_at(zones, carriers, size, a, *b))
}

/// Whether two carriers may be together in a set of so many.
pub(crate) fn meet_at(zones: &Zones, carriers: &[Carrier], size: usize, a: usize, b: usize) -> bool
    requires a_there { a < length carriers.now }
    requires b_there { b < length carriers.now }
    requires placed { list_all (λ c. has_zone zones.now c.zone) carriers.now ≡ true }
    ensures { result ≡ query.meet_at size zones.now carriers.now a b }
{
    meet(zones, size, &carriers[a], &carriers[b])
}

fn meet(zones: &Zones, size: usize, a: &Carrier, b: &Carrier) -> bool
    requires a_placed { has_zone zones.now a.now.zone ≡ true }
    requires b_placed { has_zone zones.now b.now.zone ≡ true }
    ensures { result ≡ query.meet size zones.now a.now b.now }
{
    if a.zone == b.zone {
        return true;
    }
    let coupling = zones.coupling(zone_number(zones, a.zone), zone_number(zones, b.zone));
    coupling.joins(size)
}

//! Changes of zones and of how they are coupled, each with the one that leads back.

ghost use Rattle.std.specs.Prelude.{◌≡◌, ◌≤◌, IsSome, true, length};
ghost use Rattle.rf_show.specs.Limits.{most_zones};
ghost use Rattle.rf_show.specs.ZoneChange.{zones_changed, zones_fit};
ghost use Rattle.rf_show.specs.Show as of_show;
ghost use Rattle.rf_zones.specs.Zones.{with_coupling, zone_of};

use crate::find::zone_number;
use rf_base::Name;
use rf_zones::{Coupling, Zones};

/// A change of the zones, which another one takes back.
#[derive(Drop)]
pub enum ZoneChange {
    /// A zone at the end, apart from all others.
    PutZone { name: Name },
    /// The last zone is taken away.
    TakeZone,
    /// How two zones stand to each other.
    SetCoupling { a: u8, b: u8, coupling: Coupling },
}

/// Two named zones stand so to each other.
pub(crate) fn with_coupling(zones: &Zones, a: Name, b: Name, coupling: Coupling) -> ZoneChange
    requires a_there { IsSome (zone_of zones.now a) }
    requires b_there { IsSome (zone_of zones.now b) }
    ensures fits { zones_fit zones.now result ≡ true }
    ensures there { zones_changed zones.now result ≡ with_coupling zones.now (of_show.zone_number zones.now a) (of_show.zone_number zones.now b) coupling }
{
    ZoneChange::SetCoupling {
        a: zone_number(zones, a),
        b: zone_number(zones, b),
        coupling,
    }
}

/// Makes a change, and answers the one that leads back.
pub(crate) fn change_zones(zones: &mut Zones, change: ZoneChange) -> ZoneChange
    requires fits { zones_fit zones.old change ≡ true }
    requires some { 1 ≤ length zones.old.names }
    requires few { length zones.old.names ≤ most_zones }
    ensures there { zones.new ≡ zones_changed zones.old change }
    ensures back { zones_changed zones.new result ≡ zones.old }
    ensures fits { zones_fit zones.new result ≡ true }
    ensures some { 1 ≤ length zones.new.names }
    ensures few { length zones.new.names ≤ most_zones }
{
    match change {
        ZoneChange::PutZone { name } => {
            zones.add(name);
            ZoneChange::TakeZone
        }
        ZoneChange::TakeZone => {
            let name = zones.drop_last();
            ZoneChange::PutZone { name }
        }
        ZoneChange::SetCoupling { a, b, coupling } => {
            let was = zones.coupling(a, b);
            zones.set_coupling(a, b, coupling);
            ZoneChange::SetCoupling {
                a,
                b,
                coupling: was,
            }
        }
    }
}

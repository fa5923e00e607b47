//! Whether zones stay as they were.

ghost use Rattle.std.specs.Prelude.{◌≡◌, ◌<◌, length};
ghost use Rattle.std.specs.Bool.{OnTrue};
ghost use Rattle.rf_table.specs.Unchanged.{SameZone, SameZones};

use crate::compare::same_name;
use rf_zones::{Coupling, Zones};

/// Two shows have the same zones, which stand to each other as before.
pub(crate) fn same_zones(old: &Zones, new: &Zones) -> bool
    ensures { OnTrue result (SameZones old.now new.now) }
{
    if old.count() != new.count() {
        return false;
    }
    for z in 0..old.count() {
        if !same_zone(old, new, z) {
            return false;
        }
    }
    true
}

fn same_zone(old: &Zones, new: &Zones, z: u8) -> bool
    requires there { z < length old.now.names }
    requires count { length old.now.names ≡ length new.now.names }
    ensures { OnTrue result (SameZone old.now new.now z) }
{
    if !same_name(old.name(z), new.name(z)) {
        return false;
    }
    for y in 0..old.count() {
        if !same_coupling(old.coupling(z, y), new.coupling(z, y)) {
            return false;
        }
    }
    true
}

fn same_coupling(a: Coupling, b: Coupling) -> bool
    ensures { OnTrue result (a ≡ b) }
{
    a == b
}

//! Which carriers changed between two shows.

ghost use Rattle.std.specs.Bool.{OnTrue};
ghost use Rattle.rf_rules.specs.Renewed.{Agrees};
ghost use Rattle.rf_table.specs.Unchanged.{SameAt, SameZones};

use crate::compare::is_same;
use rf_show::Show;
use rf_zones::Mask;
use rf_zones::mask::{none, with};

/// The carriers that changed between two shows of the same zones, with those that only one of the shows has.
pub(crate) fn changed(old: &Show, new: &Show) -> Mask
    requires { SameZones old.now.zones new.now.zones }
    ensures { Agrees result old.now new.now }
{
    let mut mask = none();
    for c in 0..old.carriers().len().max(new.carriers().len()) {
        if stays(old, new, c) {
            continue;
        }
        mask = with(mask, c);
    }
    mask
}

/// Both shows have a carrier, which stays as it was.
fn stays(old: &Show, new: &Show, c: usize) -> bool
    ensures { OnTrue result (SameAt old.now new.now c) }
{
    if c >= old.carriers().len() || c >= new.carriers().len() {
        return false;
    }
    is_same(old, new, c)
}

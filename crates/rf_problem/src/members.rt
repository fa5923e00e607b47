//! The few carriers of a small mask as a list.

ghost use Rattle.std.specs.Prelude.{◌≡◌, ◌≤◌, length, take};
ghost use Rattle.rf_zones.specs.declared.mask.TheConstants.{MAX_CARRIERS};
ghost use Rattle.rf_problem.specs.Problem.{members_of};

use rf_zones::Mask;
use rf_zones::mask::has;

/// The carriers below `count` whose bits a mask has, at most four, rising. They stand first; the number says how many they are.
pub fn members(mask: Mask, count: usize) -> ([usize; 4], usize)
    requires count { count ≤ MAX_CARRIERS }
    requires four { length (members_of count mask) ≤ 4 }
    ensures few { result.1 ≤ 4 }
    ensures value { take result.1 result.0 ≡ members_of count mask }
{
    let mut all = [0; 4];
    let mut len = 0;
    for c in 0..count {
        if !has(mask, c) {
            continue;
        }
        all[len] = c;
        len += 1;
    }
    (all, len)
}

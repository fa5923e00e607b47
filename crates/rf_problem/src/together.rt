//! Which carriers are on together, and which may be together.
ghost use Rattle.std.specs.Prelude.{◌≡◌, ◌<◌, ◌≤◌, All, length};
ghost use Rattle.std.specs.List.{list_all};
ghost use Rattle.rf_zones.specs.declared.mask.TheConstants.{MAX_CARRIERS};
ghost use Rattle.rf_problem.specs.Problem as problem;

use crate::carrier::Carrier;
use rf_zones::Mask;
use rf_zones::mask::has_all;

/// Whether one slice has all of a set.
pub fn share_slice(slices: &[Mask], set: &[usize]) -> bool
    requires { All (λ c. c < MAX_CARRIERS) set.now }
    ensures { result ≡ problem.share_slice slices.now set.now }
{
    slices.iter().any(|slice| has_all(*slice, set))
}

/// Whether each two of a set may be together in a set of `size`.
pub fn all_meet(size: usize, carriers: &[Carrier], set: &[usize]) -> bool
    requires few { length carriers.now ≤ MAX_CARRIERS }
    requires in_range { All (λ c. c < length carriers.now) set.now }
    ensures { result ≡ problem.all_meet size carriers.now set.now }
{
    set.iter().all(|a| meets_all(size, carriers, *a, set))
}

// Whether a carrier and each of a set may be together in a set of `size`.
fn meets_all(size: usize, carriers: &[Carrier], a: usize, set: &[usize]) -> bool
    requires few { length carriers.now ≤ MAX_CARRIERS }
    requires there { a < length carriers.now }
    requires in_range { All (λ c. c < length carriers.now) set.now }
    ensures { result ≡ list_all (λ b. problem.meet size carriers.now a b) set.now }
{
    set.iter().all(|b| meet(size, carriers, a, *b))
}

fn meet(size: usize, carriers: &[Carrier], a: usize, b: usize) -> bool
    requires few { length carriers.now ≤ MAX_CARRIERS }
    requires a_there { a < length carriers.now }
    requires b_there { b < length carriers.now }
    ensures { result ≡ problem.meet size carriers.now a b }
{
    if a < b {
        return carriers[b].meets(size, a);
    }
    a == b || carriers[a].meets(size, b)
}

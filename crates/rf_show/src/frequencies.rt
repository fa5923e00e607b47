//! The frequencies of all carriers changed at once.

ghost use Rattle.std.specs.Prelude.{◌≡◌, ◌≤◌, map, nat_eq, true, length, vec_capacity};
ghost use Rattle.rf_show.specs.After.{placed};

use crate::carrier::Carrier;
use rf_base::{Items, Khz};

/// Gives the carriers these frequencies, and answers those that they had.
pub(crate) fn change_frequencies(
    carriers: &mut Vec<Carrier>,
    ats: Items<Option<Khz>>,
) -> Items<Option<Khz>>
    requires { nat_eq (length ats) (length carriers.old.items) ≡ true }
    ensures there { carriers.new.items ≡ placed carriers.old.items ats }
    ensures back { placed carriers.new.items result ≡ carriers.old.items }
    ensures fits { nat_eq (length result) (length carriers.new.items) ≡ true }
    ensures capacity { vec_capacity carriers.old ≤ vec_capacity carriers.new }
{
    let mut ats = ats.into_vec();
    swap_frequencies(carriers, &mut ats);
    Items::from_vec(ats)
}

// Swaps the frequencies of the carriers with these.
fn swap_frequencies(carriers: &mut [Carrier], ats: &mut [Option<Khz>])
    requires { length ats.old ≡ length carriers.old }
    ensures carriers { carriers.new ≡ placed carriers.old ats.old }
    ensures ats { ats.new ≡ map (λ c. c.at) carriers.old }
    ensures back { placed carriers.new ats.new ≡ carriers.old }
    ensures fits { nat_eq (length ats.new) (length carriers.new) ≡ true }
{
    for i in 0..carriers.len() {
        let at = carriers[i].at;
        carriers[i].at = ats[i];
        ats[i] = at;
    }
}

//! What each carrier adds to a kind's form, and what it asks, for the last role.

ghost use Rattle.std.specs.Prelude.{◌≡◌, ◌≤◌, ◌==◌, All, length, map, take};
ghost use Rattle.std.specs.List.{list_all};
ghost use Rattle.rf_rules.specs.Instances.{IsLimited};
ghost use Rattle.rf_rules.specs.Searches.{lane_of, last_coefficient};
ghost use Rattle.rf_rules.specs.Tuples.{upto};

use crate::arithmetic::term;
use crate::frequencies::{at, khz_of};
use rf_base::Khz;
use rf_show::Show;
use rf_terms::{Kind, coefficient, roles};

/// What a carrier adds to a form in its last role, and what it asks there.
#[derive(Clone, Copy)]
pub struct Lane {
    pub term: i64,
    pub needs: u32,
}

/// A lane for each carrier, and what fills the room behind them.
pub type Lanes = [Lane; Show::MAX_CARRIERS];

/// The lanes of a kind.
pub fn make_lanes(show: &Show, ats: &[Option<Khz>], kind: Kind) -> Lanes
    requires { length ats.now ≡ length show.now.carriers }
    ensures lanes { take (length ats.now) result ≡ map (lane_of show.now ats.now kind) (upto (length ats.now)) }
    ensures fits { length ats.now ≤ length result }
    ensures limited { All IsLimited ats.now }
{
    let last = coefficient(kind, roles(kind) - 1);
    let mut lanes = [Lane { term: 0, needs: 0 }; Show::MAX_CARRIERS];
    for carrier in 0..show.carriers().len() {
        let khz = khz_of(at(ats, carrier));
        lanes[carrier] = Lane {
            term: term(last, khz),
            needs: show.profile_of(carrier).margin(kind),
        };
    }
    lanes
}

/// No carrier asks anything.
pub fn ask_nothing(lanes: &[Lane]) -> bool
    ensures { result ≡ list_all (λ l. l.needs == 0) lanes.now }
{
    lanes.iter().all(|lane| lane.needs == 0)
}

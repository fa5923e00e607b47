//! Where the carriers of a show stand, in one row.

ghost use Rattle.std.specs.Prelude.{◌≡◌, ◌<◌, ◌≤◌, length, pos, take, unsigned_abs, unwrap_or};
ghost use Rattle.rf_rules.specs.Instances.{at_in, ats_of};

use rf_base::Khz;
use rf_show::Show;

/// The frequency of each carrier, for those that have one, and what fills the room behind them.
pub type Frequencies = [Option<Khz>; Show::MAX_CARRIERS];

/// The frequencies at which the carriers of a show stand.
pub fn assigned(show: &Show) -> Frequencies
    ensures { take (length show.now.carriers) result ≡ ats_of show.now }
{
    let mut ats = [None; Show::MAX_CARRIERS];
    for (i, carrier) in show.carriers().iter().enumerate() {
        ats[i] = carrier.at;
    }
    ats
}

/// The frequency of a carrier.
#[inline]
pub fn at(ats: &[Option<Khz>], carrier: usize) -> Option<Khz>
    requires { carrier < length ats.now }
    ensures { result ≡ at_in ats.now carrier }
{
    ats[carrier]
}

/// A frequency in kilohertz, and 0 where there is none.
#[inline]
pub fn khz_of(at: Option<Khz>) -> i64
    ensures value { result ≡ pos (unwrap_or at 0) }
    ensures bound { unsigned_abs result ≤ 10000000 }
{
    at.map_or(0, |khz| i64::from(khz.get()))
}

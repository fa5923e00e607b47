//! Bans, and which frequencies they touch.

ghost use Rattle.std.specs.Prelude.{◌≡◌};
ghost use Rattle.rf_exclusions.specs.Touched.{is_touched_by_ban};

use rf_base::{Khz, Name};

/// A stretch of frequencies, in kilohertz, that may not be used in a zone, or in any zone where none is named.
#[derive(Clone, Copy)]
pub struct Ban {
    /// The lowest banned frequency.
    pub lo: Khz,
    /// The highest banned frequency.
    pub hi: Khz,
    /// The zone, or none for all zones.
    pub zone: Option<Name>,
}

/// Whether a ban touches a frequency under a half width of `half` kHz, without regard to zones.
pub fn touched_by_ban(ban: &Ban, half: u32, khz: Khz) -> bool
    ensures { result ≡ is_touched_by_ban ban.now half khz }
{
    let half = u64::from(half);
    let khz = u64::from(khz.get());
    u64::from(ban.lo.get()) <= khz + half && khz <= u64::from(ban.hi.get()) + half
}

//! Which frequencies are banned for a newcomer.

ghost use Rattle.std.specs.Prelude.{◌≡◌, ◌<◌, ℕ, length};
ghost use Rattle.rf_show.specs.Query as query;
ghost use Rattle.rf_spares.specs.Crowds.{IsCrowd};
ghost use Rattle.rf_spares.specs.Exclusions.{bans_newcomer};

use crate::crowd::Crowd;
use rf_base::{Khz, Name};
use rf_exclusions::{Ban, ScanSet, touched_by_ban, touched_by_scan};

impl Crowd<'_> {
    /// A frequency is banned for a newcomer: a ban or a scan touches it in the newcomer's zone, under the half width of its
    /// profile.
    pub fn bans(&self, khz: Khz) -> bool
        requires { IsCrowd self.now }
        ensures { result ≡ bans_newcomer self.now.show.now self.now.profile self.now.zone khz }
    {
        let zone = self.show.zones().name(self.zone);
        let half = self.own_profile().half;
        bans_touch(self.show.bans(), zone, half, khz)
            || scans_touch(self.show.scans(), zone, half, khz)
    }
}

/// Whether a ban touches a frequency in a zone.
fn bans_touch(bans: &[Ban], zone: Name, half: u32, khz: Khz) -> bool
    ensures { result ≡ query.bans_touch bans.now zone half khz }
{
    bans.iter().any(|ban| touched_by_ban(ban, half, khz) && holds_in(zone, ban.zone))
}

fn holds_in(zone: Name, banned: Option<Name>) -> bool
    ensures { result ≡ query.holds_in zone banned }
{
    match banned {
        Some(banned) => banned == zone,
        None => true,
    }
}

/// Whether a scan of a zone touches a frequency.
fn scans_touch(scans: &[ScanSet], zone: Name, half: u32, khz: Khz) -> bool
    ensures { result ≡ query.scans_touch scans.now zone half khz }
{
    scans.iter().any(|scan| scan.zone == zone && touched_by_scan(scan, half, khz))
}

//! Which frequencies bans and scans touch in a zone.

ghost use Rattle.std.specs.Prelude.{◌≡◌};
ghost use Rattle.rf_show.specs.Query as query;

use rf_base::{Khz, Name};
use rf_exclusions::{Ban, ScanSet, touched_by_ban, touched_by_scan};

/// Whether a ban touches a frequency in a zone.
pub(crate) fn bans_touch(bans: &[Ban], zone: Name, half: u32, khz: Khz) -> bool
    ensures { result ≡ query.bans_touch bans.now zone half khz }
{
    bans.iter().any(|ban| touched_by_ban(ban, half, khz) && holds_in(zone, ban.zone))
}

fn holds_in(zone: Name, banned: Option<Name>) -> bool
    ensures { result ≡ query.holds_in zone banned }
{
    match banned {
        Some(banned) => banned == zone,
        None => true,
    }
}

/// Whether a scan of a zone touches a frequency.
pub(crate) fn scans_touch(scans: &[ScanSet], zone: Name, half: u32, khz: Khz) -> bool
    ensures { result ≡ query.scans_touch scans.now zone half khz }
{
    scans.iter().any(|scan| scan.zone == zone && touched_by_scan(scan, half, khz))
}

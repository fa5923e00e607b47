//! One carrier of a show: who it is, where and when it is on, and at which frequency.

use rf_base::{Khz, Name};
use rf_zones::{Timed, Times};

/// A wireless microphone or an in-ear monitor.
#[derive(Clone, Copy)]
pub struct Carrier {
    /// Its name among the carriers of a show.
    pub name: Name,
    /// The name of its profile.
    pub profile: Name,
    /// The name of the zone that it is in.
    pub zone: Name,
    /// When it is on.
    pub times: Times,
    /// Its frequency, a channel of its profile or not. None where it has none.
    pub at: Option<Khz>,
    /// Whether its frequency stays as it is.
    pub locked: bool,
}

impl Timed for Carrier {
    ghost intervals = { λ c. c.times };

    fn times(&self) -> Times {
        self.times
    }
}

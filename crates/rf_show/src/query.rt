//! What is asked of a show: channels, spacings, margins, what is allowed, and who is together.

ghost use Rattle.std.specs.Prelude.{◌≡◌, ◌<◌, ◌≤◌, All, Some, find, is_some, length, true};
ghost use Rattle.std.specs.Option.{option_copied};
ghost use Rattle.rf_profiles.specs.Profile.{margin_widths};
ghost use Rattle.rf_show.specs.Show.{is_profile};
ghost use Rattle.rf_show.specs.Query as query;
ghost use Rattle.rf_terms.specs.Kinds.{roles_of};
ghost use Rattle.rf_show.specs.Limits.{widest};

use crate::carrier::Carrier;
use crate::exclusions::{bans_touch, scans_touch};
use crate::find::profile_named;
use crate::show::Show;
use crate::together::{all_meet, meet_at};
use rf_base::Khz;
use rf_profiles::Profile;
use rf_terms::Kind;
use rf_zones::share_minute;

impl Show {
    /// The profile of a carrier, which is one of the show; what it asks is nowhere wider than a show allows.
    pub fn profile_of(&self, carrier: usize) -> &Profile
        requires { carrier < length self.now.carriers }
        ensures value { query.profile_of self.now carrier ≡ Some result.now }
        ensures spacing { result.now.spacing ≤ widest }
        ensures margins { All (λ m. m ≤ widest) (margin_widths result.now.margins) }
    {
        let name = self.carriers()[carrier].profile;
        profile_named(self.profiles(), name).unwrap()
    }

    /// A frequency is a channel of the carrier's profile.
    pub fn has_channel(&self, carrier: usize, khz: Khz) -> bool
        requires { carrier < length self.now.carriers }
        ensures { result ≡ query.is_channel self.now carrier khz }
    {
        self.profile_of(carrier).channels.index_of(khz).is_some()
    }

    /// A frequency is banned for a carrier: a ban or a scan touches it in the carrier's zone, under the half width of its
    /// profile.
    pub fn banned(&self, carrier: usize, khz: Khz) -> bool
        requires { carrier < length self.now.carriers }
        ensures { result ≡ query.is_banned self.now carrier khz }
    {
        self.banned_under(carrier, self.profile_of(carrier), khz)
    }

    // A frequency is banned for a carrier, whose profile is this one.
    #[tactic(auto, unfolding(crate::specs::Query::is_banned))]
    fn banned_under(&self, carrier: usize, profile: &Profile, khz: Khz) -> bool
        requires there { carrier < length self.now.carriers }
        requires own { query.profile_of self.now carrier ≡ Some profile.now }
        ensures { result ≡ query.is_banned self.now carrier khz }
    {
        let zone = self.carriers()[carrier].zone;
        let half = profile.half;
        bans_touch(self.bans(), zone, half, khz) || scans_touch(self.scans(), zone, half, khz)
    }

    /// A carrier may stand at channel `k` of its profile: the channel is there, its frequency is not banned for the carrier,
    /// and where the carrier is locked it is the carrier's frequency.
    pub fn allowed(&self, carrier: usize, k: u32) -> bool
        requires { carrier < length self.now.carriers }
        ensures { result ≡ query.is_allowed self.now carrier k }
    {
        let profile = self.profile_of(carrier);
        k < profile.channels.count() && self.may_take(carrier, profile, profile.channels.freq(k))
    }

    /// A carrier, whose profile is this one, may stand at a frequency of its channels: the frequency is not banned for it, and
    /// where it is locked it is its frequency. So many channels are asked about with one look for the profile.
    pub fn may_take(&self, carrier: usize, profile: &Profile, khz: Khz) -> bool
        requires there { carrier < length self.now.carriers }
        requires own { query.profile_of self.now carrier ≡ Some profile.now }
        ensures { result ≡ query.may_take self.now carrier khz }
    {
        !self.banned_under(carrier, profile, khz) && may_stand(&self.carriers()[carrier], khz)
    }

    /// Two carriers may be together in a set of so many: their zones are the same or coupled, or coupled far where the set
    /// has two.
    pub fn meet(&self, size: usize, a: usize, b: usize) -> bool
        requires a { a < length self.now.carriers }
        requires b { b < length self.now.carriers }
        ensures { result ≡ query.meet_at size self.now.zones self.now.carriers a b }
    {
        meet_at(self.zones(), self.carriers(), size, a, b)
    }

    /// These carriers can stand in a set of so many that is together: some minute of the week has all of them on, and each
    /// two of them may be together in it.
    #[tactic(auto, unfolding(crate::specs::Query::are_joined))]
    pub fn joined(&self, size: usize, set: &[usize]) -> bool
        requires { All (λ c. c < length self.now.carriers) set.now }
        ensures { result ≡ query.are_joined self.now size set.now }
    {
        all_meet(self.zones(), self.carriers(), size, set) && share_minute(self.carriers(), set)
    }

    /// A set of carriers is together: some minute of the week has all of them on, and each two of them may be together in a
    /// set of so many.
    pub fn together(&self, set: &[usize]) -> bool
        requires { All (λ c. c < length self.now.carriers) set.now }
        ensures { result ≡ query.is_together self.now set.now }
    {
        self.joined(set.len(), set)
    }

    /// How far from 0 the form of a kind must stay for these carriers, one for each role, in kilohertz: what the profile of
    /// the victim asks, and for spacing the larger of what the two profiles ask.
    pub fn margin(&self, kind: Kind, roles: &[usize]) -> u32
        requires roles { length roles.now ≡ roles_of kind }
        requires carriers { All (λ c. c < length self.now.carriers) roles.now }
        ensures { result ≡ query.margin_of self.now kind roles.now }
    {
        let last = self.profile_of(roles[roles.len() - 1]).margin(kind);
        match kind {
            Kind::Spacing => last.max(self.profile_of(roles[0]).margin(kind)),
            _ => last,
        }
    }
}

fn may_stand(carrier: &Carrier, khz: Khz) -> bool
    ensures { result ≡ query.may_stand carrier.now khz }
{
    !carrier.locked || carrier.at == Some(khz)
}

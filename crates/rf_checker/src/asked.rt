//! What the checker asks of a show.

ghost use Rattle.std.specs.Prelude.{◌≡◌, ◌<◌, ◌≤◌, length, true, All};
ghost use Rattle.std.specs.List.Sorted.{IsStrictlyIncreasing};
ghost use Rattle.rf_terms.specs.Kinds.{roles_of};
ghost use Rattle.rf_log.specs.Case as case;
ghost use Rattle.rf_show.specs.Case.{case_of};
ghost use Rattle.rf_show.specs.Limits.{most_carriers};

use rf_show::{Show, case_is_asked};
use rf_terms::Kind;

/// How many carriers there are.
pub fn size(show: &Show) -> usize
    ensures value { result ≡ length (case_of show.now).carriers }
    ensures few { result ≤ most_carriers }
{
    case_is_asked();
    show.carriers().len()
}

/// How many channels a carrier has.
pub fn count(show: &Show, c: usize) -> u32
    requires { c < length (case_of show.now).carriers }
    ensures value { result ≡ case.count_of (case_of show.now) c }
    ensures rising { IsStrictlyIncreasing (case.carrier_of (case_of show.now) c).freqs }
    ensures few { result ≤ 65536 }
{
    case_is_asked();
    show.profile_of(c).channels.count()
}

/// The frequency of a carrier's channel; 0 where there is none.
pub fn freq(show: &Show, c: usize, k: u32) -> u32
    requires { c < length (case_of show.now).carriers }
    ensures value { result ≡ case.freq_of (case_of show.now) c k }
    ensures small { result ≤ 10000000 }
{
    case_is_asked();
    let channels = &show.profile_of(c).channels;
    if k < channels.count() {
        channels.freq(k).get()
    } else {
        0
    }
}

/// Whether a carrier's channel is allowed.
pub fn allows(show: &Show, c: usize, k: u32) -> bool
    requires { c < length (case_of show.now).carriers }
    ensures { result ≡ case.is_allowed (case_of show.now) c k }
{
    case_is_asked();
    show.allowed(c, k)
}

/// Whether two to four carriers are together.
pub fn are_together(show: &Show, roles: &[usize]) -> bool
    requires known { All (λ c. c < length (case_of show.now).carriers) roles.now }
    requires distinct { case.are_distinct roles.now ≡ true }
    requires some { 2 ≤ length roles.now }
    requires few { length roles.now ≤ 4 }
    ensures { result ≡ case.are_together (case_of show.now) roles.now }
{
    case_is_asked();
    show.together(roles)
}

/// The margin of a kind between these carriers.
pub fn margin(show: &Show, kind: Kind, roles: &[usize]) -> u32
    requires full { length roles.now ≡ roles_of kind }
    requires known { All (λ c. c < length (case_of show.now).carriers) roles.now }
    ensures { result ≡ case.margin_of (case_of show.now) kind roles.now }
{
    case_is_asked();
    show.margin(kind, roles)
}

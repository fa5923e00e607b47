//! Plans: whether a list of channels keeps all rules of a show.

ghost use Rattle.std.specs.Prelude.{◌≡◌, ◌<◌, ◌↔◌, IsTrue, length, map, slice_index, take};
ghost use Rattle.std.specs.List.{list_all, list_any};
ghost use Rattle.rf_terms.specs.Kinds.{kinds};
ghost use Rattle.rf_show.specs.Query as query;
ghost use Rattle.rf_rules.specs.Tuples.{upto};
ghost use Rattle.rf_rules.specs.Plans as plans;
ghost use Rattle.rf_rules.specs.Plans.{IsPlan};

use crate::frequencies::Frequencies;
use crate::lane::make_lanes;
use crate::search::Search;
use rf_base::Khz;
use rf_show::Show;
use rf_terms::{Kind, coefficients, kinds};

/// The list is a plan of the show: it gives each carrier the index of a channel that is allowed, such that no instance of
/// a kind is broken.
pub fn keeps(show: &Show, plan: &[u32]) -> bool
    ensures { IsTrue result ↔ IsPlan show.now plan.now }
{
    if plan.len() != show.carriers().len() {
        return false;
    }
    if !are_allowed(show, plan) {
        return false;
    }
    let ats = planned(show, plan);
    !has_broken_kind(show, &ats[..plan.len()])
}

/// Each carrier may stand at its channel.
fn are_allowed(show: &Show, plan: &[u32]) -> bool
    requires { length plan.now ≡ length show.now.carriers }
    ensures { result ≡ list_all (λ c. query.is_allowed show.now c (slice_index plan.now c)) (upto (length plan.now)) }
{
    for carrier in 0..plan.len() {
        if !show.allowed(carrier, plan[carrier]) {
            return false;
        }
    }
    true
}

/// The frequencies of a plan's channels, and what fills the room behind them.
fn planned(show: &Show, plan: &[u32]) -> Frequencies
    requires { length plan.now ≡ length show.now.carriers }
    ensures { take (length plan.now) result ≡ plans.planned show.now plan.now }
{
    let mut ats = [None; Show::MAX_CARRIERS];
    for carrier in 0..show.carriers().len() {
        ats[carrier] = channel_of(show, carrier, plan[carrier]);
    }
    ats
}

/// The frequency of a carrier's channel, if it is there.
fn channel_of(show: &Show, carrier: usize, k: u32) -> Option<Khz>
    requires { carrier < length show.now.carriers }
    ensures { result ≡ query.channel_of show.now carrier k }
{
    let channels = &show.profile_of(carrier).channels;
    if k >= channels.count() {
        return None;
    }
    Some(channels.freq(k))
}

/// A kind has a broken instance.
fn has_broken_kind(show: &Show, ats: &[Option<Khz>]) -> bool
    requires { length ats.now ≡ length show.now.carriers }
    ensures { result ≡ list_any (plans.has_broken show.now ats.now) kinds }
{
    kinds().iter().any(|kind| has_broken(show, ats, *kind))
}

fn has_broken(show: &Show, ats: &[Option<Khz>], kind: Kind) -> bool
    requires { length ats.now ≡ length show.now.carriers }
    ensures { result ≡ plans.has_broken show.now ats.now kind }
{
    let lanes = make_lanes(show, ats, kind);
    let search = Search {
        show,
        ats,
        kind,
        coefficients: coefficients(kind),
        lanes: &lanes[..ats.len()],
    };
    search.breaks([0; 4], 0, 0)
}

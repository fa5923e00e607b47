//! The search for what a newcomer would break: every instance that has it in a role, an interval of frequencies each.

ghost use Rattle.std.specs.Prelude.{◌≡◌, ◌<◌, ◌≤◌, ◌+◌, ◌-◌, ◌↔◌, ◌∷◌, ◌++◌, [], ◌≤ℤ◌, All, IfNone, IfSome, ℕ, ℤ, pos, insert, length, map, slice_index_or, take, false, true, unwrap_or, ◌&&◌};
ghost use Rattle.std.specs.List.{list_any};
ghost use Rattle.rf_terms.specs.Kinds.{kinds, roles_of};
ghost use Rattle.rf_terms.specs.Forms.{AreFrequencies};
ghost use Rattle.rf_terms.specs.Windows.{IsWindow};
ghost use Rattle.rf_show.specs.Limits.{most_carriers};
ghost use Rattle.rf_rules.specs.Instances as instances;
ghost use Rattle.rf_rules.specs.Instances.{khz_in, khzs_in};
ghost use Rattle.rf_rules.specs.Tuples.{upto};
ghost use Rattle.rf_spares.specs.Crowds.{IsCrowd, asked_at, needs_of};
ghost use Rattle.rf_spares.specs.Harms as spec;
ghost use Rattle.rf_spares.specs.Harms.{Site, harm, harms, harms_from, harms_kind, harms_role, margin_at, wants};
ghost use Rattle.rf_spares.specs.Markings.{Gains};
ghost use Rattle.rf_spares.specs.Searches.{IsSearch, site, site_of};

use crate::crowd::Crowd;
use crate::marks::Marks;
use rf_base::Khz;
use rf_show::Show;
use rf_terms::{Kind, kinds, order, roles, window};

/// The instances of a kind that have a newcomer in one role, and in the others carriers of a show, with newcomers behind
/// them, that have these frequencies; `must` names one that has to be among them.
#[derive(Clone, Copy)]
pub struct Search<'a> {
    pub crowd: &'a Crowd<'a>,
    pub ats: &'a [Option<Khz>],
    pub kind: Kind,
    pub role: usize,
    pub must: Option<usize>,
    pub own: u32,
    pub needs: [u32; Show::MAX_CARRIERS],
}

impl Search<'_> {
    /// Marks what a newcomer breaks in instances of which the first others are `others[..depth]`.
    pub fn extend(&self, others: [usize; 3], depth: usize, marks: &mut Marks)
        requires ready { IsSearch self.now }
        requires depth { depth + 1 ≤ roles_of self.now.kind }
        requires taken { All (λ c. c < length self.now.ats.now) (take depth others) }
        ensures { Gains marks.old marks.new (harms_from (site_of self.now) self.now.ats.now self.now.must self.now.kind self.now.role (take depth others) (roles_of self.now.kind - 1 - depth)) }
    {
        if depth + 1 == roles(self.kind) {
            self.judge(&others[..depth], marks);
            return;
        }
        let (from, to) = self.next(&others[..depth]);
        for carrier in from..to {
            let mut more = others;
            more[depth] = carrier;
            self.extend(more, depth + 1, marks);
        }
    }

    // The carriers that can be the next of the others: where only one is left to be named, the one that has to be.
    fn next(&self, t: &[usize]) -> (usize, usize)
        requires ready { IsSearch self.now }
        requires depth { length t.now + 1 < roles_of self.now.kind }
        ensures order { result.0 ≤ result.1 }
        ensures within { result.1 ≤ length self.now.ats.now }
        ensures below { (c : ℕ) → c < result.0 → length t.now + 2 ≡ roles_of self.now.kind × (wants self.now.must (t.now ++ c ∷ []) ≡ false) }
        ensures above { (c : ℕ) → result.1 ≤ c → c < length self.now.ats.now → length t.now + 2 ≡ roles_of self.now.kind × (wants self.now.must (t.now ++ c ∷ []) ≡ false) }
    {
        match self.must {
            Some(c) if t.len() + 2 == roles(self.kind) && !t.contains(&c) => (c, c + 1),
            _ => (0, self.ats.len()),
        }
    }

    // Marks what a newcomer breaks beside these others.
    fn judge(&self, u: &[usize], marks: &mut Marks)
        requires ready { IsSearch self.now }
        requires others { length u.now + 1 ≡ roles_of self.now.kind }
        requires taken { All (λ c. c < length self.now.ats.now) u.now }
        ensures { Gains marks.old marks.new (λ f. wants self.now.must u.now && harm (site_of self.now) self.now.ats.now self.now.kind self.now.role u.now f) }
    {
        if !self.is_wanted(u) {
            return;
        }
        if !self.admits(u) {
            return;
        }
        let others = self.frequencies(u);
        let near = window(self.kind, self.role, &others[..u.len()], self.margin(u));
        let (lo, hi) = ends(near);
        marks.mark(lo, hi);
    }

    fn is_wanted(&self, u: &[usize]) -> bool
        ensures { result ≡ wants self.now.must u.now }
    {
        match self.must {
            None => true,
            Some(c) => u.contains(&c),
        }
    }

    // With the newcomer behind all others in the show, they are an instance of carriers that have frequencies.
    #[tactic(auto, unfolding(crate::specs::Harms::admits))]
    fn admits(&self, u: &[usize]) -> bool
        requires ready { IsSearch self.now }
        requires others { length u.now + 1 ≡ roles_of self.now.kind }
        requires taken { All (λ c. c < length self.now.ats.now) u.now }
        ensures { result ≡ spec.admits (site_of self.now) self.now.ats.now self.now.kind self.now.role u.now }
    {
        are_assigned(self.ats, u)
            && (is_distinct(u)
                && is_in_order(self.kind, self.role, u)
                && self.crowd.joins(roles(self.kind), u))
    }

    // The frequencies of these carriers, and what fills the room behind them.
    fn frequencies(&self, u: &[usize]) -> [u32; 3]
        requires few { length u.now ≤ 3 }
        requires taken { All (λ c. c < length self.now.ats.now) u.now }
        ensures value { take (length u.now) result ≡ khzs_in self.now.ats.now u.now }
        ensures bound { AreFrequencies result }
    {
        let mut others = [0; 3];
        for i in 0..u.len() {
            others[i] = khz_of(at(self.ats, u[i]));
        }
        others
    }

    // How far from 0 the form must stay.
    fn margin(&self, u: &[usize]) -> u32
        requires ready { IsSearch self.now }
        requires others { length u.now + 1 ≡ roles_of self.now.kind }
        requires taken { All (λ c. c < length self.now.ats.now) u.now }
        ensures { result ≡ margin_at (site_of self.now) self.now.kind self.now.role u.now }
    {
        match self.kind {
            Kind::Spacing => self.needs[u[0]].max(self.own),
            _ if self.role == u.len() => self.own,
            _ => self.needs[u[u.len() - 1]],
        }
    }
}

/// A frequency in kilohertz, and 0 where there is none.
fn khz_of(at: Option<Khz>) -> u32
    ensures value { result ≡ unwrap_or at 0 }
    ensures bound { result ≤ 10000000 }
{
    at.map_or(0, |khz| khz.get())
}

/// The frequency of a carrier.
fn at(ats: &[Option<Khz>], carrier: usize) -> Option<Khz>
    requires { carrier < length ats.now }
    ensures { result ≡ instances.at_in ats.now carrier }
{
    ats[carrier]
}

/// The carriers have frequencies.
fn are_assigned(ats: &[Option<Khz>], u: &[usize]) -> bool
    requires { All (λ c. c < length ats.now) u.now }
    ensures { result ≡ instances.are_assigned ats.now u.now }
{
    u.iter().all(|c| at(ats, *c).is_some())
}

/// No carrier stands twice.
fn is_distinct(u: &[usize]) -> bool
    ensures { result ≡ instances.is_distinct u.now }
{
    match u {
        [] => true,
        [c, rest @ ..] => !rest.contains(c) && is_distinct(rest),
    }
}

/// The carriers and a newcomer behind them in one role stand in the order of the kind's roles.
fn is_in_order(kind: Kind, role: usize, u: &[usize]) -> bool
    requires role { role ≤ length u.now }
    requires others { length u.now + 1 ≡ roles_of kind }
    ensures { result ≡ instances.is_in_order kind (insert u.now role most_carriers) }
{
    match order(kind) {
        None => true,
        Some((i, j)) => carrier_in(u, role, i) < carrier_in(u, role, j),
    }
}

// The carrier in role `i`, where a newcomer behind all others stands in `role`.
fn carrier_in(u: &[usize], role: usize, i: usize) -> usize
    requires role { role ≤ length u.now }
    requires there { i ≤ length u.now }
    ensures { result ≡ slice_index_or (insert u.now role most_carriers) i 0 }
{
    if i == role {
        return Show::MAX_CARRIERS;
    }
    if i < role { u[i] } else { u[i - 1] }
}

/// The frequencies that are whole numbers from the first of two up to the second: the first, and the one behind the last.
fn ends(near: Option<(i64, i64)>) -> (u32, u32)
    ensures none { IfNone near (result.1 ≡ 0) }
    ensures some { IfSome near (λ w. ((f : ℕ) → f ≤ 10000000 → (w.0 ≤ℤ pos f) ↔ (result.0 ≤ f)) × ((f : ℕ) → f ≤ 10000000 → (pos f ≤ℤ w.1) ↔ (f < result.1))) }
{
    match near {
        None => (0, 0),
        Some((least, greatest)) => (first_from(least), behind(greatest)),
    }
}

// The number behind the highest frequency.
const END: i64 = 10_000_001;

// The first frequency that is not below a whole number.
fn first_from(least: i64) -> u32
    ensures { (f : ℕ) → f ≤ 10000000 → (least ≤ℤ pos f) ↔ (result ≤ f) }
{
    if least < 0 {
        return 0;
    }
    if least > END {
        return END as u32;
    }
    least as u32
}

// The first frequency that is above a whole number.
fn behind(greatest: i64) -> u32
    ensures { (f : ℕ) → f ≤ 10000000 → (pos f ≤ℤ greatest) ↔ (f < result) }
{
    if greatest < 0 {
        return 0;
    }
    if greatest >= END {
        return END as u32;
    }
    greatest as u32 + 1
}

/// Marks what a newcomer breaks beside carriers at these frequencies, in all instances or in those that have one of them.
pub fn mark_all<'x>(
    crowd: &'x Crowd<'x>,
    ats: &'x [Option<Khz>],
    must: Option<usize>,
    marks: &mut Marks,
)
    requires known { IsCrowd crowd.now }
    requires few { length ats.now ≤ most_carriers }
    requires must { IfSome must (λ c. c < length ats.now) }
    ensures { Gains marks.old marks.new (harms (site crowd.now) ats.now must) }
{
    for kind in kinds() {
        mark_kind(crowd, ats, *kind, must, marks);
    }
}

fn mark_kind<'x>(
    crowd: &'x Crowd<'x>,
    ats: &'x [Option<Khz>],
    kind: Kind,
    must: Option<usize>,
    marks: &mut Marks,
)
    requires known { IsCrowd crowd.now }
    requires few { length ats.now ≤ most_carriers }
    requires must { IfSome must (λ c. c < length ats.now) }
    ensures { Gains marks.old marks.new (λ f. harms_kind (site crowd.now) ats.now must f kind) }
{
    let own = crowd.own_needs(kind);
    let needs = crowd.needs(kind);
    for role in 0..roles(kind) {
        let search = Search {
            crowd,
            ats,
            kind,
            role,
            must,
            own,
            needs,
        };
        search.extend([0; 3], 0, marks);
    }
}

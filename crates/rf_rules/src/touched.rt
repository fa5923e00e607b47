//! The search for the broken instances that have a changed carrier.

ghost use Rattle.std.specs.Prelude.{◌≡◌, ◌+◌, ◌-◌, ◌<◌, ◌≤◌, ◌++◌, ◌∷◌, [], OnOk, All, ℕ, IfOk, length, take, false};
ghost use Rattle.rf_terms.specs.Kinds.{roles_of};
ghost use Rattle.rf_zones.specs.Masks.{has_bit};
ghost use Rattle.rf_show.specs.Limits.{most_carriers};
ghost use Rattle.rf_rules.specs.Companies.{IsCompany};
ghost use Rattle.rf_rules.specs.Instances.{AreCarriers};
ghost use Rattle.rf_rules.specs.Paired.{HasPairs};
ghost use Rattle.rf_rules.specs.Searches.{IsReady, partial_of};
ghost use Rattle.rf_rules.specs.Tallies.{Extends};
ghost use Rattle.rf_rules.specs.Touched.{IsTouch, touched_in, touched_of};
ghost use Rattle.rf_rules.specs.Touched as touched;
ghost use Rattle.rf_rules.specs.Tuples.{tuples, upto};

use crate::company::Company;
use crate::lane::{ask_nothing, make_lanes};
use crate::pairings::{Pairings, is_none};
use crate::search::Search;
use crate::tally::Tally;
use rf_base::{Khz, NoMemory};
use rf_terms::{Kind, coefficients, has_victim};
use rf_zones::Mask;
use rf_zones::mask::{all, has};
use std::alloc::Global;

/// The carriers that changed, all pairs of carriers, and the pairs of which one changed.
#[derive(Drop)]
pub struct Touch {
    pub mask: Mask,
    pub all: Pairings,
    pub some: Pairings,
}

/// Adds the broken instances of a kind that have a carrier of a mask.
pub fn add_touched(
    alloc: Global,
    company: &Company,
    ats: &[Option<Khz>],
    kind: Kind,
    mask: Mask,
    tally: &mut Tally,
) -> Result<(), NoMemory>
    requires known { IsCompany company.now }
    requires carriers { length ats.now ≡ length company.now.show.now.carriers }
    ensures { OnOk result (Extends tally.old tally.new (touched_of company.now.show.now ats.now kind mask)) }
{
    let show = company.show;
    let lanes = make_lanes(show, ats, kind);
    let lanes = &lanes[..ats.len()];
    if ask_nothing(lanes) {
        return Ok(());
    }
    let search = Search {
        show,
        ats,
        kind,
        coefficients: coefficients(kind),
        lanes,
    };
    let touch = Touch {
        mask,
        all: behind_one(alloc, &search)?,
        some: Pairings::touching(alloc, &search, mask)?,
    };
    search.extend_touched(company, &touch, [0; 4], 0, 0, tally)
}

/// The pairs of carriers that may go on behind a changed one. Where a kind has three roles, these are few enough to be tried.
fn behind_one(alloc: Global, search: &Search) -> Result<Pairings, NoMemory>
    requires ready { IsReady search.now }
    requires few { length search.now.ats.now ≤ most_carriers }
    ensures { IfOk result (λ pairings. HasPairs pairings search.now) }
{
    if search.coefficients.len() <= 3 {
        return Pairings::full(alloc, search);
    }
    Pairings::of(alloc, search)
}

impl Search<'_> {
    /// Adds the broken instances that have a changed carrier and whose first roles are taken by `roles[..depth]`.
    pub fn extend_touched(
        &self,
        company: &Company,
        touch: &Touch,
        roles: [usize; 4],
        depth: usize,
        product: i64,
        tally: &mut Tally,
    ) -> Result<(), NoMemory>
        requires ready { IsReady self.now }
        requires known { IsCompany company.now }
        requires same { company.now.show.now ≡ self.now.show.now }
        requires touch { IsTouch touch.now self.now }
        requires depth { depth < roles_of self.now.kind }
        requires product { product ≡ partial_of self.now (take depth roles) }
        requires taken { AreCarriers self.now.ats.now (take depth roles) }
        ensures { OnOk result (Extends tally.old tally.new (touched_in self.now touch.now.mask (take depth roles) (tuples (roles_of self.now.kind - depth) (upto (length self.now.ats.now))))) }
    {
        if depth + 1 == self.coefficients.len() {
            return self.valued_touched(company, touch.mask, roles, depth, product, tally);
        }
        let near = self.near_touched(touch, &roles[..depth], product);
        if is_none(near) {
            return Ok(());
        }
        for carrier in 0..self.ats.len() {
            if !has(near, carrier) {
                continue;
            }
            if self.is_hopeless(&roles[..depth], carrier) {
                continue;
            }
            let next = self.with(&roles[..depth], carrier, product);
            let mut more = roles;
            more[depth] = carrier;
            self.extend_touched(company, touch, more, depth + 1, next, tally)?;
        }
        Ok(())
    }

    /// Carriers in the next role, without which nothing is broken that has a changed carrier.
    fn near_touched(&self, touch: &Touch, t: &[usize], product: i64) -> Mask
        requires ready { IsReady self.now }
        requires touch { IsTouch touch.now self.now }
        requires few { length self.now.ats.now ≤ most_carriers }
        requires taken { AreCarriers self.now.ats.now t.now }
        requires open { length t.now + 1 < roles_of self.now.kind }
        requires product { product ≡ partial_of self.now t.now }
        ensures { (c : ℕ) → c < length self.now.ats.now → has_bit result c ≡ false →
            touched_in self.now touch.now.mask (t.now ++ c ∷ []) (tuples (roles_of self.now.kind - length t.now - 1) (upto (length self.now.ats.now))) ≡ [] }
    {
        if t.len() + 2 < self.coefficients.len() {
            return all();
        }
        if meets(touch.mask, t) {
            return touch.all.near(product);
        }
        touch.some.near(product)
    }

    /// Adds the broken instances that have a changed carrier and whose roles but for the last are taken by `roles[..depth]`,
    /// and counts the product of these.
    fn valued_touched(
        &self,
        company: &Company,
        mask: Mask,
        roles: [usize; 4],
        depth: usize,
        product: i64,
        tally: &mut Tally,
    ) -> Result<(), NoMemory>
        requires ready { IsReady self.now }
        requires known { IsCompany company.now }
        requires same { company.now.show.now ≡ self.now.show.now }
        requires depth { depth + 1 ≡ roles_of self.now.kind }
        requires product { product ≡ partial_of self.now (take depth roles) }
        requires taken { AreCarriers self.now.ats.now (take depth roles) }
        ensures { OnOk result (Extends tally.old tally.new (touched_in self.now mask (take depth roles) (tuples 1 (upto (length self.now.ats.now))))) }
    {
        tally.count_products(u64::from(has_victim(self.kind)));
        self.touched_victims(company, mask, roles, depth, product, tally)?;
        Ok(())
    }

    /// Adds the broken instances that have a changed carrier and whose roles but for the last are taken by `roles[..depth]`.
    fn touched_victims(
        &self,
        company: &Company,
        mask: Mask,
        roles: [usize; 4],
        depth: usize,
        product: i64,
        tally: &mut Tally,
    ) -> Result<(), NoMemory>
        requires ready { IsReady self.now }
        requires known { IsCompany company.now }
        requires same { company.now.show.now ≡ self.now.show.now }
        requires depth { depth + 1 ≡ roles_of self.now.kind }
        requires product { product ≡ partial_of self.now (take depth roles) }
        requires taken { AreCarriers self.now.ats.now (take depth roles) }
        ensures { OnOk result (Extends tally.old tally.new (touched_in self.now mask (take depth roles) (tuples 1 (upto (length self.now.ats.now))))) }
    {
        if meets(mask, &roles[..depth]) {
            return self.victims(company, roles, depth, product, tally);
        }
        self.changed_victims(company, mask, roles, depth, product, tally)
    }

    /// The same where no carrier of the first roles changed.
    fn changed_victims(
        &self,
        company: &Company,
        mask: Mask,
        roles: [usize; 4],
        depth: usize,
        product: i64,
        tally: &mut Tally,
    ) -> Result<(), NoMemory>
        requires ready { IsReady self.now }
        requires known { IsCompany company.now }
        requires same { company.now.show.now ≡ self.now.show.now }
        requires depth { depth + 1 ≡ roles_of self.now.kind }
        requires product { product ≡ partial_of self.now (take depth roles) }
        requires taken { AreCarriers self.now.ats.now (take depth roles) }
        requires others { touched.meets mask (take depth roles) ≡ false }
        ensures { OnOk result (Extends tally.old tally.new (touched_in self.now mask (take depth roles) (tuples 1 (upto (length self.now.ats.now))))) }
    {
        let t = &roles[..depth];
        if !self.is_open(t) {
            return Ok(());
        }
        let mates = company.mates(self.coefficients.len(), t);
        let floor = self.floor(roles[0]);
        for carrier in 0..self.ats.len() {
            if !has(mask, carrier) {
                continue;
            }
            let distance = self.distance(t, carrier, product);
            let needs = floor.max(self.lanes[carrier].needs);
            if distance >= u64::from(needs) {
                continue;
            }
            self.judge(t, carrier, mates, product, distance as u32, needs, tally)?;
        }
        Ok(())
    }
}

/// One of these carriers is in a mask.
fn meets(mask: Mask, t: &[usize]) -> bool
    requires { All (λ c. c < most_carriers) t.now }
    ensures { result ≡ touched.meets mask t.now }
{
    t.iter().any(|c| has(mask, *c))
}

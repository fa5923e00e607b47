//! The search for all broken instances of one kind, role by role.

ghost use Rattle.std.specs.Prelude.{◌≡◌, ◌+◌, ◌-◌, ◌<◌, ◌≤◌, ◌++◌, ◌∷◌, [], OnOk, length, take, ℕ, List, true, false, pos, is_some, replicate, slice_index_or, unsigned_abs, ◌*ℤ◌};
ghost use Rattle.std.specs.Bool.{OnTrue};
ghost use Rattle.std.specs.List.{list_all};
ghost use Rattle.rf_terms.specs.Kinds.{coefficients_of, roles_of};
ghost use Rattle.rf_rules.specs.Instances.{AreCarriers, are_assigned, at_in, distance_of, is_candidate, is_open, khz_in, ordered_roles};
ghost use Rattle.rf_rules.specs.Conflicts.{conflict_as};
ghost use Rattle.rf_rules.specs.Tallies.{Extends};
ghost use Rattle.rf_rules.specs.Searches.{IsReady, floor_of, broken_in, found, partial_of};
ghost use Rattle.rf_rules.specs.Companies.{IsCompany};
ghost use Rattle.rf_rules.specs.Paired.{HasPairs};
ghost use Rattle.rf_rules.specs.Tuples.{tuples, upto};
ghost use Rattle.rf_zones.specs.Masks.{has_bit};
ghost use Rattle.rf_show.specs.Limits.{most_carriers};
ghost use Rattle.rf_show.specs.Query.{are_joined, margin_of};

use crate::arithmetic::{sum, term};
use crate::company::Company;
use crate::conflict::Conflict;
use crate::frequencies::{at, khz_of};
use crate::instance::{ends_in_order, is_distinct, is_out_of_order};
use crate::lane::Lane;
use crate::pairings::{Pairings, is_none};
use crate::tally::Tally;
use rf_base::{Khz, NoMemory};
use rf_show::Show;
use rf_terms::{Kind, has_victim};
use rf_zones::Mask;
use rf_zones::mask::{all, has, none, with};

/// The search for the broken instances of one kind.
#[derive(Drop)]
pub struct Search<'a> {
    pub show: &'a Show,
    pub ats: &'a [Option<Khz>],
    pub kind: Kind,
    pub coefficients: &'static [i64],
    pub lanes: &'a [Lane],
}

impl Search<'_> {
    /// Adds the broken instances whose first roles are taken by `roles[..depth]`.
    pub fn extend(
        &self,
        company: &Company,
        pairings: &Pairings,
        roles: [usize; 4],
        depth: usize,
        product: i64,
        tally: &mut Tally,
    ) -> Result<(), NoMemory>
        requires ready { IsReady self.now }
        requires known { IsCompany company.now }
        requires same { company.now.show.now ≡ self.now.show.now }
        requires paired { HasPairs pairings.now self.now }
        requires depth { depth < roles_of self.now.kind }
        requires product { product ≡ partial_of self.now (take depth roles) }
        requires taken { AreCarriers self.now.ats.now (take depth roles) }
        ensures { OnOk result (Extends tally.old tally.new (found self.now (take depth roles) (roles_of self.now.kind - depth))) }
    {
        if depth + 1 == self.coefficients.len() {
            return self.valued_victims(company, roles, depth, product, tally);
        }
        let near = self.near(pairings, &roles[..depth], product);
        if is_none(near) {
            return Ok(());
        }
        for carrier in 0..self.ats.len() {
            if !has(near, carrier) {
                continue;
            }
            if self.is_hopeless(&roles[..depth], carrier) {
                continue;
            }
            let next = self.with(&roles[..depth], carrier, product);
            let mut more = roles;
            more[depth] = carrier;
            self.extend(company, pairings, more, depth + 1, next, tally)?;
        }
        Ok(())
    }

    /// Carriers in the next role, without which nothing is broken: all of them where more than two roles are open, and
    /// otherwise those with which some carrier in the last role may be near.
    pub fn near(&self, pairings: &Pairings, t: &[usize], product: i64) -> Mask
        requires ready { IsReady self.now }
        requires paired { HasPairs pairings.now self.now }
        requires few { length self.now.ats.now ≤ most_carriers }
        requires open { length t.now + 1 < roles_of self.now.kind }
        requires product { product ≡ partial_of self.now t.now }
        ensures { (c : ℕ) → c < length self.now.ats.now → has_bit result c ≡ false →
            broken_in self.now (t.now ++ c ∷ []) (tuples (roles_of self.now.kind - length t.now - 1) (upto (length self.now.ats.now))) ≡ [] }
    {
        if t.len() + 2 < self.coefficients.len() {
            return all();
        }
        pairings.near(product)
    }

    /// Adds the broken instances whose roles but for the last are taken by `roles[..depth]`, and counts the product of these.
    pub fn valued_victims(
        &self,
        company: &Company,
        roles: [usize; 4],
        depth: usize,
        product: i64,
        tally: &mut Tally,
    ) -> Result<(), NoMemory>
        requires ready { IsReady self.now }
        requires known { IsCompany company.now }
        requires same { company.now.show.now ≡ self.now.show.now }
        requires depth { depth + 1 ≡ roles_of self.now.kind }
        requires product { product ≡ partial_of self.now (take depth roles) }
        requires taken { AreCarriers self.now.ats.now (take depth roles) }
        ensures { OnOk result (Extends tally.old tally.new (found self.now (take depth roles) 1)) }
    {
        tally.count_products(u64::from(has_victim(self.kind)));
        self.victims(company, roles, depth, product, tally)?;
        Ok(())
    }

    /// Adds the broken instances whose roles but for the last are taken by `roles[..depth]`.
    pub fn victims(
        &self,
        company: &Company,
        roles: [usize; 4],
        depth: usize,
        product: i64,
        tally: &mut Tally,
    ) -> Result<(), NoMemory>
        requires ready { IsReady self.now }
        requires known { IsCompany company.now }
        requires same { company.now.show.now ≡ self.now.show.now }
        requires depth { depth + 1 ≡ roles_of self.now.kind }
        requires product { product ≡ partial_of self.now (take depth roles) }
        requires taken { AreCarriers self.now.ats.now (take depth roles) }
        ensures { OnOk result (Extends tally.old tally.new (found self.now (take depth roles) 1)) }
    {
        let t = &roles[..depth];
        if !self.is_open(t) {
            return Ok(());
        }
        let mates = company.mates(self.coefficients.len(), t);
        let floor = self.floor(roles[0]);
        for carrier in 0..self.ats.len() {
            let distance = self.distance(t, carrier, product);
            let needs = floor.max(self.lanes[carrier].needs);
            if distance >= u64::from(needs) {
                continue;
            }
            self.judge(t, carrier, mates, product, distance as u32, needs, tally)?;
        }
        Ok(())
    }

    /// Adds an instance that is near. `mates` has the carriers that can be together with those of the first roles.
    pub fn judge(
        &self,
        t: &[usize],
        last: usize,
        mates: Mask,
        product: i64,
        distance: u32,
        needs: u32,
        tally: &mut Tally,
    ) -> Result<(), NoMemory>
        requires roles { length t.now + 1 ≡ roles_of self.now.kind }
        requires carriers { length self.now.ats.now ≤ most_carriers }
        requires there { last < length self.now.ats.now }
        requires opened { is_open self.now.ats.now t.now ≡ true }
        requires mates { has_bit mates last ≡ are_joined self.now.show.now (roles_of self.now.kind) (t.now ++ last ∷ []) }
        requires product { product ≡ partial_of self.now t.now }
        requires distance { distance ≡ distance_of self.now.ats.now self.now.kind (t.now ++ last ∷ []) }
        requires needs { needs ≡ margin_of self.now.show.now self.now.kind (t.now ++ last ∷ []) }
        requires near { distance < needs }
        ensures { OnOk result (Extends tally.old tally.new (broken_in self.now (t.now ++ last ∷ []) ([] ∷ []))) }
    {
        if !self.joins(t, last, mates) {
            return Ok(());
        }
        if tally.is_full() {
            tally.count();
            return Ok(());
        }
        tally.add(self.conflict(t, last, product, distance, needs))
    }

    /// An instance of assigned carriers, as soon as those of the first roles are assigned and distinct.
    pub fn joins(&self, t: &[usize], last: usize, mates: Mask) -> bool
        requires roles { ordered_roles self.now.kind ≤ length t.now + 1 }
        requires carriers { length self.now.ats.now ≤ most_carriers }
        requires there { last < length self.now.ats.now }
        requires opened { is_open self.now.ats.now t.now ≡ true }
        requires mates { has_bit mates last ≡ are_joined self.now.show.now (roles_of self.now.kind) (t.now ++ last ∷ []) }
        ensures { result ≡ is_candidate self.now.show.now self.now.ats.now self.now.kind (t.now ++ last ∷ []) }
    {
        if at(self.ats, last).is_none() {
            return false;
        }
        if t.contains(&last) {
            return false;
        }
        if !ends_in_order(self.kind, t, last) {
            return false;
        }
        has(mates, last)
    }

    fn conflict(
        &self,
        t: &[usize],
        last: usize,
        product: i64,
        distance: u32,
        needs: u32,
    ) -> Conflict
        requires { length t.now + 1 ≡ roles_of self.now.kind }
        ensures { result ≡ conflict_as self.now.kind (t.now ++ last ∷ []) product distance needs }
    {
        let kind = self.kind;
        match kind {
            Kind::Spacing => Conflict::Spacing {
                a: t[0],
                b: last,
                distance,
                needs,
            },
            _ => Conflict::Product {
                kind,
                sources: padded(t),
                victim: last,
                product,
                distance,
                needs,
            },
        }
    }

    /// The form over the first roles, with the next role taken.
    pub fn with(&self, t: &[usize], carrier: usize, product: i64) -> i64
        requires ready { IsReady self.now }
        requires depth { length t.now < roles_of self.now.kind }
        requires carrier { carrier < length self.now.ats.now }
        requires product { product ≡ partial_of self.now t.now }
        ensures { result ≡ partial_of self.now (t.now ++ carrier ∷ []) }
    {
        sum(product, term(self.coefficients[t.len()], self.khz(carrier)))
    }

    /// How far from 0 the form is, with the last role taken.
    #[inline]
    pub fn distance(&self, t: &[usize], carrier: usize, product: i64) -> u64
        requires ready { IsReady self.now }
        requires depth { length t.now + 1 ≡ roles_of self.now.kind }
        requires carrier { carrier < length self.now.ats.now }
        requires product { product ≡ partial_of self.now t.now }
        ensures { result ≡ distance_of self.now.ats.now self.now.kind (t.now ++ carrier ∷ []) }
    {
        sum(product, self.lanes[carrier].term).unsigned_abs()
    }

    /// What the first role's carrier asks.
    pub fn floor(&self, carrier: usize) -> u32
        requires ready { IsReady self.now }
        requires carrier { carrier < length self.now.ats.now }
        ensures { result ≡ floor_of self.now.show.now self.now.kind carrier }
    {
        match self.kind {
            Kind::Spacing => self.lanes[carrier].needs,
            _ => 0,
        }
    }

    /// What a carrier adds in the last role but one.
    pub fn second_term(&self, carrier: usize) -> i64
        requires ready { IsReady self.now }
        requires carrier { carrier < length self.now.ats.now }
        ensures value { result ≡ slice_index_or (coefficients_of self.now.kind) (roles_of self.now.kind - 2) (pos 0) *ℤ pos (khz_in self.now.ats.now carrier) }
        ensures bound { unsigned_abs result ≤ 80000000 }
    {
        term(
            self.coefficients[self.coefficients.len() - 2],
            self.khz(carrier),
        )
    }

    fn khz(&self, carrier: usize) -> i64
        requires { carrier < length self.now.ats.now }
        ensures value { result ≡ pos (khz_in self.now.ats.now carrier) }
        ensures bound { unsigned_abs result ≤ 10000000 }
    {
        khz_of(at(self.ats, carrier))
    }

    /// The carriers that have frequencies.
    pub fn standing(&self) -> Mask
        requires { length self.now.ats.now ≤ most_carriers }
        ensures { (c : ℕ) → c < length self.now.ats.now → has_bit result c ≡ is_some (at_in self.now.ats.now c) }
    {
        let mut mask = none();
        for carrier in 0..self.ats.len() {
            if at(self.ats, carrier).is_none() {
                continue;
            }
            mask = with(mask, carrier);
        }
        mask
    }

    /// No instance of assigned carriers begins with these.
    pub fn is_hopeless(&self, t: &[usize], carrier: usize) -> bool
        requires { carrier < length self.now.ats.now }
        ensures { OnTrue result ((u : List ℕ) → is_candidate self.now.show.now self.now.ats.now self.now.kind (t.now ++ carrier ∷ u) ≡ false) }
    {
        if at(self.ats, carrier).is_none() {
            return true;
        }
        if t.contains(&carrier) {
            return true;
        }
        is_out_of_order(self.kind, t, carrier)
    }

    /// The carriers are assigned and distinct.
    pub fn is_open(&self, t: &[usize]) -> bool
        requires { AreCarriers self.now.ats.now t.now }
        ensures { result ≡ is_open self.now.ats.now t.now }
    {
        are_assigned(self.ats, t) && is_distinct(t)
    }
}

/// The carriers have frequencies.
pub fn are_assigned(ats: &[Option<Khz>], t: &[usize]) -> bool
    requires { AreCarriers ats.now t.now }
    ensures { result ≡ are_assigned ats.now t.now }
{
    t.iter().all(|c| at(ats, *c).is_some())
}

/// Three places, of which those that are left hold 0.
pub fn padded(t: &[usize]) -> [usize; 3]
    requires { length t.now ≤ 3 }
    ensures { result ≡ t.now ++ replicate (3 - length t.now) 0 }
{
    let mut sources = [0; 3];
    sources[..t.len()].copy_from_slice(t);
    sources
}

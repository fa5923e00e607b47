//! The search for the products of one kind, source by source.

ghost use Rattle.std.specs.Prelude.{◌≡◌, ◌+◌, ◌-◌, ◌<◌, ◌≤◌, ◌++◌, ◌∷◌, [], OnOk, length, take, true};
ghost use Rattle.rf_terms.specs.Kinds.{roles_of};
ghost use Rattle.rf_zones.specs.Masks.{has_bit};
ghost use Rattle.rf_show.specs.Limits.{most_carriers};
ghost use Rattle.rf_show.specs.Query.{are_joined};
ghost use Rattle.rf_rules.specs.Instances.{AreCarriers, is_open};
ghost use Rattle.rf_rules.specs.Searches.{IsReady, partial_of};
ghost use Rattle.rf_rules.specs.Products.{noted, noted_in};
ghost use Rattle.rf_rules.specs.Companies.{IsCompany};
ghost use Rattle.rf_rules.specs.Tuples.{tuples, upto};

use crate::company::Company;
use crate::product::{Product, is_between};
use crate::search::{Search, padded};
use rf_base::{Khz, NoMemory};
use rf_zones::Mask;

impl Search<'_> {
    /// Adds the products from `lo` to `hi` whose first sources are `roles[..depth]`.
    pub fn sources(
        &self,
        company: &Company,
        roles: [usize; 4],
        depth: usize,
        product: i64,
        lo: Khz,
        hi: Khz,
        found: &mut Vec<Product>,
    ) -> Result<(), NoMemory>
        requires ready { IsReady self.now }
        requires known { IsCompany company.now }
        requires same { company.now.show.now ≡ self.now.show.now }
        requires victim { 2 < roles_of self.now.kind }
        requires depth { depth + 1 < roles_of self.now.kind }
        requires product { product ≡ partial_of self.now (take depth roles) }
        requires taken { AreCarriers self.now.ats.now (take depth roles) }
        ensures { OnOk result (found.new.items ≡ found.old.items ++ noted self.now lo hi (take depth roles) (roles_of self.now.kind - 1 - depth)) }
    {
        if depth + 2 == self.coefficients.len() {
            return self.last_sources(company, roles, depth, product, lo, hi, found);
        }
        for carrier in 0..self.ats.len() {
            if self.is_hopeless(&roles[..depth], carrier) {
                continue;
            }
            let next = self.with(&roles[..depth], carrier, product);
            let mut more = roles;
            more[depth] = carrier;
            self.sources(company, more, depth + 1, next, lo, hi, found)?;
        }
        Ok(())
    }

    /// Adds the products from `lo` to `hi` whose sources but for the last are `roles[..depth]`.
    fn last_sources(
        &self,
        company: &Company,
        roles: [usize; 4],
        depth: usize,
        product: i64,
        lo: Khz,
        hi: Khz,
        found: &mut Vec<Product>,
    ) -> Result<(), NoMemory>
        requires ready { IsReady self.now }
        requires known { IsCompany company.now }
        requires same { company.now.show.now ≡ self.now.show.now }
        requires victim { 2 < roles_of self.now.kind }
        requires depth { depth + 2 ≡ roles_of self.now.kind }
        requires product { product ≡ partial_of self.now (take depth roles) }
        requires taken { AreCarriers self.now.ats.now (take depth roles) }
        ensures { OnOk result (found.new.items ≡ found.old.items ++ noted self.now lo hi (take depth roles) 1) }
    {
        let t = &roles[..depth];
        if !self.is_open(t) {
            return Ok(());
        }
        let mates = company.mates(self.coefficients.len(), t);
        for carrier in 0..self.ats.len() {
            self.note(roles, depth, carrier, mates, product, lo, hi, found)?;
        }
        Ok(())
    }

    /// Adds the product of these sources and a last one, if it lies from `lo` to `hi`. `mates` has the carriers that can be
    /// together with those sources.
    fn note(
        &self,
        roles: [usize; 4],
        depth: usize,
        last: usize,
        mates: Mask,
        product: i64,
        lo: Khz,
        hi: Khz,
        found: &mut Vec<Product>,
    ) -> Result<(), NoMemory>
        requires ready { IsReady self.now }
        requires few { length self.now.ats.now ≤ most_carriers }
        requires victim { 2 < roles_of self.now.kind }
        requires depth { depth + 2 ≡ roles_of self.now.kind }
        requires there { last < length self.now.ats.now }
        requires opened { is_open self.now.ats.now (take depth roles) ≡ true }
        requires mates { has_bit mates last ≡ are_joined self.now.show.now (roles_of self.now.kind) (take depth roles ++ last ∷ []) }
        requires product { product ≡ partial_of self.now (take depth roles) }
        ensures { OnOk result (found.new.items ≡ found.old.items ++ noted_in self.now lo hi (take depth roles ++ last ∷ []) ([] ∷ [])) }
    {
        if !self.joins(&roles[..depth], last, mates) {
            return Ok(());
        }
        let value = self.with(&roles[..depth], last, product);
        if !is_between(lo, hi, value) {
            return Ok(());
        }
        let mut all = roles;
        all[depth] = last;
        found.push(Product {
            value,
            kind: self.kind,
            sources: padded(&all[..depth + 1]),
        })?;
        Ok(())
    }
}

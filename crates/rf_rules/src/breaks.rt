//! The search for one broken instance, no matter which.

ghost use Rattle.std.specs.Prelude.{◌≡◌, ◌+◌, ◌-◌, ◌<◌, ◌≤◌, ◌++◌, ◌∷◌, [], length, take};
ghost use Rattle.rf_terms.specs.Kinds.{roles_of};
ghost use Rattle.rf_rules.specs.Instances as instances;
ghost use Rattle.rf_rules.specs.Instances.{AreCarriers, ordered_roles};
ghost use Rattle.rf_rules.specs.Searches.{IsReady, partial_of};
ghost use Rattle.rf_rules.specs.Plans.{breaks_from};

use crate::instance::{is_distinct, is_in_order};
use crate::search::{Search, are_assigned};
use rf_terms::roles;

impl Search<'_> {
    /// An instance is broken whose first roles are taken by `roles[..depth]`.
    pub fn breaks(&self, roles: [usize; 4], depth: usize, product: i64) -> bool
        requires ready { IsReady self.now }
        requires depth { depth < roles_of self.now.kind }
        requires product { product ≡ partial_of self.now (take depth roles) }
        requires taken { AreCarriers self.now.ats.now (take depth roles) }
        ensures { result ≡ breaks_from self.now.show.now self.now.ats.now self.now.kind (take depth roles) (roles_of self.now.kind - depth) }
    {
        if depth + 1 == self.coefficients.len() {
            return self.breaks_at_last(roles, depth, product);
        }
        for carrier in 0..self.ats.len() {
            if self.is_hopeless(&roles[..depth], carrier) {
                continue;
            }
            let next = self.with(&roles[..depth], carrier, product);
            let mut more = roles;
            more[depth] = carrier;
            if self.breaks(more, depth + 1, next) {
                return true;
            }
        }
        false
    }

    /// An instance is broken whose roles but for the last are taken by `roles[..depth]`.
    fn breaks_at_last(&self, roles: [usize; 4], depth: usize, product: i64) -> bool
        requires ready { IsReady self.now }
        requires depth { depth + 1 ≡ roles_of self.now.kind }
        requires product { product ≡ partial_of self.now (take depth roles) }
        requires taken { AreCarriers self.now.ats.now (take depth roles) }
        ensures { result ≡ breaks_from self.now.show.now self.now.ats.now self.now.kind (take depth roles) 1 }
    {
        let floor = self.floor(roles[0]);
        for carrier in 0..self.ats.len() {
            let distance = self.distance(&roles[..depth], carrier, product);
            let needs = floor.max(self.lanes[carrier].needs);
            if distance >= u64::from(needs) {
                continue;
            }
            let mut all = roles;
            all[depth] = carrier;
            if self.stands(&all[..depth + 1]) {
                return true;
            }
        }
        false
    }

    /// An instance of assigned carriers.
    #[tactic(auto, unfolding(crate::specs::Instances::is_candidate, crate::specs::Instances::is_instance))]
    fn stands(&self, t: &[usize]) -> bool
        requires ready { IsReady self.now }
        requires roles { ordered_roles self.now.kind ≤ length t.now }
        requires taken { AreCarriers self.now.ats.now t.now }
        ensures { result ≡ instances.is_candidate self.now.show.now self.now.ats.now self.now.kind t.now }
    {
        are_assigned(self.ats, t)
            && (is_distinct(t)
                && is_in_order(self.kind, t)
                && self.show.joined(roles(self.kind), t))
    }
}

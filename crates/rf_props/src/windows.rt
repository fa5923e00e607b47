//! What all carriers with one index each take from another: of the many windows that take out an index, a short nogood line
//! has the widest.

ghost use Rattle.std.specs.Prelude.{◌≡◌, ◌+◌, ◌<◌, ◌≤◌, All, length, take};
ghost use Rattle.rf_terms.specs.Kinds.{roles_of};
ghost use Rattle.rf_zones.specs.declared.mask.TheConstants.{MAX_CARRIERS};
ghost use Rattle.rf_log.specs.Case.{counts_of};
ghost use Rattle.rf_domain.specs.Sets.{sizes};
ghost use Rattle.rf_problem.specs.Problem.{case_of};

use crate::flags::{Flags, singles_of};
use crate::instance::is_instance;
use crate::range::indices_within;
use crate::roles::{padded, with_target};
use crate::round::reach;
use crate::single::singles_in;
use rf_domain::Domains;
use rf_log::Hint;
use rf_problem::Problem;
use rf_propagate::Furthest;
use rf_terms::{Kind, kinds_with, order, roles, window};

/// Offers the hints on a carrier of instances whose other carriers have one index each in these sets. Of kinds with three
/// sources only those that have the carrier as their victim: as a source it has windows that are no wider.
pub fn offer_windows(problem: &Problem, sets: &Domains, target: usize, offered: &mut Furthest)
    requires { sizes sets.now ≡ counts_of (case_of problem.now) }
{
    if target >= problem.carriers() {
        return;
    }
    let single = singles_of(problem, sets);
    offer_kinds(problem, sets, &single, target, kinds_with(2), 0, offered);
    offer_kinds(problem, sets, &single, target, kinds_with(3), 0, offered);
    offer_kinds(problem, sets, &single, target, kinds_with(4), 3, offered);
}

// The instances of these kinds that have the carrier in the role `least` or one behind it.
fn offer_kinds(
    problem: &Problem,
    sets: &Domains,
    single: &Flags,
    target: usize,
    kinds: &[Kind],
    least: usize,
    offered: &mut Furthest,
)
    requires sized { sizes sets.now ≡ counts_of (case_of problem.now) }
    requires target { target < length problem.now.carriers }
    requires few { length problem.now.carriers ≤ MAX_CARRIERS }
{
    for kind in kinds {
        if reach(problem, *kind) == 0 {
            continue;
        }
        for place in least..roles(*kind) {
            let windows = Windows {
                problem,
                sets,
                single,
                kind: *kind,
                place,
                target,
            };
            windows.extend([0; 4], 0, offered);
        }
    }
}

// The instances of a kind in which the target has the role `place`, and the others carriers with one index each.
#[derive(Drop)]
struct Windows<'a> {
    problem: &'a Problem,
    sets: &'a Domains,
    single: &'a Flags,
    kind: Kind,
    place: usize,
    target: usize,
}

impl Windows<'_> {
    // Offers what instances take from the target whose other roles begin with `others[..depth]`.
    fn extend(&self, others: [usize; 4], depth: usize, offered: &mut Furthest)
        requires sized { sizes self.now.sets.now ≡ counts_of (case_of self.now.problem.now) }
        requires target { self.now.target < length self.now.problem.now.carriers }
        requires few { length self.now.problem.now.carriers ≤ MAX_CARRIERS }
        requires place { self.now.place < roles_of self.now.kind }
        requires depth { depth < roles_of self.now.kind }
        requires known { All (λ c. c < length self.now.problem.now.carriers) (take depth others) }
    {
        if depth + 1 == roles(self.kind) {
            self.offer(&others[..depth], offered);
            return;
        }
        for carrier in 0..self.problem.carriers() {
            if !self.single[carrier] || self.is_out_of_order(&others[..depth], carrier) {
                continue;
            }
            let mut more = others;
            more[depth] = carrier;
            self.extend(more, depth + 1, offered);
        }
    }

    // Whether the carrier stands before one of these carriers that comes first in the kind's order, the target not being one of the two.
    fn is_out_of_order(&self, others: &[usize], carrier: usize) -> bool {
        match order(self.kind) {
            Some((first, second)) => {
                first < second
                    && second < self.place
                    && others.len() == second
                    && others[first] >= carrier
            }
            None => false,
        }
    }

    // Whether the band of the target has no frequency from `lo` to `hi` kilohertz.
    fn is_far(&self, lo: i64, hi: i64) -> bool
        requires { self.now.target < length self.now.problem.now.carriers }
    {
        let freqs = self.problem.freqs(self.target);
        match (freqs.first(), freqs.last()) {
            (Some(first), Some(last)) => hi < i64::from(*first) || i64::from(*last) < lo,
            _ => true,
        }
    }

    // Offers what the instance with these carriers in the other roles takes from the target.
    fn offer(&self, others: &[usize], offered: &mut Furthest)
        requires sized { sizes self.now.sets.now ≡ counts_of (case_of self.now.problem.now) }
        requires target { self.now.target < length self.now.problem.now.carriers }
        requires few { length self.now.problem.now.carriers ≤ MAX_CARRIERS }
        requires place { self.now.place < roles_of self.now.kind }
        requires others { length others.now + 1 ≡ roles_of self.now.kind }
        requires known { All (λ c. c < length self.now.problem.now.carriers) others.now }
    {
        let Some(freqs) = singles_in(self.problem, self.sets, others) else {
            return;
        };
        let freqs = &freqs[..others.len()];
        let all = with_target(others, self.place, self.target);
        let all = &all[..others.len() + 1];
        let margin = self.problem.margin(self.kind, all);
        let Some((lo, hi)) = window(self.kind, self.place, freqs, margin) else {
            return;
        };
        if self.is_far(lo, hi) {
            return;
        }
        let Some((lo, hi)) = indices_within(self.problem.freqs(self.target), lo, hi) else {
            return;
        };
        if !offered.is_further(lo, hi) || !is_instance(self.problem, self.kind, all) {
            return;
        }
        let hint = Hint::Rule {
            kind: self.kind,
            roles: padded(all),
            target: self.place as u32,
            lo,
            hi,
        };
        offered.offer(lo, hi, hint);
    }
}

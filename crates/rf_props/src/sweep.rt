//! The sweep through the instances of a kind for one target.

ghost use Rattle.std.specs.Prelude.{◌≡◌, ◌+◌, ◌<◌, ◌≤◌, All, List, Ok, OnOk, length, take, true};
ghost use Rattle.std.specs.List.{list_all};
ghost use Rattle.rf_terms.specs.Kinds.{roles_of};
ghost use Rattle.rf_terms.specs.Forms.{AreFrequencies};
ghost use Rattle.rf_log.specs.Case.{counts_of};
ghost use Rattle.rf_log.specs.Case as case;
ghost use Rattle.rf_log.specs.Hints.{Line};
ghost use Rattle.rf_zones.specs.declared.mask.TheConstants.{MAX_CARRIERS};
ghost use Rattle.rf_problem.specs.Problem.{case_of};
ghost use Rattle.rf_propagate.specs.Laws.{Extends};
ghost use Rattle.rf_props.specs.Flags.{is_flagged, AreFresh};
ghost use Rattle.rf_props.specs.Sweeps.{left, IsReach, IsReachOf, BreaksWithin, IsSwept, IsReady, AreFixed, HasNoneWithin};
ghost use Rattle.rf_props.specs.Live.{AreMarked};

use crate::flags::{Flags, are_flagged};
use crate::live::Live;
use crate::single::singles;
use crate::strike::{has_some_within, strike};
use rf_base::NoMemory;
use rf_problem::Problem;
use rf_terms::{Kind, roles, window};
use rf_trail::Trail;

/// The instances of a kind in which one role is taken by the target, and the others by carriers with one index each, not all of
/// them known. No carrier asks more than `reach` kilohertz of the kind.
#[derive(Drop)]
pub struct Sweep<'a> {
    pub problem: &'a Problem,
    pub kind: Kind,
    pub place: usize,
    pub reach: u32,
    /// The carriers with one index.
    pub single: &'a Flags,
    /// The carriers whose instances with each other are done.
    pub known: &'a Flags,
    /// The carriers with one index that are not known.
    pub fresh: &'a [usize],
}

impl Sweep<'_> {
    /// Removes what breaks an instance whose other roles begin with `others[..depth]`. `NoMemory` where no memory is found.
    pub fn extend(
        &self,
        others: [usize; 4],
        depth: usize,
        trail: &mut Trail,
        live: &mut Live,
    ) -> Result<(), NoMemory>
        requires counts { trail.old.counts ≡ counts_of (case_of self.now.problem.now) }
        requires live { AreMarked (case_of self.now.problem.now) (left trail.old) live.old }
        requires place { self.now.place < roles_of self.now.kind }
        requires reach { IsReach (case_of self.now.problem.now) self.now.kind self.now.reach }
        requires ready { IsReady (case_of self.now.problem.now) (left trail.old) self.now.single.now self.now.known.now self.now.kind self.now.place }
        requires fresh { AreFresh (length self.now.problem.now.carriers) self.now.single.now self.now.known.now self.now.fresh.now }
        requires depth { depth < roles_of self.now.kind }
        requires known { All (λ c. c < length self.now.problem.now.carriers) (take depth others) }
        ensures counts { trail.new.counts ≡ trail.old.counts }
        ensures sound { (lines : List Line) → Extends (case_of self.now.problem.now) lines trail.old.entries trail.new.entries }
        ensures live { OnOk result (AreMarked (case_of self.now.problem.now) (left trail.new) live.new) }
        ensures swept { OnOk result (IsSwept (case_of self.now.problem.now) (left trail.new) self.now.single.now self.now.kind self.now.place (take depth others)) }
    {
        if depth + 1 == roles(self.kind) {
            return self.strike_all(&others[..depth], trail, live);
        }
        let count = self.problem.carriers();
        if depth + 2 == roles(self.kind) && are_flagged(self.known, &others[..depth]) {
            return self.complete(others, depth, trail, live);
        }
        for carrier in 0..count {
            if !self.single[carrier] {
                continue;
            }
            if is_among(&others[..depth], carrier) {
                continue;
            }
            let mut more = others;
            more[depth] = carrier;
            self.extend(more, depth + 1, trail, live)?;
        }
        Ok(())
    }

    // Removes what breaks an instance whose other roles but one are taken by `others[..depth]`, which are known: what is not done
    // has a fresh carrier in the last.
    fn complete(
        &self,
        others: [usize; 4],
        depth: usize,
        trail: &mut Trail,
        live: &mut Live,
    ) -> Result<(), NoMemory>
        requires counts { trail.old.counts ≡ counts_of (case_of self.now.problem.now) }
        requires live { AreMarked (case_of self.now.problem.now) (left trail.old) live.old }
        requires place { self.now.place < roles_of self.now.kind }
        requires reach { IsReach (case_of self.now.problem.now) self.now.kind self.now.reach }
        requires ready { IsReady (case_of self.now.problem.now) (left trail.old) self.now.single.now self.now.known.now self.now.kind self.now.place }
        requires fresh { AreFresh (length self.now.problem.now.carriers) self.now.single.now self.now.known.now self.now.fresh.now }
        requires depth { depth ≤ 2 }
        requires last { depth + 2 ≡ roles_of self.now.kind }
        requires carriers { All (λ c. c < length self.now.problem.now.carriers) (take depth others) }
        requires done { list_all (is_flagged self.now.known.now) (take depth others) ≡ true }
        ensures counts { trail.new.counts ≡ trail.old.counts }
        ensures sound { (lines : List Line) → Extends (case_of self.now.problem.now) lines trail.old.entries trail.new.entries }
        ensures live { OnOk result (AreMarked (case_of self.now.problem.now) (left trail.new) live.new) }
        ensures swept { OnOk result (IsSwept (case_of self.now.problem.now) (left trail.new) self.now.single.now self.now.kind self.now.place (take depth others)) }
    {
        for carrier in self.fresh {
            if is_among(&others[..depth], *carrier) {
                continue;
            }
            let mut more = others;
            more[depth] = *carrier;
            self.strike_all(&more[..depth + 1], trail, live)?;
        }
        Ok(())
    }

    // Removes what breaks an instance with these carriers in the other roles, unless what breaks it is gone already.
    fn strike_all(
        &self,
        others: &[usize],
        trail: &mut Trail,
        live: &mut Live,
    ) -> Result<(), NoMemory>
        requires counts { trail.old.counts ≡ counts_of (case_of self.now.problem.now) }
        requires live { AreMarked (case_of self.now.problem.now) (left trail.old) live.old }
        requires place { self.now.place < roles_of self.now.kind }
        requires reach { IsReach (case_of self.now.problem.now) self.now.kind self.now.reach }
        requires others { length others.now + 1 ≡ roles_of self.now.kind }
        requires known { All (λ c. c < length self.now.problem.now.carriers) others.now }
        ensures counts { trail.new.counts ≡ trail.old.counts }
        ensures sound { (lines : List Line) → Extends (case_of self.now.problem.now) lines trail.old.entries trail.new.entries }
        ensures live { OnOk result (AreMarked (case_of self.now.problem.now) (left trail.new) live.new) }
        ensures swept { OnOk result (IsSwept (case_of self.now.problem.now) (left trail.new) self.now.single.now self.now.kind self.now.place others.now) }
    {
        let freqs = match singles(self.problem, trail, others) {
            Some(freqs) => freqs,
            None => return Ok(()),
        };
        let freqs = &freqs[..others.len()];
        let (lo, hi) = match window(self.kind, self.place, freqs, self.reach_of(others)) {
            Some(range) => range,
            None => return Ok(()),
        };
        if live.is_far(lo, hi) {
            return Ok(());
        }
        if self.strike_within(others, freqs, lo, hi, trail)? {
            live.unmark(lo, hi);
        }
        Ok(())
    }

    // The most that an instance with these carriers in the other roles asks. The victim's profile tells it where the victim is
    // one of them.
    fn reach_of(&self, others: &[usize]) -> u32
        requires place { self.now.place < roles_of self.now.kind }
        requires reach { IsReach (case_of self.now.problem.now) self.now.kind self.now.reach }
        requires others { length others.now + 1 ≡ roles_of self.now.kind }
        requires known { All (λ c. c < length self.now.problem.now.carriers) others.now }
        ensures { IsReachOf (case_of self.now.problem.now) self.now.kind self.now.place others.now result }
    {
        if self.place == others.len() {
            return self.reach;
        }
        match self.kind {
            Kind::Spacing => self.reach,
            _ => self.problem.asked(self.kind, others[others.len() - 1]),
        }
    }

    // Removes what breaks an instance with these carriers, which have these frequencies, in the other roles. All that does lies
    // from `lo` to `hi` kilohertz. Whether nothing is left there.
    fn strike_within(
        &self,
        others: &[usize],
        freqs: &[u32],
        lo: i64,
        hi: i64,
        trail: &mut Trail,
    ) -> Result<bool, NoMemory>
        requires counts { trail.old.counts ≡ counts_of (case_of self.now.problem.now) }
        requires place { self.now.place < roles_of self.now.kind }
        requires others { length others.now + 1 ≡ roles_of self.now.kind }
        requires known { All (λ c. c < length self.now.problem.now.carriers) others.now }
        requires small { AreFrequencies freqs.now }
        requires fixed { AreFixed (case_of self.now.problem.now) (left trail.old) others.now freqs.now }
        requires within { BreaksWithin (case_of self.now.problem.now) self.now.kind self.now.place others.now freqs.now lo hi }
        ensures counts { trail.new.counts ≡ trail.old.counts }
        ensures sound { (lines : List Line) → Extends (case_of self.now.problem.now) lines trail.old.entries trail.new.entries }
        ensures swept { OnOk result (IsSwept (case_of self.now.problem.now) (left trail.new) self.now.single.now self.now.kind self.now.place others.now) }
        ensures none { result ≡ Ok true → HasNoneWithin (case_of self.now.problem.now) (left trail.new) lo hi }
    {
        let mut none = true;
        let mut near = 0;
        for target in 0..self.problem.carriers() {
            if !has_some_within(self.problem, trail, target, lo, hi, &mut near) {
                continue;
            }
            strike(
                self.problem,
                self.kind,
                self.place,
                others,
                freqs,
                target,
                trail,
            )?;
            none = none && !has_some_within(self.problem, trail, target, lo, hi, &mut near);
        }
        Ok(none)
    }
}

// Whether a carrier is one of these.
fn is_among(carriers: &[usize], carrier: usize) -> bool
    ensures { result ≡ case.is_among carriers.now carrier }
{
    carriers.contains(&carrier)
}

//! Problems: how they are made, carrier by carrier, and what is asked of them.

ghost use Rattle.std.specs.Prelude.{◌≡◌, ◌<◌, ◌≤◌, All, [], length, IsTrue, OnOk, OnErr};
ghost use Rattle.std.specs.List.Sorted.{IsStrictlyIncreasing};
ghost use Rattle.rf_terms.specs.Forms.{AreFrequencies};
ghost use Rattle.rf_terms.specs.Kinds.{roles_of};
ghost use Rattle.rf_terms.specs.declared.kind.Kind.TheVariants as kind_of;
ghost use Rattle.rf_terms.specs.declared.kind.TheConstants.{MARGINS};
ghost use Rattle.rf_zones.specs.declared.mask.TheConstants.{MAX_CARRIERS};
ghost use Rattle.rf_log.specs.Case.{Case, count_of, counts_of, freq_of, is_allowed, asked_by, margin_of, are_distinct, are_together};
ghost use Rattle.rf_log.specs.Case as case;
ghost use Rattle.rf_problem.specs.declared.limits.TheConstants.{MAX_CHANNELS, MAX_WIDTH};
ghost use Rattle.rf_problem.specs.Problem.{with_carrier, case_of, members_of};

use crate::carrier::Carrier;
use crate::members::members;
use crate::together::{all_meet, share_slice};
use rf_base::{Items, NoMemory};
use rf_log::sets_are_tested;
use rf_terms::{Kind, MARGINS};
use rf_zones::Mask;
use std::alloc::Global;
use std::marker::Model;

/// What a solver works on. Carriers are numbered from 0, and the channels of a carrier by its rising frequencies.
#[derive(Drop)]
pub struct Problem {
    slices: Items<Mask>,
    carriers: Vec<Carrier>,
}

impl Model for Problem {
    ghost use Rattle.rf_problem.specs.Problem.{ProblemData};

    ghost Value = { ProblemData };

    ghost use Rattle.rf_problem.specs.Kept.{IsProblem};

    ghost view = { λ p. record { slices = p.slices; carriers = p.carriers.items } };

    ghost invariant = { λ p. IsProblem (record { slices = p.slices; carriers = p.carriers.items }) };
}

impl Problem {
    /// No carrier yet. The slices are masks of the carriers that are on in a minute.
    pub fn new(alloc: Global, slices: Vec<Mask>) -> Problem
        ensures { result ≡ record { slices = slices.items; carriers = [] } }
    {
        Problem {
            slices: Items::from_vec(slices),
            carriers: Vec::new(alloc),
        }
    }

    /// Adds the next carrier: its frequencies in kilohertz, rising and at most `MAX_CHANNELS`, which of them are allowed, its
    /// spacing and margins, each at most `MAX_WIDTH`, and masks of the earlier carriers with which it may be together: `heard`
    /// in sets of three and four, `reach` in sets of two; other bits of the masks mean nothing. `NoMemory` where no memory is
    /// found, which leaves the problem unchanged.
    pub fn add(
        &mut self,
        freqs: Vec<u32>,
        allowed: Vec<bool>,
        spacing: u32,
        margins: &[u32],
        heard: Mask,
        reach: Mask,
    ) -> Result<(), NoMemory>
        requires room { length self.old.carriers < MAX_CARRIERS }
        requires rising { IsStrictlyIncreasing freqs.items }
        requires above { All (λ f. 1 ≤ f) freqs.items }
        requires below { AreFrequencies freqs.items }
        requires few { length freqs.items ≤ MAX_CHANNELS }
        requires flagged { length allowed.items ≡ length freqs.items }
        requires spaced { spacing ≤ MAX_WIDTH }
        requires whole { length margins.now ≡ MARGINS }
        requires narrow { All (λ m. m ≤ MAX_WIDTH) margins.now }
        ensures ok { OnOk result (self.new ≡ with_carrier self.old (record { freqs = freqs.items; allowed = allowed.items; spacing = spacing; margins = margins.now; heard = heard; reach = reach })) }
        ensures err { OnErr result (self.new ≡ self.old) }
    {
        let carrier = carrier_of(freqs, allowed, spacing, margins, heard, reach);
        self.carriers.push(carrier)?;
        Ok(())
    }

    /// How many carriers there are.
    pub fn carriers(&self) -> usize
        ensures counted { result ≡ length self.now.carriers }
        ensures value { result ≡ length (case_of self.now).carriers }
        ensures few { result ≤ MAX_CARRIERS }
    {
        self.carriers.len()
    }

    /// The frequencies of a carrier's channels in kilohertz, rising.
    pub fn freqs(&self, carrier: usize) -> &[u32]
        requires { carrier < length self.now.carriers }
        ensures value { result.now ≡ (case.carrier_of (case_of self.now) carrier).freqs }
        ensures rising { IsStrictlyIncreasing result.now }
        ensures below { AreFrequencies result.now }
        ensures few { length result.now ≤ MAX_CHANNELS }
    {
        self.carriers[carrier].freqs()
    }

    /// Which of a carrier's channels are allowed.
    pub fn flags(&self, carrier: usize) -> &[bool]
        requires { carrier < length self.now.carriers }
        ensures value { result.now ≡ (case.carrier_of (case_of self.now) carrier).allowed }
        ensures count { length result.now ≡ count_of (case_of self.now) carrier }
    {
        self.carriers[carrier].allowed()
    }

    /// How many channels a carrier has.
    pub fn count(&self, carrier: usize) -> u32
        requires { carrier < length self.now.carriers }
        ensures value { result ≡ count_of (case_of self.now) carrier }
        ensures few { result ≤ MAX_CHANNELS }
    {
        self.freqs(carrier).len() as u32
    }

    /// The frequency of a carrier's channel in kilohertz.
    pub fn freq(&self, carrier: usize, k: u32) -> u32
        requires carrier { carrier < length self.now.carriers }
        requires k { k < count_of (case_of self.now) carrier }
        ensures { result ≡ freq_of (case_of self.now) carrier k }
    {
        self.freqs(carrier)[k as usize]
    }

    /// Whether a carrier's channel is allowed.
    pub fn allowed(&self, carrier: usize, k: u32) -> bool
        requires carrier { carrier < length self.now.carriers }
        requires k { k < count_of (case_of self.now) carrier }
        ensures { result ≡ is_allowed (case_of self.now) carrier k }
    {
        self.flags(carrier)[k as usize]
    }

    /// What a carrier asks of the form of a kind, in kilohertz.
    pub fn asked(&self, kind: Kind, carrier: usize) -> u32
        requires { carrier < length self.now.carriers }
        ensures { result ≡ asked_by (case_of self.now) kind carrier }
    {
        self.carriers[carrier].asked(kind)
    }

    /// The margin of a kind between the carriers in its roles, as many as it has, in kilohertz.
    pub fn margin(&self, kind: Kind, roles: &[usize]) -> u32
        requires roles { length roles.now ≡ roles_of kind }
        requires in_range { All (λ c. c < length self.now.carriers) roles.now }
        ensures { result ≡ margin_of (case_of self.now) kind roles.now }
    {
        let last = self.asked(kind, roles[roles.len() - 1]);
        match kind {
            Kind::Spacing => self.asked(kind, roles[0]).max(last),
            _ => last,
        }
    }

    /// Whether the two to four carriers whose bits the mask has are together.
    pub fn together(&self, mask: Mask) -> bool
        requires two { 2 ≤ length (members_of (length self.now.carriers) mask) }
        requires four { length (members_of (length self.now.carriers) mask) ≤ 4 }
        ensures { result ≡ are_together (case_of self.now) (members_of (length self.now.carriers) mask) }
    {
        let (all, len) = members(mask, self.carriers());
        self.together_of(&all[..len])
    }

    /// Whether two to four distinct carriers are together.
    pub fn together_of(&self, set: &[usize]) -> bool
        requires in_range { All (λ c. c < length self.now.carriers) set.now }
        requires distinct { IsTrue (are_distinct set.now) }
        requires two { 2 ≤ length set.now }
        requires four { length set.now ≤ 4 }
        ensures { result ≡ are_together (case_of self.now) set.now }
    {
        sets_are_tested();
        share_slice(self.slices.as_slice(), set)
            && all_meet(set.len(), self.carriers.as_slice(), set)
    }
}

fn carrier_of(
    freqs: Vec<u32>,
    allowed: Vec<bool>,
    spacing: u32,
    margins: &[u32],
    heard: Mask,
    reach: Mask,
) -> Carrier
    requires rising { IsStrictlyIncreasing freqs.items }
    requires above { All (λ f. 1 ≤ f) freqs.items }
    requires below { AreFrequencies freqs.items }
    requires few { length freqs.items ≤ MAX_CHANNELS }
    requires flagged { length allowed.items ≡ length freqs.items }
    requires spaced { spacing ≤ MAX_WIDTH }
    requires whole { length margins.now ≡ MARGINS }
    requires narrow { All (λ m. m ≤ MAX_WIDTH) margins.now }
    ensures { result ≡ record { freqs = freqs.items; allowed = allowed.items; spacing = spacing; margins = margins.now; heard = heard; reach = reach } }
{
    let mut all_margins = [0; MARGINS];
    all_margins.copy_from_slice(margins);
    Carrier {
        freqs: Items::from_vec(freqs),
        allowed: Items::from_vec(allowed),
        spacing,
        margins: all_margins,
        heard,
        reach,
    }
}

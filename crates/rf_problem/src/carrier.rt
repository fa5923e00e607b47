//! A carrier as a solver sees it: frequencies, flags of those that are allowed, and what it asks.

ghost use Rattle.std.specs.Prelude.{◌≡◌, ◌<◌, ◌≤◌, length};
ghost use Rattle.std.specs.List.Sorted.{IsStrictlyIncreasing};
ghost use Rattle.rf_terms.specs.Forms.{AreFrequencies};
ghost use Rattle.rf_terms.specs.Kinds.{margin_of};
ghost use Rattle.rf_zones.specs.Masks.{has_bit};
ghost use Rattle.rf_zones.specs.declared.mask.TheConstants.{MAX_CARRIERS};
ghost use Rattle.rf_log.specs.Case.{asked};
ghost use Rattle.rf_problem.specs.declared.limits.TheConstants.{MAX_CHANNELS};
ghost use Rattle.rf_problem.specs.Problem.{carrier_of, mask_of};

use rf_base::Items;
use rf_terms::{Kind, MARGINS, asks, place};
use rf_zones::Mask;
use rf_zones::mask::has;
use std::marker::Model;

/// A carrier of a problem.
#[derive(Drop)]
pub struct Carrier {
    pub freqs: Items<u32>,
    pub allowed: Items<bool>,
    pub spacing: u32,
    pub margins: [u32; MARGINS],
    pub heard: Mask,
    pub reach: Mask,
}

impl Model for Carrier {
    ghost use Rattle.rf_problem.specs.Problem.{CarrierData};

    ghost Value = { CarrierData };

    ghost use Rattle.rf_problem.specs.Kept.{IsCarrier};

    ghost view = { λ c. record { freqs = c.freqs; allowed = c.allowed; spacing = c.spacing; margins = c.margins; heard = c.heard; reach = c.reach } };

    ghost invariant = { λ c. IsCarrier (record { freqs = c.freqs; allowed = c.allowed; spacing = c.spacing; margins = c.margins; heard = c.heard; reach = c.reach }) };
}

impl Carrier {
    /// Its frequencies in kilohertz, rising.
    pub fn freqs(&self) -> &[u32]
        ensures value { result.now ≡ self.now.freqs }
        ensures rising { IsStrictlyIncreasing result.now }
        ensures below { AreFrequencies result.now }
        ensures few { length result.now ≤ MAX_CHANNELS }
    {
        self.freqs.as_slice()
    }

    /// Which of them are allowed.
    pub fn allowed(&self) -> &[bool]
        ensures value { result.now ≡ self.now.allowed }
        ensures flagged { length result.now ≡ length self.now.freqs }
    {
        self.allowed.as_slice()
    }

    /// What it asks of the form of a kind, in kilohertz.
    pub fn asked(&self, kind: Kind) -> u32
        ensures { result ≡ asked (carrier_of self.now) (margin_of kind) }
    {
        match place(asks(kind)) {
            0 => self.spacing,
            place => self.margins[place - 1],
        }
    }

    /// Whether it and an earlier carrier may be together in a set of `size`.
    pub fn meets(&self, size: usize, earlier: usize) -> bool
        requires { earlier < MAX_CARRIERS }
        ensures { result ≡ has_bit (mask_of size self.now) earlier }
    {
        let mask = if size <= 2 { self.reach } else { self.heard };
        has(mask, earlier)
    }
}

//! The value of a kind's form at frequencies, and whether it is too near to 0.

ghost use Rattle.std.specs.Prelude.{◌≡◌, ◌<◌, ◌≤◌, ◌↔◌, pos, length, IsTrue, map, unsigned_abs};
ghost use Rattle.rf_terms.specs.Kinds.{AllSmall, roles_of};
ghost use Rattle.rf_terms.specs.Forms.{value_of, form, AreFrequencies, IsBroken};

use crate::kind::{Kind, coefficients};

/// The sum of the frequencies, each times its coefficient.
pub fn weighted(coefficients: &[i64], freqs: &[u32]) -> i64
    requires same { length coefficients.now ≡ length freqs.now }
    requires few { length coefficients.now ≤ 8 }
    requires small { AllSmall coefficients.now }
    requires freqs { AreFrequencies freqs.now }
    ensures value { result ≡ form coefficients.now (map pos freqs.now) }
    ensures bound { unsigned_abs result ≤ 640000000 }
{
    let mut sum = 0;
    for (i, coefficient) in coefficients.iter().enumerate() {
        sum += coefficient * i64::from(freqs[i]);
    }
    sum
}

/// A kind's form at frequencies in kHz, as many as it has roles, each at most 10,000,000.
pub fn value(kind: Kind, freqs: &[u32]) -> i64
    requires roles { length freqs.now ≡ roles_of kind }
    requires freqs { AreFrequencies freqs.now }
    ensures value { result ≡ value_of kind freqs.now }
    ensures bound { unsigned_abs result ≤ 640000000 }
{
    weighted(coefficients(kind), freqs)
}

/// A kind's form at frequencies in kHz, as many as it has roles, each at most 10,000,000, lies nearer to 0 than the
/// margin.
pub fn broken(kind: Kind, freqs: &[u32], margin: u32) -> bool
    requires roles { length freqs.now ≡ roles_of kind }
    requires freqs { AreFrequencies freqs.now }
    ensures { IsTrue result ↔ IsBroken kind freqs.now margin }
{
    value(kind, freqs).unsigned_abs() < u64::from(margin)
}

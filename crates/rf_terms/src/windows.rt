//! Windows: the frequencies at which one carrier breaks a rule while the others stand.

ghost use Rattle.std.specs.Prelude.{◌≡◌, ◌<◌, ◌≤◌, ◌+◌, length, unsigned_abs, ◌+ℤ◌, ◌*ℤ◌};
ghost use Rattle.rf_terms.specs.Kinds.{IsSmall, roles_of};
ghost use Rattle.rf_terms.specs.Forms.{AreFrequencies};
ghost use Rattle.rf_terms.specs.Windows.{IsWindow, Breaks};

use crate::form::weighted;
use crate::kind::{Kind, coefficients};

/// The whole numbers x at which `coefficient * x + rest` lies nearer to 0 than the margin, as their least and greatest.
fn near(coefficient: i64, rest: i64, margin: u32) -> Option<(i64, i64)>
    requires small { IsSmall coefficient }
    requires rest { unsigned_abs rest ≤ 1280000000 }
    ensures { IsWindow (λ x. unsigned_abs ((coefficient *ℤ x) +ℤ rest) < margin) result }
{
    let margin = i64::from(margin);
    let step = coefficient.abs();
    let centre = if coefficient < 0 { rest } else { -rest };
    let least = (centre - margin + step).div_euclid(step);
    let greatest = (centre + margin - 1).div_euclid(step);
    if least <= greatest {
        Some((least, greatest))
    } else {
        None
    }
}

/// The least and the greatest whole number that breaks a kind's form where it stands in one role and the other roles
/// have these frequencies, in order. Every whole number between them breaks it too. None exactly where none does.
///
/// The role is below `roles(kind)`; there is one frequency fewer than roles, each at most 10,000,000 kHz.
pub fn window(kind: Kind, role: usize, others: &[u32], margin: u32) -> Option<(i64, i64)>
    requires role { role < roles_of kind }
    requires others { length others.now + 1 ≡ roles_of kind }
    requires freqs { AreFrequencies others.now }
    ensures { IsWindow (Breaks kind role others.now margin) result }
{
    let multiples = coefficients(kind);
    let before = weighted(&multiples[..role], &others[..role]);
    let after = weighted(&multiples[role + 1..], &others[role..]);
    near(multiples[role], before + after, margin)
}

//! Two propagators as one.

ghost use Rattle.std.specs.Prelude.{◌++◌, ◌||◌};

use crate::outcome::Outcome;
use crate::theory::{Learns, Propagator, Theory};
use rf_base::NoMemory;
use rf_log::Cond;
use rf_trail::Trail;

/// Two propagators in turn, until the second removes nothing after the first was quiet. It has the kinds of both, asks
/// for bans where one of them does, fits where both fit, and holds what the second holds.
#[derive(Drop)]
pub struct Both<P, Q> {
    pub first: P,
    pub second: Q,
}

impl<T: Theory, P: Propagator<T>, Q: Propagator<T>> Propagator<T> for Both<P, Q> {
    ghost kinds = { λ s. P.kinds s.first ++ Q.kinds s.second };

    ghost bans = { λ s. P.bans s.first || Q.bans s.second };

    ghost held = { λ s. Q.held s.second };

    ghost fits = { λ s t. P.fits s.first t × Q.fits s.second t };

    fn settle(&mut self, theory: &T, trail: &mut Trail) -> Result<Outcome, NoMemory> {
        'rounds: loop {
            if let Outcome::Wiped(carrier) = self.first.settle(theory, trail)? {
                return Ok(Outcome::Wiped(carrier));
            }
            let before = trail.left();
            if let Outcome::Wiped(carrier) = self.second.settle(theory, trail)? {
                return Ok(Outcome::Wiped(carrier));
            }
            if trail.left() == before {
                return Ok(Outcome::Quiet);
            }
        }
    }

    ghost lasts = { λ s t u fit same more. (P.lasts s.first t u fit.0 same more, Q.lasts s.second t u fit.1 same more) };
}

impl<T: Theory, P: Propagator<T>, Q: Learns<T>> Learns<T> for Both<P, Q> {
    fn learn(&mut self, theory: &T, line: u32, conds: &[Cond]) -> Result<(), NoMemory> {
        self.second.learn(theory, line, conds)
    }
}

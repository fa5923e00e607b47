//! The lines that were learned, as a propagator.

ghost use Rattle.std.specs.Prelude.{◌≡◌, [], false};
ghost use Rattle.rf_nogoods.specs.Removals.{AreAmong};
ghost use Rattle.rf_nogoods.specs.Among.{among_last};

use crate::held_line::HeldLine;
use crate::sweep::sweep;
use rf_base::NoMemory;
use rf_log::Cond;
use rf_propagate::{Learns, Outcome, Propagator, Theory, outcome_of};
use rf_trail::Trail;
use std::alloc::Global;
use std::marker::Model;

/// The nogood lines that were learned. Contracts see the list.
#[derive(Drop)]
pub struct Nogoods {
    alloc: Global,
    lines: Vec<HeldLine>,
}

impl Model for Nogoods {
    ghost use Rattle.std.specs.Prelude.{List};
    ghost use Rattle.rf_log.specs.Hints.{Line};

    ghost Value = { List Line };

    ghost view = { λ n. n.lines.items };
}

impl Nogoods {
    /// No line yet.
    pub fn new(alloc: Global) -> Nogoods
        ensures { result ≡ [] }
    {
        Nogoods {
            alloc,
            lines: Vec::new(alloc),
        }
    }
}

impl<T: Theory> Propagator<T> for Nogoods {
    ghost kinds = { λ _. [] };

    ghost bans = { λ _. false };

    ghost held = { λ p. p };

    ghost fits = { λ p t. AreAmong p (T.lines t) };

    fn settle(&mut self, theory: &T, trail: &mut Trail) -> Result<Outcome, NoMemory> {
        'passes: loop {
            let before = trail.left();
            sweep(self.lines.as_mut_slice(), trail)?;
            if let Outcome::Wiped(carrier) = outcome_of(trail) {
                return Ok(Outcome::Wiped(carrier));
            }
            if trail.left() == before {
                return Ok(Outcome::Quiet);
            }
        }
    }

    ghost lasts = { λ p t u fit same more. among_last p (T.lines t) (T.lines u) fit more };
}

impl<T: Theory> Learns<T> for Nogoods {
    fn learn(&mut self, theory: &T, line: u32, conds: &[Cond]) -> Result<(), NoMemory> {
        let line = HeldLine::new(self.alloc, line, conds)?;
        self.lines.push(line)?;
        Ok(())
    }
}

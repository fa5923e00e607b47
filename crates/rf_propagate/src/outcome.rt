//! What a propagator answers when it is done.

ghost use Rattle.std.specs.Prelude.{◌≡◌, ℕ, ◌<◌, true, false, length};
ghost use Rattle.rf_domain.specs.Sets.{has};
ghost use Rattle.rf_log.specs.Case.{Case, counts_of};
ghost use Rattle.rf_log.specs.Relations.{IsLiving, IsEmptied};
ghost use Rattle.rf_trail.specs.Trace.{box_of};

use rf_trail::Trail;

/// What a propagator answers.
#[derive(Clone, Copy, PartialEq, Eq)]
pub enum Outcome {
    /// Each carrier has an index left, and the propagator finds nothing more to remove.
    Quiet,
    /// The carrier of this number has no index left.
    Wiped(usize),
}

/// The first carrier without an index, or `Quiet` where each has one.
pub fn outcome_of(trail: &Trail) -> Outcome
    ensures quiet { (case : Case) → trail.now.counts ≡ counts_of case → result ≡ Outcome.Quiet → IsLiving case (box_of trail.now) }
    ensures wiped { (case : Case) (c : ℕ) → trail.now.counts ≡ counts_of case → result ≡ Outcome.Wiped c → IsEmptied case (box_of trail.now) c }
{
    let domains = trail.domains();
    for carrier in 0..domains.carriers() {
        match domains.next(carrier, 0) {
            Some(_) => {}
            None => return Outcome::Wiped(carrier),
        }
    }
    Outcome::Quiet
}

//! What giving up locks does to a show.

ghost use Rattle.rf_tighter.specs.Locked.{AllLocksAreKept, FewerLocksKeepPlans, MoreLocksAreTighter};

use crate::laws::tighter_case_keeps_plans;
use rf_show::case_is_asked;

/// Where no lock is given up, the show stays as it is.
pub fn all_locks_are_kept()
    ensures { AllLocksAreKept }
{}

/// A show with more locks has the same channels as one with fewer, of which it allows no more, and asks the same of them.
pub fn more_locks_are_tighter()
    ensures { MoreLocksAreTighter }
{
    case_is_asked();
}

/// A plan of a show with more locks is a plan of the show with fewer.
pub fn fewer_locks_keep_plans()
    ensures { FewerLocksKeepPlans }
{
    more_locks_are_tighter();
    tighter_case_keeps_plans();
}

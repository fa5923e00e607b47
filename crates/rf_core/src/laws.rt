//! What the definitions come to.

ghost use Rattle.rf_core.specs.Answers.{BlockedCanBeWritten, LeastByInclusion};
ghost use Rattle.rf_core.specs.Enough.{EnoughIsNotSpent};

use rf_decide::plan_is_indexed;
use rf_log::closed_walk_has_no_plan;
use rf_search::budget_is_enough;
use rf_show::case_is_asked;
use rf_tighter::{all_locks_are_kept, fewer_locks_keep_plans, more_locks_are_tighter};

/// With the locks that are answered, and any more, there is no plan; where one of them is given up, there is one.
pub fn least_by_inclusion()
    ensures { LeastByInclusion }
{
    fewer_locks_keep_plans();
    closed_walk_has_no_plan();
}

/// A budget of at least the product, over all carriers, of the numbers of channels that are allowed when nothing is locked,
/// minus 1, is never used up.
pub fn enough_is_not_spent()
    ensures { EnoughIsNotSpent }
{
    case_is_asked();
    more_locks_are_tighter();
    budget_is_enough();
}

/// What is answered has a text.
pub fn blocked_can_be_written()
    ensures { BlockedCanBeWritten }
{
    case_is_asked();
    plan_is_indexed();
    all_locks_are_kept();
    more_locks_are_tighter();
}

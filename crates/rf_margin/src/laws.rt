//! Laws of what is answered.

ghost use Rattle.rf_margin.specs.Enough.{EnoughIsNotSpent};
ghost use Rattle.rf_margin.specs.Answers.{NothingWiderHasAPlan};
ghost use Rattle.rf_margin.specs.Texts.{WidenedCanBeWritten};

use rf_decide::plan_is_indexed;
use rf_log::closed_walk_has_no_plan;
use rf_search::budget_is_enough;
use rf_show::case_is_asked;
use rf_tighter::{raising_keeps_allowed, raising_keeps_plans};

/// No show that is wider than by the greatest number has a plan.
pub fn nothing_wider_has_a_plan()
    ensures { NothingWiderHasAPlan }
{
    raising_keeps_plans();
    closed_walk_has_no_plan();
}

/// A budget of at least the product of the numbers of allowed channels, minus 1, never ends in `Spent`.
pub fn enough_is_not_spent()
    ensures { EnoughIsNotSpent }
{
    raising_keeps_allowed();
    budget_is_enough();
}

/// What is answered has a text.
pub(crate) fn widened_can_be_written()
    ensures { WidenedCanBeWritten }
{
    plan_is_indexed();
    raising_keeps_allowed();
    case_is_asked();
}

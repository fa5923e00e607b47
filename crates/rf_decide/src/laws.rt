//! Laws of what is decided.

ghost use Rattle.rf_decide.specs.Texts.{PlanIsIndexed};

use rf_show::case_is_asked;

/// A plan of a show has the index of a channel for each carrier.
pub fn plan_is_indexed()
    ensures { PlanIsIndexed }
{
    case_is_asked();
}

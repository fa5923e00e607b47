//! Laws of plans: a plan is an edit that the show takes, in frequencies that edits have.

ghost use Rattle.rf_solving.specs.Placing.{PlanIsAdmitted, PlanIsInKhz};

use rf_show::case_is_asked;

/// A plan of a show's case is applied as one edit, which the show never refuses: it has a frequency for each carrier, and a
/// carrier that is locked stays where it is.
pub fn plan_is_admitted()
    ensures { PlanIsAdmitted }
{
    case_is_asked();
}

/// The frequencies of a plan are from 1 to 10,000,000 kHz, as those of an edit are.
pub fn plan_is_in_khz()
    ensures { PlanIsInKhz }
{
    case_is_asked();
}

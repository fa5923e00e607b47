//! Laws of plans, from one show to another.

ghost use Rattle.rf_tighter.specs.Tighter.{TighterKeepsPlans};
ghost use Rattle.rf_tighter.specs.Raised.{OneWiderKeepsPlans, RaisedByNone, RaisingKeepsAllowed, RaisingKeepsPlans};

use rf_show::case_is_asked;

/// A plan of a case is a plan of each case that asks no more.
pub fn tighter_case_keeps_plans()
    ensures { TighterKeepsPlans }
{}

/// Raising by nothing changes nothing.
pub fn raised_by_none()
    ensures { RaisedByNone }
{}

/// Raising doesn't change which channels are allowed.
pub fn raising_keeps_allowed()
    ensures { RaisingKeepsAllowed }
{
    case_is_asked();
}

/// A plan of a show that is raised by more is a plan of the show that is raised by less.
pub fn raising_keeps_plans()
    ensures { RaisingKeepsPlans }
{
    case_is_asked();
}

/// A plan of a show that is raised by one more is a plan of the show that is raised by one less.
pub fn one_wider_keeps_plans()
    ensures { OneWiderKeepsPlans }
{
    raising_keeps_plans();
}

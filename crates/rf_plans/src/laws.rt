//! Laws over the definitions.

ghost use Rattle.rf_plans.specs.Agreement.{InstancesAgree, PlansAgree};
ghost use Rattle.rf_plans.specs.Clear.{PlacedPlansAreClear, PlansAreClear};

use rf_show::case_is_asked;

/// Carriers of a show are an instance of a kind, as the analysis takes it, exactly where they are one of the show's case, as a
/// solver and a checker take it.
pub fn instances_agree()
    ensures { InstancesAgree }
{
    case_is_asked();
}

/// A list is a plan of a show exactly where it is one of the show's case.
pub fn plans_agree()
    ensures { PlansAgree }
{
    case_is_asked();
}

/// A show whose carriers all stand on the channels of a plan of its case is clear: no carrier is off its grid or banned, and no
/// instance is broken.
pub fn plans_are_clear()
    ensures { PlansAreClear }
{
    case_is_asked();
}

/// A show in which a plan was placed is clear, also where carriers were locked.
pub fn placed_plans_are_clear()
    ensures { PlacedPlansAreClear }
{
    case_is_asked();
}

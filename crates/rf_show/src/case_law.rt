//! The law that the case of a show asks what the show asks.

ghost use Rattle.rf_show.specs.Case.{CaseIsAsked};

use rf_log::sets_are_tested;

/// What is asked of the case of a show is what is asked of the show: its carriers, their channels, which of them are allowed,
/// the margins, and which carriers are together.
pub fn case_is_asked()
    ensures { CaseIsAsked }
{
    sets_are_tested();
}

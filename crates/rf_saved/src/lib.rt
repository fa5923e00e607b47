//! A search that is saved is accepted by the checker.
#![tactic(auto)]

ghost use Rattle.rf_saved.specs.Saved.{SavedSearchIsAccepted};

use rf_audit::started_is_honest;
use rf_log::closed_walk_has_no_plan;
use rf_readback::written_log_reads_back;

/// The text of a search of a show reads as a log, and the checker accepts it over the same show: its tree is closed exactly
/// where the search ended in `refuted`, and else open, with as many branchings as the log has branch lines. An audit finds all of
/// them honest.
pub fn saved_search_is_accepted()
    ensures { SavedSearchIsAccepted }
{
    started_is_honest();
    closed_walk_has_no_plan();
    written_log_reads_back();
}

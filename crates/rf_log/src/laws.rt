//! Laws of logs: what a closed walk tells, what a settled box lies within, and when sets are tested rightly.

ghost use Rattle.rf_log.specs.Laws.{ClosedHasNoPlan, SetsAreTested, SettledIsClosed};

/// Where the walk through a log closes the tree, the case has no plan, whoever made the log.
pub fn closed_walk_has_no_plan()
    ensures { ClosedHasNoPlan }
{}

/// A box of allowed indices that meet a path, without an empty set, from which nothing more can be removed, lies within
/// the closure of the path, which then has no empty set either.
pub fn settled_box_is_closed()
    ensures { SettledIsClosed }
{}

/// Where a test of carriers looks only at which carriers there are, and at how many, the set of two to four of them is among
/// those that pass exactly where they pass.
pub fn sets_are_tested()
    ensures { SetsAreTested }
{}

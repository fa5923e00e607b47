//! By what a log is judged.

ghost use Rattle.std.specs.Prelude.{IfOk};
ghost use Rattle.rf_session.specs.Checked.{judging_of};

use crate::finding::Finding;
use rf_audit::audit;
use rf_base::NoMemory;
use rf_checker::check;
use rf_log::Log;
use rf_show::Show;
use std::alloc::Global;

/// By what a log is judged over a show.
#[derive(Clone, Copy, PartialEq, Eq)]
pub enum Judge {
    /// By its walk: whether its tree is closed, and else its first line that is invalid.
    Checker,
    /// By its lines: the first one that is invalid or a dishonest branching.
    Auditor,
}

impl Judge {
    /// What is found in a log over a show.
    pub fn find(self, alloc: Global, show: &Show, log: &Log) -> Result<Finding, NoMemory>
        ensures { IfOk result (λ finding. judging_of self show.now log.now finding) }
    {
        match self {
            Judge::Checker => Ok(Finding::Judged(check(alloc, show, log)?)),
            Judge::Auditor => Ok(Finding::Audited(audit(alloc, show, log)?)),
        }
    }
}

//! Who decides a show, and what is decided.

ghost use Rattle.std.specs.Prelude.{◌≤◌, IfOk};
ghost use Rattle.rf_search.specs.declared.limits.TheConstants.{MAX_BUDGET};
ghost use Rattle.rf_show.specs.Show.{ShowData};
ghost use Rattle.rf_decide.specs.Decisions.{IsDecision};

use rf_base::{Items, NoMemory};
use rf_log::LogLine;
use rf_show::Show;

/// What was decided of a show.
#[derive(Drop)]
pub enum Decision {
    /// A plan of the show: the index of a channel for each carrier, in order.
    Plan(Items<u32>),
    /// There is no plan: the lines close the tree.
    Refuted(Items<LogLine>),
    /// The budget is used up, and neither was found.
    Spent(Items<LogLine>),
}

/// Whoever decides shows.
pub trait Decide {
    /// What a call with this show may make of it.
    ghost asked: { Self → ShowData → Self → Type 0 };

    /// Looks for a plan of a show with at most `budget` branchings, at most `MAX_BUDGET`. `NoMemory` where no memory is
    /// found.
    fn decide(&mut self, show: &Show, budget: u32) -> Result<Decision, NoMemory>
        requires { budget ≤ MAX_BUDGET }
        ensures decided { IfOk result (λ decision. IsDecision show.now budget decision) }
        ensures asked { asked self.old show.now self.new };
}

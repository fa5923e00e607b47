//! What a line asks of the show that searches of it tell.

ghost use Rattle.std.specs.Prelude.{◌≡◌, ◌≤◌, true, IfOk};
ghost use Rattle.rf_core.specs.Blocking.{Blocking};
ghost use Rattle.rf_margin.specs.Widened.{Widened};
ghost use Rattle.rf_search.specs.declared.limits.TheConstants.{MAX_BUDGET};
ghost use Rattle.rf_show.specs.Raised.{is_textual};
ghost use Rattle.rf_session.specs.Shows as spec;

use crate::reply::Reply;
use rf_base::{Items, NoMemory};
use rf_core::{blocked_can_be_written, least, why_text};
use rf_decide::Solver;
use rf_margin::{widen_text, widest};
use rf_show::Show;
use std::alloc::Global;

/// What a line asks of the show, with at most so many branchings of each search.
#[derive(Clone, Copy)]
pub enum Inquiry {
    /// How much wider all spacings and margins that aren't 0 can be.
    Widest { budget: u32 },
    /// Which locks block a plan.
    Locks { budget: u32 },
}

/// The reply to an inquiry into a show of which no spacing and no margin is above 100,000 kHz. `NoMemory` where no memory is found.
pub(crate) fn inquire(alloc: Global, show: &Show, inquiry: Inquiry) -> Result<Reply, NoMemory>
    requires budget { spec.budget_of inquiry ≤ MAX_BUDGET }
    requires textual { is_textual show.now ≡ true }
    ensures { IfOk result (spec.IsTold show.now inquiry) }
{
    let text = match inquiry {
        Inquiry::Widest { budget } => widened(alloc, show, budget)?,
        Inquiry::Locks { budget } => blocking(alloc, show, budget)?,
    };
    Ok(Reply::Text(Items::from_vec(text)))
}

fn widened(alloc: Global, show: &Show, budget: u32) -> Result<Vec<u8>, NoMemory>
    requires budget { budget ≤ MAX_BUDGET }
    requires textual { is_textual show.now ≡ true }
    ensures { IfOk result (λ text. Widened show.now budget text.items) }
{
    let answer = widest(alloc, show, budget, &mut Solver::new(alloc))?;
    widen_text(alloc, show, &answer)
}

fn blocking(alloc: Global, show: &Show, budget: u32) -> Result<Vec<u8>, NoMemory>
    requires { budget ≤ MAX_BUDGET }
    ensures { IfOk result (λ text. Blocking show.now budget text.items) }
{
    blocked_can_be_written();
    let answer = least(alloc, show, budget, &mut Solver::new(alloc))?;
    why_text(alloc, show, &answer)
}

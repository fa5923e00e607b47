//! From the case of a show to the problem that a solver works on.

ghost use Rattle.std.specs.Prelude.{◌≡◌, IfOk};
ghost use Rattle.rf_problem.specs.Problem as problem;
ghost use Rattle.rf_show.specs.Case.{case_of};

use crate::carrier::add_carrier;
use rf_base::NoMemory;
use rf_problem::Problem;
use rf_show::{Show, meeting_is_mutual};
use std::alloc::Global;

/// The problem of a show: its case is the case of the show. `NoMemory` where no memory is found.
pub fn problem_of(alloc: Global, show: &Show) -> Result<Problem, NoMemory>
    ensures { IfOk result (λ p. problem.case_of p ≡ case_of show.now) }
{
    meeting_is_mutual();
    let slices = show.slices(alloc)?;
    let masks = slices.masks().to_vec(alloc)?;
    let mut problem = Problem::new(alloc, masks);
    for carrier in 0..show.carriers().len() {
        add_carrier(alloc, &mut problem, show, carrier)?;
    }
    Ok(problem)
}

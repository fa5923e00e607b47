//! Whoever decides a show within a budget, and the texts of what is decided.
#![tactic(auto)]

mod copying;
mod decide;
mod laws;
mod log_memory;
mod names;
mod solver;
mod texts;
mod writable;

pub use decide::{Decide, Decision};
pub use laws::plan_is_indexed;
pub use rf_search::MAX_BUDGET;
pub use solver::Solver;
pub use texts::{add_log, add_number, add_plan};

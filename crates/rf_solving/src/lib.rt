//! What a search of a show comes to: its log, which is written line by line, its verdict, and the frequencies of a plan.
#![tactic(auto)]

mod log_writer;
mod names;
mod placing;
mod plan;
mod solving;

pub use placing::{plan_is_admitted, plan_is_in_khz};
pub use rf_search::SolveFault;
pub use solving::{Found, write_search};

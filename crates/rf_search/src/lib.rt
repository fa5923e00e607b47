//! The search: branchings and nogoods over a trail, with a log of every step.
#![tactic(auto)]

mod analysis;
mod answer;
mod choice;
mod closing;
mod handing;
mod hints;
mod laws;
mod lean;
mod level;
mod limits;
mod needed;
mod out;
mod problem;
mod refuting;
mod replay;
mod run;
mod search;
mod solving;
mod turn;

pub use answer::Answer;
pub use laws::{budget_is_enough, decided_is_not_spent};
pub use limits::{MAX_BUDGET, MAX_NUMBER};
pub use out::{LogFail, LogOut};
pub use problem::solve;
pub use solving::{SolveFault, solve_by};

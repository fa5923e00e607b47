//! The solver's form of a show.
#![tactic(auto)]

mod carrier;
mod problem;

pub use problem::problem_of;

//! A case in the form that the solver works on: channel frequencies, flags of those that are allowed, margins, and masks of
//! the carriers that are on together and of those that may be together.
#![tactic(auto)]

mod carrier;
mod limits;
mod members;
mod problem;
mod together;

pub use limits::{MAX_CHANNELS, MAX_WIDTH};
pub use problem::Problem;

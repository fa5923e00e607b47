//! Propagators: what they remove has a reason, and when they are quiet nothing more falls.
#![tactic(auto)]

mod both;
mod engine;
mod furthest;
mod line;
mod opening;
mod outcome;
mod removal;
mod theory;

pub use both::Both;
pub use engine::Engine;
pub use furthest::{Furthest, Reach};
pub use line::apply_line;
pub use opening::open_from;
pub use outcome::{Outcome, outcome_of};
pub use removal::remove_banned;
pub use theory::{Applies, Grows, Learns, Propagator, Theory};

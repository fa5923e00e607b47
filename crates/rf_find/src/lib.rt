//! Looks for a plan before a search begins, over the problem's form alone: it places the carriers greedily, and then lets them
//! push one another away. It takes a bounded number of steps. Nothing is promised of what it finds.
#![tactic(auto)]

mod board;
mod dive;
mod draws;
mod eject;
mod found;
mod grid;
mod joins;
mod limits;
mod looking;
mod marks;
mod pattern;
mod sample;
mod singer;
mod stamps;
mod world;

pub use found::{Advice, Found};
pub use limits::MAX_STEPS;
pub use looking::find;

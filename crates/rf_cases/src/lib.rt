//! Worked cases as text: how their lines are read, what a program is run on, and whether what came of it is what a case
//! says. The program itself stands outside.
#![tactic(auto)]

mod book;
mod case;
mod escape;
mod fault;
mod given;
mod report;
mod wanted;

pub use book::Book;
pub use fault::Fault;
pub use given::{Given, Limits, Named, Outcome, Program};

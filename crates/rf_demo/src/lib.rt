//! The script that a number makes: the lines that the command `demo` runs.
#![tactic(auto)]

mod generator;
mod line;
mod script;

pub use script::Script;

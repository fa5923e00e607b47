//! The analysis of a show, kept up as the show changes.
#![tactic(auto)]

mod changed;
mod compare;
mod table;
mod zones;

pub use table::Table;

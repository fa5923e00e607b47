//! Judges the log of a search over a show, whoever wrote the log.
#![tactic(auto)]

mod asked;
mod boxes;
mod carriers;
mod earlier;
mod hints;
mod line;
mod nogood;
mod rule;
mod walk;

pub use asked::{allows, are_together, count, freq, margin, size};
pub use rule::is_instance;
pub use walk::{check, grow, lines_of};

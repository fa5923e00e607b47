//! Spare channels: those on which a further carrier could be added to a show, and a set that can be added together.
#![tactic(auto)]

mod answer;
mod choice;
mod crowd;
mod exclusions;
mod field;
mod marks;
mod search;
mod text;

pub use answer::Spares;
pub use choice::{chosen_keep_the_analysis, spares};
pub use text::spares_text;

//! Nogood lines that were learned: where all conditions of a line but one hold, the indices that meet that one fall.
#![tactic(auto)]

mod held_line;
mod nogoods;
mod removal;
mod sweep;
mod watch;

pub use nogoods::Nogoods;

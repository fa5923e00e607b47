//! Which locks block a plan, none of which can be spared.
#![tactic(auto)]

mod answer;
mod laws;
mod locks;
mod sparing;
mod texts;

pub use answer::Blocked;
pub use laws::{blocked_can_be_written, enough_is_not_spent, least_by_inclusion};
pub use sparing::least;
pub use texts::why_text;

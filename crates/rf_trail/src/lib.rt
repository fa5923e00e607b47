//! The removals of a search, each with its reason, and the indices that they leave. What was removed last is undone at
//! the cost of what it removed.
#![tactic(auto)]

mod entry;
mod mark;
mod piece;
mod step;
mod trail;

pub use entry::Entry;
pub use mark::Mark;
pub use trail::Trail;

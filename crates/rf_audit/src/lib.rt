//! Audits the honesty of a log: whether each branching cuts what its path leaves into two parts that are not empty.
#![tactic(auto)]

mod answer;
mod closing;
mod follow;
mod laws;
mod left;
mod marks;
mod spread;
mod strike;
mod table;
mod window;

pub use answer::Audit;
pub use follow::audit;
pub use laws::{audited_is_one, started_is_honest};

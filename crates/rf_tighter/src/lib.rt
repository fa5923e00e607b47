//! Shows that ask no more than others: what is a plan of the one is a plan of the other.
#![tactic(auto)]

mod laws;
mod lock_laws;

pub use laws::{
    one_wider_keeps_plans, raised_by_none, raising_keeps_allowed, raising_keeps_plans,
    tighter_case_keeps_plans,
};
pub use lock_laws::{all_locks_are_kept, fewer_locks_keep_plans, more_locks_are_tighter};

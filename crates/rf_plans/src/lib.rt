//! What is said of a show and what is said of its case is one: one instance, one plan; and a plan that is placed leaves nothing
//! to report.
#![tactic(auto)]

mod laws;

pub use laws::{instances_agree, placed_plans_are_clear, plans_agree, plans_are_clear};

//! How much wider the spacings and margins of a show can be.
#![tactic(auto)]

mod answer;
mod bisection;
mod laws;
mod texts;

pub use answer::Widest;
pub use bisection::widest;
pub use laws::{enough_is_not_spent, nothing_wider_has_a_plan};
pub use texts::widen_text;

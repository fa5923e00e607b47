//! The propagators of the rules: what is not allowed, and what breaks a rule with carriers that have one channel left.
#![tactic(auto)]

mod apply;
mod bans;
mod engine;
mod flags;
mod instance;
mod lines;
mod live;
mod of_roles;
mod range;
mod rest;
mod roles;
mod round;
mod single;
mod strike;
mod sweep;
mod theory;
mod windows;

pub use bans::Bans;
pub use engine::{Rules, engine_of, engine_with, settle};
pub use of_roles::{OfRoles, Spacing, ThreeSource, TwoSource};
pub use theory::{ProblemTheory, trail_of};

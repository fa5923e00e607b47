//! The kinds of rules that carriers keep: the rule table, what a kind's form is at given frequencies, and where it is
//! broken.
#![tactic(auto)]

mod form;
mod kind;
mod laws;
mod windows;

pub use form::{broken, value};
pub use kind::{
    Kind, MARGINS, Margin, asks, coefficient, coefficients, has_victim, kinds, kinds_with, order,
    place, roles, text,
};
pub use laws::kinds_keep_their_laws;
pub use windows::window;

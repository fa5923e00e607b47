//! Sets of the indices of carriers, as bits.
#![tactic(auto)]

mod domains;
mod limits;
mod set;
mod words;

pub use domains::Domains;
pub use limits::{CARRIER_LIMIT, INDEX_LIMIT};

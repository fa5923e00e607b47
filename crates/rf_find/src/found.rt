//! What comes out of the look for a plan.

use rf_base::Items;

/// What is advised for a carrier.
#[derive(Clone, Copy, PartialEq, Eq)]
pub struct Advice {
    /// The channel that it has in the plan that was found.
    pub channel: Option<u32>,
    /// How often it was left out and had to push others away.
    pub tries: u32,
}

/// What was found: an advice for each carrier, and how many steps that took.
#[derive(Drop)]
pub struct Found {
    pub advice: Items<Advice>,
    pub steps: u64,
}

//! What is answered to the question for spare channels.

use rf_base::Items;

/// Channels of a profile on which a further carrier could be added.
#[derive(Drop)]
pub struct Spares {
    /// The numbers of all channels on which one could be added, in rising order.
    pub free: Items<u32>,
    /// The numbers of channels that can be added together, in rising order.
    pub taken: Items<u32>,
}

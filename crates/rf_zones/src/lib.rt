//! Zones and how they are coupled; masks of carriers; the times of a carrier within the week.
#![tactic(auto)]

mod coupling;
mod couplings;
pub mod mask;
mod slices;
mod timed;
mod times;
mod zone_names;
mod zones;

pub use coupling::Coupling;
pub use mask::{MAX_CARRIERS, Mask};
pub use slices::Slices;
pub use timed::{Timed, share_minute};
pub use times::Times;
pub use zone_names::MAX_ZONES;
pub use zones::{Zones, coupling_is_mutual};

//! Profiles of transmitters: the channels that a profile may use, and how far its transmitters stay from others.
#![tactic(auto)]

mod channels;
mod fault;
mod file;
mod profile;
mod range;
mod table;

pub use channels::{Channels, ChannelsFault};
pub use fault::{Field, ProfilesFault};
pub use file::read_profiles;
pub use profile::{Margins, Profile};
pub use range::Range;

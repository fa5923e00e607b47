//! How large the numbers of a problem may be.

/// The most channels of one carrier.
pub const MAX_CHANNELS: u32 = 65_536;

/// The largest spacing or margin in kilohertz.
pub const MAX_WIDTH: u32 = 1_000_000;

//! How many carriers and indices domains are made for.

/// The most carriers that domains are made for.
pub const CARRIER_LIMIT: usize = 128;

/// The most indices of one carrier.
pub const INDEX_LIMIT: u32 = 65_536;

//! One measured point of a scan.

use rf_base::Decimal;

/// A level at a frequency.
#[derive(Clone, Copy, PartialEq, Eq)]
pub struct Point {
    /// The frequency in millihertz, from 1,000,000 to 10,000,000,000,000.
    pub millihertz: u64,
    /// The level.
    pub level: Decimal,
}

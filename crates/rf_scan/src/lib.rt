//! Scan files: levels at frequencies, and the frequencies that are hot.
#![tactic(auto)]

mod fault;
mod field;
mod hot;
mod point;
mod scan;

pub use fault::ScanFault;
pub use hot::hot_points;
pub use point::Point;
pub use scan::read_scan;

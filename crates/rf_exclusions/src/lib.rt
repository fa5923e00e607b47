//! Exclusions: bans, sets of hot points of scans, and sets of numbers as intervals.
#![tactic(auto)]

mod ban;
mod hot_points;
mod scan_set;
mod span;
mod spans;

pub use ban::{Ban, touched_by_ban};
pub use hot_points::HotPoints;
pub use scan_set::{ScanSet, Sep, touched_by_scan};
pub use span::Span;
pub use spans::Spans;

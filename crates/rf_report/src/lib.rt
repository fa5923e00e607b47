//! The texts of what was found in a show: its conflicts, as lines and as rows, and its intermodulation products.
#![tactic(auto)]

mod csv_report;
mod line;
mod product_report;
mod report;

pub use csv_report::csv_text;
pub use product_report::products_text;
pub use report::report_text;

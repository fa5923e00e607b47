//! What can be wrong with a scan file.

use thiserror::Error;

/// Why a scan file gives no points.
#[derive(Debug, Drop, Error, PartialEq, Eq)]
pub enum ScanFault {
    /// No record begins with a number.
    #[error("no record begins with a number")]
    NoPoints,
    /// The first record, from the first that begins with a number on, that is no point. Records and fields count from 1;
    /// where both fields are wrong, the first is told.
    #[error("field {field} of record {number} is wrong")]
    BadRecord { number: u32, field: u32 },
    /// There is a point 200,001.
    #[error("there are more than 200,000 points")]
    Many,
    /// No memory was found.
    #[error("out of memory")]
    Memory,
}

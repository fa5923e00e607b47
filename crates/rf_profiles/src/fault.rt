//! What can be wrong with a file of profiles.

use thiserror::Error;

/// A field of a profile in a file, in the order in which they are judged.
#[derive(Clone, Copy, Debug, PartialEq, Eq)]
pub enum Field {
    /// The key is no name.
    Name,
    /// The value is no table.
    Table,
    /// There are no ranges, or they are no channels.
    Ranges,
    /// There is no spacing, or it is none.
    Spacing,
    /// The half width is none.
    Half,
    /// The margin of order 3 from two carriers is none.
    M2t3,
    /// The margin of order 3 from three carriers is none.
    M3t3,
    /// The margin of order 5 from two carriers is none.
    M2t5,
    /// The margin of order 5 from three carriers is none.
    M3t5,
    /// The margin of order 7 from two carriers is none.
    M2t7,
    /// There is a further key.
    Other,
}

/// Why a profile file gives no profiles.
#[derive(Debug, Drop, Error, PartialEq, Eq)]
pub enum ProfilesFault {
    /// The bytes are no TOML document.
    #[error("the file is no TOML document")]
    Toml,
    /// The first bad profile in key order, counted from 1, and its first bad field.
    #[error("profile {number} is wrong")]
    BadProfile { number: u32, field: Field },
    /// No memory was found.
    #[error("out of memory")]
    Memory,
}

//! Why the cases of a file can't be run on.

use std::alloc::{AllocError, AllocFailed};

/// Why the cases of a file can't be run on.
#[derive(Clone, Copy)]
pub enum Fault {
    /// A line isn't of the format; what is wrong with it.
    Line(&'static str),
    /// No memory was found.
    Memory,
}

impl From<AllocError> for Fault {
    fn from(_: AllocError) -> Fault {
        Fault::Memory
    }
}

impl<T: Drop> From<AllocFailed<T>> for Fault {
    fn from(_: AllocFailed<T>) -> Fault {
        Fault::Memory
    }
}

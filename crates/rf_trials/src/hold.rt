//! How a trial says which of its cases doesn't hold.
use rf_base::NoMemory;
use std::alloc::{AllocError, AllocFailed};
use std::test::Fail;

/// What doesn't hold.
#[derive(Clone, Copy)]
pub(crate) struct Broken(pub(crate) &'static str);

impl From<&'static str> for Broken {
    fn from(what: &'static str) -> Broken {
        Broken(what)
    }
}

impl From<NoMemory> for Broken {
    fn from(_: NoMemory) -> Broken {
        Broken("memory")
    }
}

impl From<AllocError> for Broken {
    fn from(_: AllocError) -> Broken {
        Broken("memory")
    }
}

impl<T: Drop> From<AllocFailed<T>> for Broken {
    fn from(_: AllocFailed<T>) -> Broken {
        Broken("memory")
    }
}

/// A case: whether it holds, and what it shows.
pub(crate) type Case = (bool, &'static str);

/// The first case that doesn't hold, if there is one.
pub(crate) fn hold(cases: &[Case]) -> Result<(), Broken> {
    for (holds, what) in cases {
        if !*holds {
            return Err(Broken(*what));
        }
    }
    Ok(())
}

/// Fails a test with what doesn't hold.
pub(crate) fn told(found: Result<(), Broken>) -> Result<(), Fail> {
    match found {
        Ok(()) => Ok(()),
        Err(Broken(what)) => Err(Fail::from(what)),
    }
}

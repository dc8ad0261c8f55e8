//! That there is no reason to tell.

use std::alloc::{AllocError, AllocFailed};

/// No reason is told: the line does not fit the words or the files, or a file cannot be read again, or memory is out.
#[derive(Clone, Copy, Debug, PartialEq, Eq)]
pub struct Unsaid;

impl From<AllocError> for Unsaid {
    fn from(_: AllocError) -> Unsaid {
        Unsaid
    }
}

impl<T: Drop> From<AllocFailed<T>> for Unsaid {
    fn from(_: AllocFailed<T>) -> Unsaid {
        Unsaid
    }
}

use std::alloc::{AllocError, AllocFailed};
use thiserror::Error;

/// Memory was wanted and none was left. It isn't a cause: a line that meets it isn't refused, and the
/// program ends.
#[derive(Clone, Copy, Debug, Error)]
#[error("out of memory")]
pub struct NoMemory;

impl From<AllocError> for NoMemory {
    fn from(_error: AllocError) -> NoMemory {
        NoMemory
    }
}

impl<T: Drop> From<AllocFailed<T>> for NoMemory {
    fn from(_error: AllocFailed<T>) -> NoMemory {
        NoMemory
    }
}

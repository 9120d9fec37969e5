use std::alloc::{AllocError, AllocFailed};

/// There is no memory left for what a call was to keep.
#[derive(Clone, Copy, PartialEq, Eq, Debug)]
pub struct NoMemory;

impl From<AllocError> for NoMemory {
    fn from(_failed: AllocError) -> NoMemory {
        NoMemory
    }
}

// For a list that hands back the item that it could not keep.
impl<T: Drop> From<AllocFailed<T>> for NoMemory {
    fn from(_failed: AllocFailed<T>) -> NoMemory {
        NoMemory
    }
}

//! Want of memory.

use std::alloc::{AllocError, AllocFailed};

/// There is no memory left for what a call was to keep.
#[derive(Clone, Copy, PartialEq, Eq, Debug)]
pub struct NoMemory;

impl From<AllocError> for NoMemory {
    fn from(_error: AllocError) -> NoMemory {
        NoMemory
    }
}

impl<T: Drop> From<AllocFailed<T>> for NoMemory {
    fn from(_failed: AllocFailed<T>) -> NoMemory {
        NoMemory
    }
}

impl From<additive_transform::NoMemory> for NoMemory {
    fn from(_error: additive_transform::NoMemory) -> NoMemory {
        NoMemory
    }
}

impl From<hash_tree::NoMemory> for NoMemory {
    fn from(_error: hash_tree::NoMemory) -> NoMemory {
        NoMemory
    }
}

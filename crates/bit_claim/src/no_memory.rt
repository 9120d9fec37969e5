//! Want of memory.

use std::alloc::AllocError;

/// There is no memory left for what a call was to keep.
#[derive(Clone, Copy, PartialEq, Eq, Debug)]
pub struct NoMemory;

impl From<AllocError> for NoMemory {
    fn from(_: AllocError) -> NoMemory {
        NoMemory
    }
}

impl From<cube_mle::NoMemory> for NoMemory {
    fn from(_: cube_mle::NoMemory) -> NoMemory {
        NoMemory
    }
}

impl From<packed_words::NoMemory> for NoMemory {
    fn from(_: packed_words::NoMemory) -> NoMemory {
        NoMemory
    }
}

impl From<ring_switch::NoMemory> for NoMemory {
    fn from(_: ring_switch::NoMemory) -> NoMemory {
        NoMemory
    }
}

impl From<sumcheck::NoMemory> for NoMemory {
    fn from(_: sumcheck::NoMemory) -> NoMemory {
        NoMemory
    }
}

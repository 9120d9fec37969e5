//! Want of memory.

ghost use Rattle.std.specs.Prelude.{◌≡◌};
ghost use Rattle.table_shape.specs.declared.size_stop.SizeStop.TheVariants as stop;

use std::alloc::AllocError;
use table_shape::SizeStop;

/// There is no memory left for what a call was to keep.
#[derive(Clone, Copy, PartialEq, Eq, Debug)]
pub struct NoMemory;

impl From<AllocError> for NoMemory {
    fn from(_: AllocError) -> NoMemory {
        NoMemory
    }
}

impl From<channel_products::NoMemory> for NoMemory {
    fn from(_: channel_products::NoMemory) -> NoMemory {
        NoMemory
    }
}

impl From<zerocheck::NoMemory> for NoMemory {
    fn from(_: zerocheck::NoMemory) -> NoMemory {
        NoMemory
    }
}

impl From<eval_reduce::NoMemory> for NoMemory {
    fn from(_: eval_reduce::NoMemory) -> NoMemory {
        NoMemory
    }
}

impl From<bit_claim::NoMemory> for NoMemory {
    fn from(_: bit_claim::NoMemory) -> NoMemory {
        NoMemory
    }
}

impl From<ring_switch::NoMemory> for NoMemory {
    fn from(_: ring_switch::NoMemory) -> NoMemory {
        NoMemory
    }
}

impl From<NoMemory> for SizeStop {
    ghost from_gives = { λ _ s. s ≡ stop.NoMemory };

    fn from(_failed: NoMemory) -> SizeStop {
        SizeStop::NoMemory
    }
}

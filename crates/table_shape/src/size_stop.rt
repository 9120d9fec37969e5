//! Why nothing is made for so many rows.

ghost use Rattle.std.specs.Prelude.{◌≡◌};
ghost use Rattle.table_shape.specs.declared.size_stop.SizeStop.TheVariants.{NoMemory};

use crate::no_memory::NoMemory as ShapeNoMemory;
use std::alloc::AllocError;

/// Why nothing is made for the columns of so many rows.
#[derive(Clone, Copy, Debug, PartialEq, Eq)]
pub enum SizeStop {
    /// The columns take more than `2 ^ 24` bits: at most `2 ^ log_bits`.
    TooLarge { log_bits: u32 },
    NoMemory,
}

impl From<AllocError> for SizeStop {
    ghost from_gives = { λ _ stop. stop ≡ NoMemory };

    fn from(_failed: AllocError) -> SizeStop {
        SizeStop::NoMemory
    }
}

impl From<ShapeNoMemory> for SizeStop {
    ghost from_gives = { λ _ stop. stop ≡ NoMemory };

    fn from(_failed: ShapeNoMemory) -> SizeStop {
        SizeStop::NoMemory
    }
}

//! Why the reading of a proof halts.

ghost use Rattle.std.specs.Prelude.{◌≡◌};
ghost use Rattle.m3_verifier.specs.declared.halt.Halt.TheVariants as halt;

use fri_fold::QueryFault;
use std::alloc::{AllocError, AllocFailed};
use sumcheck::Refused;

/// Why the reading of a proof halts.
#[derive(Clone, Copy, PartialEq, Eq, Debug)]
pub enum Halt {
    /// The bytes end within a piece.
    Short,
    /// The check of a message fails.
    Refused(Refused),
    /// The path of an opening leads to another root, or a fold is another value.
    Query(QueryFault),
    NoMemory,
}

impl From<AllocError> for Halt {
    ghost from_gives = { λ _ h. h ≡ halt.NoMemory };

    fn from(_failed: AllocError) -> Halt {
        Halt::NoMemory
    }
}

impl<T: Drop> From<AllocFailed<T>> for Halt {
    ghost from_gives = { λ _ h. h ≡ halt.NoMemory };

    fn from(_failed: AllocFailed<T>) -> Halt {
        Halt::NoMemory
    }
}

impl From<additive_transform::NoMemory> for Halt {
    ghost from_gives = { λ _ h. h ≡ halt.NoMemory };

    fn from(_failed: additive_transform::NoMemory) -> Halt {
        Halt::NoMemory
    }
}

/// The entry of a plan at which the reading halts, and why.
#[derive(Clone, Copy, PartialEq, Eq, Debug)]
pub struct Stopped {
    pub entry: u32,
    pub halt: Halt,
}

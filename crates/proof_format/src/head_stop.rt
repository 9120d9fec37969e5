//! Why no head is read.

ghost use Rattle.std.specs.Prelude.{◌≡◌};
ghost use Rattle.proof_format.specs.declared.head_stop.HeadStop.TheVariants.{Fault, NoMemory};

use crate::proof_fault::ProofFault;
use std::alloc::AllocError;

/// Why no head is read.
#[derive(Clone, Copy, PartialEq, Eq, Debug)]
pub enum HeadStop {
    Fault(ProofFault),
    NoMemory,
}

impl From<AllocError> for HeadStop {
    ghost from_gives = { λ _ stop. stop ≡ NoMemory };

    fn from(_failed: AllocError) -> HeadStop {
        HeadStop::NoMemory
    }
}

impl From<ProofFault> for HeadStop {
    ghost from_gives = { λ fault stop. stop ≡ Fault fault };

    fn from(fault: ProofFault) -> HeadStop {
        HeadStop::Fault(fault)
    }
}

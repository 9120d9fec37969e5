//! Why there is no verdict.

ghost use Rattle.std.specs.Prelude.{◌≡◌};
ghost use Rattle.m3_verifier.specs.Verdict.{stop_of_head, stop_of_size};

use proof_format::{HeadStop, ProofFault};
use table_shape::SizeStop;

/// Why a proof's file has no verdict.
#[derive(Clone, Copy, PartialEq, Eq, Debug)]
pub enum VerifyStop {
    /// The file isn't a proof of these tables.
    Fault(ProofFault),
    /// The columns of so many rows take more than `2 ^ 24` bits: at most `2 ^ log_bits`.
    TooLarge { log_bits: u32 },
    ReadFault,
    NoMemory,
}

impl From<HeadStop> for VerifyStop {
    ghost from_gives = { λ stop answer. answer ≡ stop_of_head stop };

    fn from(stop: HeadStop) -> VerifyStop {
        match stop {
            HeadStop::Fault(fault) => VerifyStop::Fault(fault),
            HeadStop::NoMemory => VerifyStop::NoMemory,
        }
    }
}

impl From<SizeStop> for VerifyStop {
    ghost from_gives = { λ stop answer. answer ≡ stop_of_size stop };

    fn from(stop: SizeStop) -> VerifyStop {
        match stop {
            SizeStop::TooLarge { log_bits } => VerifyStop::TooLarge { log_bits },
            SizeStop::NoMemory => VerifyStop::NoMemory,
        }
    }
}

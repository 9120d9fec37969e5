//! Why a token isn't taken.

ghost use Rattle.std.specs.Prelude.{◌≡◌};

use std::alloc::AllocError;

#[derive(Clone, Copy)]
pub(crate) enum Refusal {
    /// The grammar has no such token there.
    Unexpected,
    NoMemory,
}

impl From<AllocError> for Refusal {
    ghost use Rattle.table_text.specs.declared.refusal.Refusal.TheVariants.{NoMemory};

    ghost from_gives = { λ _ e. e ≡ NoMemory };

    fn from(_error: AllocError) -> Refusal {
        Refusal::NoMemory
    }
}

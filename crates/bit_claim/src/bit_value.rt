//! The claim on the table of bits.

use crate::placement::Placement;
use std::marker::Model;
use tower_field::{B128, Values};

/// The claim that the extension of the table of bits at a point is a value.
#[derive(Drop)]
pub struct BitValue {
    pub placement: Placement,
    pub point: Values,
    pub value: B128,
}

impl Model for BitValue {
    ghost use Rattle.bit_claim.specs.Batching.{BitValue};

    ghost Value = { BitValue };

    ghost view = { λ b. record { blocks = b.placement; point = b.point; value = b.value } };
}

impl BitValue {
    ghost use Rattle.std.specs.Prelude.{◌≡◌};

    /// The point and the value, in their memory.
    pub fn into_parts(self) -> (Vec<B128>, B128)
        ensures point { result.0.items ≡ self.point }
        ensures value { result.1 ≡ self.value }
    {
        let BitValue {
            placement: _,
            point,
            value,
        } = self;
        (point.into_vec(), value)
    }
}

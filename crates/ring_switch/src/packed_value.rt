//! What is claimed at the end.

use std::marker::Model;
use tower_field::{B128, Values};

/// That the extension of the table of words at the point is the value.
#[derive(Drop)]
pub struct PackedValue {
    pub(crate) point: Values,
    pub(crate) value: B128,
}

impl Model for PackedValue {
    ghost use Rattle.ring_switch.specs.Switching.{PackedValue};

    ghost Value = { PackedValue };

    ghost view = { λ p. record { point = p.point; value = p.value } };
}

//! The claim on the packed table.

use bit_claim::Placement;
use std::marker::Model;
use tower_field::{B128, Values};

/// The claim that the extension of the packed table of the bits of these columns at a point is a value.
#[derive(Drop)]
pub struct Packed {
    pub placement: Placement,
    pub point: Values,
    pub value: B128,
}

impl Model for Packed {
    ghost use Rattle.m3_walk.specs.Kept.{Packed};

    ghost Value = { Packed };

    ghost view = { λ p. record { blocks = p.placement; point = p.point; value = p.value } };
}

//! Level 2.

ghost use Rattle.std.specs.Prelude.{◌≡◌, ◌<◌, ℕ, refl};
ghost use Rattle.std.proofs.Common.{arith, lit≤};

use crate::element::Tower;
use crate::halves::{high4, joined4, low4};
use crate::ladder::Level;
use std::marker::Model;

/// An element of 4 bits. A contract sees its number.
#[derive(Clone, Copy, PartialEq, Eq, Hash, Debug, Default)]
pub struct B4 {
    bits: u8,
}

impl Model for B4 {
    ghost Value = { ℕ };

    ghost view = { λ element. element.bits };

    ghost invariant = { λ element. element.bits < 16 };

    ghost inverse = { λ n. record { bits = n } };
}

impl Tower for B4 {
    const LEVEL: u32 = 2;

    const ZERO: B4 = B4 { bits: 0 };

    const ONE: B4 = B4 { bits: 1 };

    ghost LEVEL = { 2 };

    ghost ZERO = { 0 };

    ghost ONE = { 1 };

    ghost number = { λ element. element };

    ghost is_a_level = { lit≤ tt };

    ghost number_of_zero = { refl };

    ghost number_of_one = { refl };

    ghost same_number = { λ x y same. same };

    ghost eq_by_number = { λ x y. refl };

    fn add(self, other: B4) -> B4 {
        B4 {
            bits: self.bits.plus(other.bits),
        }
    }

    fn mul(self, other: B4) -> B4 {
        B4 {
            bits: self.bits.times(other.bits),
        }
    }

    fn square(self) -> B4 {
        self.mul(self)
    }

    fn inverse(self) -> Option<B4> {
        if self.bits == 0 {
            return None;
        }
        Some(B4 {
            bits: self.bits.inverted(),
        })
    }

    #[tactic(auto, unfolding(tower_laws::specs::Tower::generator))]
    fn mul_gen(self) -> B4 {
        self.mul(B4 { bits: 4 })
    }

    fn split(self) -> (u128, u128) {
        (low4(self.bits) as u128, high4(self.bits) as u128)
    }

    fn join(low: u128, high: u128) -> B4 {
        B4 {
            bits: joined4(high as u8, low as u8),
        }
    }

    fn number(self) -> u128 {
        self.bits as u128
    }

    fn from_number(n: u128) -> Option<B4> {
        if n < 16 {
            Some(B4 { bits: n as u8 })
        } else {
            None
        }
    }
}

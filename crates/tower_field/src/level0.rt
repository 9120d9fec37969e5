//! Level 0.

ghost use Rattle.std.specs.Prelude.{◌≡◌, ◌<◌, ℕ, refl};
ghost use Rattle.std.proofs.Common.{arith, lit≤};

use crate::element::Tower;
use std::marker::Model;

/// An element of 1 bit: 0 or 1. A contract sees its number.
#[derive(Clone, Copy, PartialEq, Eq, Hash, Debug, Default)]
pub struct B1 {
    bits: u8,
}

impl Model for B1 {
    ghost Value = { ℕ };

    ghost view = { λ element. element.bits };

    ghost invariant = { λ element. element.bits < 2 };

    ghost inverse = { λ n. record { bits = n } };
}

impl Tower for B1 {
    const LEVEL: u32 = 0;

    const ZERO: B1 = B1 { bits: 0 };

    const ONE: B1 = B1 { bits: 1 };

    ghost LEVEL = { 0 };

    ghost ZERO = { 0 };

    ghost ONE = { 1 };

    ghost number = { λ element. element };

    ghost is_a_level = { lit≤ tt };

    ghost number_of_zero = { refl };

    ghost number_of_one = { refl };

    ghost same_number = { λ x y same. same };

    ghost eq_by_number = { λ x y. refl };

    fn add(self, other: B1) -> B1 {
        B1 {
            bits: self.bits ^ other.bits,
        }
    }

    fn mul(self, other: B1) -> B1 {
        B1 {
            bits: self.bits & other.bits,
        }
    }

    fn square(self) -> B1 {
        self.mul(self)
    }

    fn inverse(self) -> Option<B1> {
        if self.bits == 0 { None } else { Some(self) }
    }

    #[tactic(auto, unfolding(tower_laws::specs::Tower::generator))]
    fn mul_gen(self) -> B1 {
        self.mul(B1 { bits: 1 })
    }

    fn split(self) -> (u128, u128) {
        (self.bits as u128, 0)
    }

    fn join(low: u128, _high: u128) -> B1 {
        B1 { bits: low as u8 }
    }

    fn number(self) -> u128 {
        self.bits as u128
    }

    fn from_number(n: u128) -> Option<B1> {
        if n < 2 {
            Some(B1 { bits: n as u8 })
        } else {
            None
        }
    }
}

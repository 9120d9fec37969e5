//! Level 1.

ghost use Rattle.std.specs.Prelude.{◌≡◌, ◌<◌, ℕ, refl};
ghost use Rattle.std.proofs.Common.{arith, lit≤};

use crate::element::Tower;
use crate::halves::{high2, joined2, low2};
use crate::ladder::Level;
use std::marker::Model;

/// An element of 2 bits. A contract sees its number.
#[derive(Clone, Copy, PartialEq, Eq, Hash, Debug, Default)]
pub struct B2 {
    bits: u8,
}

impl Model for B2 {
    ghost Value = { ℕ };

    ghost view = { λ element. element.bits };

    ghost invariant = { λ element. element.bits < 4 };

    ghost inverse = { λ n. record { bits = n } };
}

impl Tower for B2 {
    const LEVEL: u32 = 1;

    const ZERO: B2 = B2 { bits: 0 };

    const ONE: B2 = B2 { bits: 1 };

    ghost LEVEL = { 1 };

    ghost ZERO = { 0 };

    ghost ONE = { 1 };

    ghost number = { λ element. element };

    ghost is_a_level = { lit≤ tt };

    ghost number_of_zero = { refl };

    ghost number_of_one = { refl };

    ghost same_number = { λ x y same. same };

    ghost eq_by_number = { λ x y. refl };

    fn add(self, other: B2) -> B2 {
        B2 {
            bits: self.bits.plus(other.bits),
        }
    }

    fn mul(self, other: B2) -> B2 {
        B2 {
            bits: self.bits.times(other.bits),
        }
    }

    fn square(self) -> B2 {
        self.mul(self)
    }

    fn inverse(self) -> Option<B2> {
        if self.bits == 0 {
            return None;
        }
        Some(B2 {
            bits: self.bits.inverted(),
        })
    }

    #[tactic(auto, unfolding(tower_laws::specs::Tower::generator))]
    fn mul_gen(self) -> B2 {
        self.mul(B2 { bits: 2 })
    }

    fn split(self) -> (u128, u128) {
        (low2(self.bits) as u128, high2(self.bits) as u128)
    }

    fn join(low: u128, high: u128) -> B2 {
        B2 {
            bits: joined2(high as u8, low as u8),
        }
    }

    fn number(self) -> u128 {
        self.bits as u128
    }

    fn from_number(n: u128) -> Option<B2> {
        if n < 4 {
            Some(B2 { bits: n as u8 })
        } else {
            None
        }
    }
}

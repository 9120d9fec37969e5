//! Level 3.

ghost use Rattle.std.specs.Prelude.{◌≡◌, ℕ, refl};
ghost use Rattle.std.proofs.Common.{arith, lit≤};

use crate::element::Tower;
use crate::halves::{high8, joined8, low8};
use crate::ladder::Level;
use std::marker::Model;

/// An element of 8 bits. A contract sees its number.
#[derive(Clone, Copy, PartialEq, Eq, Hash, Debug, Default)]
pub struct B8 {
    bits: u8,
}

impl Model for B8 {
    ghost Value = { ℕ };

    ghost view = { λ element. element.bits };

    ghost inverse = { λ n. record { bits = n } };
}

impl Tower for B8 {
    const LEVEL: u32 = 3;

    const ZERO: B8 = B8 { bits: 0 };

    const ONE: B8 = B8 { bits: 1 };

    ghost LEVEL = { 3 };

    ghost ZERO = { 0 };

    ghost ONE = { 1 };

    ghost number = { λ element. element };

    ghost is_a_level = { lit≤ tt };

    ghost number_of_zero = { refl };

    ghost number_of_one = { refl };

    ghost same_number = { λ x y same. same };

    ghost eq_by_number = { λ x y. refl };

    fn add(self, other: B8) -> B8 {
        B8 {
            bits: self.bits.plus(other.bits),
        }
    }

    fn mul(self, other: B8) -> B8 {
        B8 {
            bits: self.bits.times(other.bits),
        }
    }

    fn square(self) -> B8 {
        B8 {
            bits: self.bits.squared(),
        }
    }

    fn inverse(self) -> Option<B8> {
        if self.bits == 0 {
            return None;
        }
        Some(B8 {
            bits: self.bits.inverted(),
        })
    }

    fn mul_gen(self) -> B8 {
        B8 {
            bits: self.bits.carried(),
        }
    }

    fn split(self) -> (u128, u128) {
        (low8(self.bits) as u128, high8(self.bits) as u128)
    }

    fn join(low: u128, high: u128) -> B8 {
        B8 {
            bits: joined8(high as u8, low as u8),
        }
    }

    fn number(self) -> u128 {
        self.bits as u128
    }

    fn from_number(n: u128) -> Option<B8> {
        if n <= u8::MAX as u128 {
            Some(B8 { bits: n as u8 })
        } else {
            None
        }
    }
}

//! Level 5.

ghost use Rattle.std.specs.Prelude.{◌≡◌, ℕ, refl};
ghost use Rattle.std.proofs.Common.{arith, lit≤};

use crate::element::Tower;
use crate::halves::{high32, joined32, low32};
use crate::ladder::Level;
use std::marker::Model;

/// An element of 32 bits. A contract sees its number.
#[derive(Clone, Copy, PartialEq, Eq, Hash, Debug, Default)]
pub struct B32 {
    bits: u32,
}

impl Model for B32 {
    ghost Value = { ℕ };

    ghost view = { λ element. element.bits };

    ghost inverse = { λ n. record { bits = n } };
}

impl Tower for B32 {
    const LEVEL: u32 = 5;

    const ZERO: B32 = B32 { bits: 0 };

    const ONE: B32 = B32 { bits: 1 };

    ghost LEVEL = { 5 };

    ghost ZERO = { 0 };

    ghost ONE = { 1 };

    ghost number = { λ element. element };

    ghost is_a_level = { lit≤ tt };

    ghost number_of_zero = { refl };

    ghost number_of_one = { refl };

    ghost same_number = { λ x y same. same };

    ghost eq_by_number = { λ x y. refl };

    fn add(self, other: B32) -> B32 {
        B32 {
            bits: self.bits.plus(other.bits),
        }
    }

    fn mul(self, other: B32) -> B32 {
        B32 {
            bits: self.bits.times(other.bits),
        }
    }

    fn square(self) -> B32 {
        B32 {
            bits: self.bits.squared(),
        }
    }

    fn inverse(self) -> Option<B32> {
        if self.bits == 0 {
            return None;
        }
        Some(B32 {
            bits: self.bits.inverted(),
        })
    }

    fn mul_gen(self) -> B32 {
        B32 {
            bits: self.bits.carried(),
        }
    }

    fn split(self) -> (u128, u128) {
        (low32(self.bits) as u128, high32(self.bits) as u128)
    }

    fn join(low: u128, high: u128) -> B32 {
        B32 {
            bits: joined32(high as u16, low as u16),
        }
    }

    fn number(self) -> u128 {
        self.bits as u128
    }

    fn from_number(n: u128) -> Option<B32> {
        if n <= u32::MAX as u128 {
            Some(B32 { bits: n as u32 })
        } else {
            None
        }
    }
}

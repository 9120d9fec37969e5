//! Level 4.

ghost use Rattle.std.specs.Prelude.{◌≡◌, ℕ, refl};
ghost use Rattle.std.proofs.Common.{arith, lit≤};

use crate::element::Tower;
use crate::halves::{high16, joined16, low16};
use crate::ladder::Level;
use std::marker::Model;

/// An element of 16 bits. A contract sees its number.
#[derive(Clone, Copy, PartialEq, Eq, Hash, Debug, Default)]
pub struct B16 {
    bits: u16,
}

impl Model for B16 {
    ghost Value = { ℕ };

    ghost view = { λ element. element.bits };

    ghost inverse = { λ n. record { bits = n } };
}

impl Tower for B16 {
    const LEVEL: u32 = 4;

    const ZERO: B16 = B16 { bits: 0 };

    const ONE: B16 = B16 { bits: 1 };

    ghost LEVEL = { 4 };

    ghost ZERO = { 0 };

    ghost ONE = { 1 };

    ghost number = { λ element. element };

    ghost is_a_level = { lit≤ tt };

    ghost number_of_zero = { refl };

    ghost number_of_one = { refl };

    ghost same_number = { λ x y same. same };

    ghost eq_by_number = { λ x y. refl };

    fn add(self, other: B16) -> B16 {
        B16 {
            bits: self.bits.plus(other.bits),
        }
    }

    fn mul(self, other: B16) -> B16 {
        B16 {
            bits: self.bits.times(other.bits),
        }
    }

    fn square(self) -> B16 {
        B16 {
            bits: self.bits.squared(),
        }
    }

    fn inverse(self) -> Option<B16> {
        if self.bits == 0 {
            return None;
        }
        Some(B16 {
            bits: self.bits.inverted(),
        })
    }

    fn mul_gen(self) -> B16 {
        B16 {
            bits: self.bits.carried(),
        }
    }

    fn split(self) -> (u128, u128) {
        (low16(self.bits) as u128, high16(self.bits) as u128)
    }

    fn join(low: u128, high: u128) -> B16 {
        B16 {
            bits: joined16(high as u8, low as u8),
        }
    }

    fn number(self) -> u128 {
        self.bits as u128
    }

    fn from_number(n: u128) -> Option<B16> {
        if n <= u16::MAX as u128 {
            Some(B16 { bits: n as u16 })
        } else {
            None
        }
    }
}

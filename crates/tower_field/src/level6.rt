//! Level 6.

ghost use Rattle.std.specs.Prelude.{◌≡◌, ℕ, refl};
ghost use Rattle.std.proofs.Common.{arith, lit≤};

use crate::element::Tower;
use crate::halves::{high64, joined64, low64};
use crate::ladder::Level;
use std::marker::Model;

/// An element of 64 bits. A contract sees its number.
#[derive(Clone, Copy, PartialEq, Eq, Hash, Debug, Default)]
pub struct B64 {
    bits: u64,
}

impl Model for B64 {
    ghost Value = { ℕ };

    ghost view = { λ element. element.bits };

    ghost inverse = { λ n. record { bits = n } };
}

impl Tower for B64 {
    const LEVEL: u32 = 6;

    const ZERO: B64 = B64 { bits: 0 };

    const ONE: B64 = B64 { bits: 1 };

    ghost LEVEL = { 6 };

    ghost ZERO = { 0 };

    ghost ONE = { 1 };

    ghost number = { λ element. element };

    ghost is_a_level = { lit≤ tt };

    ghost number_of_zero = { refl };

    ghost number_of_one = { refl };

    ghost same_number = { λ x y same. same };

    ghost eq_by_number = { λ x y. refl };

    fn add(self, other: B64) -> B64 {
        B64 {
            bits: self.bits.plus(other.bits),
        }
    }

    fn mul(self, other: B64) -> B64 {
        B64 {
            bits: self.bits.times(other.bits),
        }
    }

    fn square(self) -> B64 {
        B64 {
            bits: self.bits.squared(),
        }
    }

    fn inverse(self) -> Option<B64> {
        if self.bits == 0 {
            return None;
        }
        Some(B64 {
            bits: self.bits.inverted(),
        })
    }

    fn mul_gen(self) -> B64 {
        B64 {
            bits: self.bits.carried(),
        }
    }

    fn split(self) -> (u128, u128) {
        (low64(self.bits) as u128, high64(self.bits) as u128)
    }

    fn join(low: u128, high: u128) -> B64 {
        B64 {
            bits: joined64(high as u32, low as u32),
        }
    }

    fn number(self) -> u128 {
        self.bits as u128
    }

    fn from_number(n: u128) -> Option<B64> {
        if n <= u64::MAX as u128 {
            Some(B64 { bits: n as u64 })
        } else {
            None
        }
    }
}

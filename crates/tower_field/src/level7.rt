//! Level 7.

ghost use Rattle.std.specs.Prelude.{◌≡◌, ℕ, bit_xor, refl};
ghost use Rattle.std.specs.Int.{from_le_bytes, to_le_bytes, w128};
ghost use Rattle.tower_laws.specs.Tower.{mul};
ghost use Rattle.std.proofs.Common.{arith, lit≤};

use crate::element::Tower;
use crate::halves::{high128, joined128, low128};
use crate::ladder::Level;
use std::marker::Model;
use std::ops::{Add, Mul};

/// An element of 128 bits. A contract sees its number.
#[derive(Clone, Copy, PartialEq, Eq, Hash, Debug, Default)]
pub struct B128 {
    bits: u128,
}

impl Model for B128 {
    ghost Value = { ℕ };

    ghost view = { λ element. element.bits };

    ghost inverse = { λ n. record { bits = n } };
}

impl Tower for B128 {
    const LEVEL: u32 = 7;

    const ZERO: B128 = B128 { bits: 0 };

    const ONE: B128 = B128 { bits: 1 };

    ghost LEVEL = { 7 };

    ghost ZERO = { 0 };

    ghost ONE = { 1 };

    ghost number = { λ element. element };

    ghost is_a_level = { lit≤ tt };

    ghost number_of_zero = { refl };

    ghost number_of_one = { refl };

    ghost same_number = { λ x y same. same };

    ghost eq_by_number = { λ x y. refl };

    fn add(self, other: B128) -> B128 {
        B128 {
            bits: self.bits.plus(other.bits),
        }
    }

    fn mul(self, other: B128) -> B128 {
        B128 {
            bits: self.bits.times(other.bits),
        }
    }

    fn square(self) -> B128 {
        B128 {
            bits: self.bits.squared(),
        }
    }

    fn inverse(self) -> Option<B128> {
        if self.bits == 0 {
            return None;
        }
        Some(B128 {
            bits: self.bits.inverted(),
        })
    }

    fn mul_gen(self) -> B128 {
        B128 {
            bits: self.bits.carried(),
        }
    }

    fn split(self) -> (u128, u128) {
        (low128(self.bits) as u128, high128(self.bits) as u128)
    }

    fn join(low: u128, high: u128) -> B128 {
        B128 {
            bits: joined128(high as u64, low as u64),
        }
    }

    fn number(self) -> u128 {
        self.bits
    }

    fn from_number(n: u128) -> Option<B128> {
        Some(B128 { bits: n })
    }
}

impl B128 {
    /// The bytes of the number, the lowest first.
    pub fn to_bytes(self) -> [u8; 16]
        ensures { result ≡ to_le_bytes w128 self }
    {
        self.bits.to_le_bytes()
    }

    /// The element whose number has these bytes, the lowest first.
    pub fn from_bytes(bytes: [u8; 16]) -> B128
        ensures { result ≡ from_le_bytes w128 bytes }
    {
        B128 {
            bits: u128::from_le_bytes(bytes),
        }
    }
}

impl Add for B128 {
    type Output = B128;

    ghost add_gives = { λ a b sum. sum ≡ bit_xor a b };

    fn add(self, other: B128) -> B128 {
        B128 {
            bits: self.bits ^ other.bits,
        }
    }
}

impl Mul for B128 {
    type Output = B128;

    ghost mul_gives = { λ a b product. product ≡ mul a b };

    fn mul(self, other: B128) -> B128 {
        B128 {
            bits: self.bits.times(other.bits),
        }
    }
}

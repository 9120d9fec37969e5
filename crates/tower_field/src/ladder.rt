//! Products by halves, three for each, from bytes up.

ghost use Rattle.std.specs.Prelude.{◌≡◌, ℕ, suc, ◌+◌, ◌*◌, ◌/◌, ◌%◌, ◌^◌, ◌<◌, bit_xor};
ghost use Rattle.tower_laws.specs.Inverse.{inverse};
ghost use Rattle.tower_laws.specs.Tower.{generator, high, join, low, mul};

use crate::byte::{carried8, inverse8, product8};
use crate::halves::{
    high16, high32, high64, high128, joined16, joined32, joined64, joined128, low16, low32, low64,
    low128,
};

/// An element of one level, in a word of just its width.
pub trait Level: Copy {
    ghost LEVEL: { ℕ };

    ghost number: { Self → ℕ };

    fn plus(self, other: Self) -> Self
        ensures { number result ≡ bit_xor (number self) (number other) };

    fn times(self, other: Self) -> Self
        ensures { number result ≡ mul (number self) (number other) };

    /// The product with the level's last generator.
    fn carried(self) -> Self
        ensures { number result ≡ mul (number self) (generator LEVEL) };

    fn squared(self) -> Self
        ensures { number result ≡ mul (number self) (number self) };

    /// The inverse, and 0 of 0.
    fn inverted(self) -> Self
        ensures { number result ≡ inverse (number self) };
}

/// An element as two halves, elements of the level below.
pub trait Halves: Copy {
    type Half: Level;

    ghost whole: { Self → ℕ };

    fn low(self) -> Self::Half
        ensures value { Self.Half.number result ≡ low Self.Half.LEVEL (whole self) }
        ensures fits { whole self < 2 ^ (2 ^ suc Self.Half.LEVEL) };

    fn high(self) -> Self::Half
        ensures { Self.Half.number result ≡ high Self.Half.LEVEL (whole self) };

    fn joined(high: Self::Half, low: Self::Half) -> Self
        ensures { whole result ≡ join Self.Half.LEVEL (Self.Half.number high) (Self.Half.number low) };
}

/// The product with the last generator exchanges the halves, and adds the carried high half.
#[inline(always)]
fn carried_by_halves<F: Halves>(a: F) -> F
    ensures { F.whole result ≡ mul (F.whole a) (generator (suc F.Half.LEVEL)) }
{
    let low = a.low();
    let high = a.high();
    F::joined(low.plus(high.carried()), high)
}

/// The product from those of the low halves, of the high halves and of the sums of the halves.
#[inline(always)]
fn product_by_halves<F: Halves>(a: F, b: F) -> F
    ensures { F.whole result ≡ mul (F.whole a) (F.whole b) }
{
    let a_low = a.low();
    let a_high = a.high();
    let b_low = b.low();
    let b_high = b.high();
    let lows = a_low.times(b_low);
    let highs = a_high.times(b_high);
    let sums = a_low.plus(a_high).times(b_low.plus(b_high));
    F::joined(
        sums.plus(lows).plus(highs).plus(highs.carried()),
        lows.plus(highs),
    )
}

/// The square from those of the halves.
#[inline(always)]
fn square_by_halves<F: Halves>(a: F) -> F
    ensures { F.whole result ≡ mul (F.whole a) (F.whole a) }
{
    let low = a.low();
    let high = a.high();
    let lows = low.squared();
    let highs = high.squared();
    F::joined(highs.carried(), lows.plus(highs))
}

/// The inverse from that of the norm, an element of the level below.
#[inline(always)]
fn inverse_by_halves<F: Halves>(a: F) -> F
    ensures { F.whole result ≡ inverse (F.whole a) }
{
    let low = a.low();
    let high = a.high();
    let carried = low.plus(high.carried());
    let norm = low.times(carried).plus(high.squared());
    let inverse = norm.inverted();
    F::joined(inverse.times(high), inverse.times(carried))
}

impl Level for u8 {
    ghost LEVEL = { 3 };

    ghost number = { λ x. x };

    fn plus(self, other: u8) -> u8 {
        self ^ other
    }

    fn times(self, other: u8) -> u8 {
        product8(self, other)
    }

    fn carried(self) -> u8 {
        carried8(self)
    }

    fn squared(self) -> u8 {
        product8(self, self)
    }

    fn inverted(self) -> u8 {
        inverse8(self)
    }
}

impl Halves for u16 {
    type Half = u8;

    ghost whole = { λ x. x };

    fn low(self) -> u8 {
        low16(self)
    }

    fn high(self) -> u8 {
        high16(self)
    }

    fn joined(high: u8, low: u8) -> u16 {
        joined16(high, low)
    }
}

impl Level for u16 {
    ghost LEVEL = { 4 };

    ghost number = { λ x. x };

    fn plus(self, other: u16) -> u16 {
        self ^ other
    }

    fn times(self, other: u16) -> u16 {
        product_by_halves(self, other)
    }

    fn carried(self) -> u16 {
        carried_by_halves(self)
    }

    fn squared(self) -> u16 {
        square_by_halves(self)
    }

    fn inverted(self) -> u16 {
        inverse_by_halves(self)
    }
}

impl Halves for u32 {
    type Half = u16;

    ghost whole = { λ x. x };

    fn low(self) -> u16 {
        low32(self)
    }

    fn high(self) -> u16 {
        high32(self)
    }

    fn joined(high: u16, low: u16) -> u32 {
        joined32(high, low)
    }
}

impl Level for u32 {
    ghost LEVEL = { 5 };

    ghost number = { λ x. x };

    fn plus(self, other: u32) -> u32 {
        self ^ other
    }

    fn times(self, other: u32) -> u32 {
        product_by_halves(self, other)
    }

    fn carried(self) -> u32 {
        carried_by_halves(self)
    }

    fn squared(self) -> u32 {
        square_by_halves(self)
    }

    fn inverted(self) -> u32 {
        inverse_by_halves(self)
    }
}

impl Halves for u64 {
    type Half = u32;

    ghost whole = { λ x. x };

    fn low(self) -> u32 {
        low64(self)
    }

    fn high(self) -> u32 {
        high64(self)
    }

    fn joined(high: u32, low: u32) -> u64 {
        joined64(high, low)
    }
}

impl Level for u64 {
    ghost LEVEL = { 6 };

    ghost number = { λ x. x };

    fn plus(self, other: u64) -> u64 {
        self ^ other
    }

    fn times(self, other: u64) -> u64 {
        product_by_halves(self, other)
    }

    fn carried(self) -> u64 {
        carried_by_halves(self)
    }

    fn squared(self) -> u64 {
        square_by_halves(self)
    }

    fn inverted(self) -> u64 {
        inverse_by_halves(self)
    }
}

impl Halves for u128 {
    type Half = u64;

    ghost whole = { λ x. x };

    fn low(self) -> u64 {
        low128(self)
    }

    fn high(self) -> u64 {
        high128(self)
    }

    fn joined(high: u64, low: u64) -> u128 {
        joined128(high, low)
    }
}

impl Level for u128 {
    ghost LEVEL = { 7 };

    ghost number = { λ x. x };

    fn plus(self, other: u128) -> u128 {
        self ^ other
    }

    fn times(self, other: u128) -> u128 {
        product_by_halves(self, other)
    }

    fn carried(self) -> u128 {
        carried_by_halves(self)
    }

    fn squared(self) -> u128 {
        square_by_halves(self)
    }

    fn inverted(self) -> u128 {
        inverse_by_halves(self)
    }
}

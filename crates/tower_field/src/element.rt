//! What the eight types share.

ghost use Rattle.std.specs.Prelude.{◌≡◌, ◌==◌, ◌↔◌, ℕ, ◌^◌, ◌≤◌, bit_xor, Bool, IfSome, IsNone};
ghost use Rattle.tower_laws.specs.Inverse.{inverse};
ghost use Rattle.tower_laws.specs.Tower.{Fits, generator, mul};
ghost use Rattle.tower_laws.specs.Halves.{AreHalves, high_half, joined, low_half};

/// The elements of one level of the tower.
///
/// An element of level i is a number below 2^(2^i), and lies in each level above as the same
/// number. No call takes memory.
pub trait Tower: Copy + Eq {
    /// The level, from 0 to 7.
    const LEVEL: u32;

    const ZERO: Self;

    const ONE: Self;

    ghost LEVEL: { ℕ };

    ghost ZERO: { Self };

    ghost ONE: { Self };

    ghost number: { Self → ℕ };

    fn add(self, other: Self) -> Self
        ensures sum { number result ≡ bit_xor (number self) (number other) }
        ensures fits { Fits LEVEL (number result) };

    fn mul(self, other: Self) -> Self
        ensures product { number result ≡ mul (number self) (number other) }
        ensures fits { Fits LEVEL (number result) };

    fn square(self) -> Self
        ensures square { number result ≡ mul (number self) (number self) }
        ensures fits { Fits LEVEL (number result) };

    /// The inverse of an element that is not zero.
    fn inverse(self) -> Option<Self>
        ensures inverse { IfSome result (λ element. number element ≡ inverse (number self)) }
        ensures zero { IsNone result ↔ (number self ≡ 0) };

    /// The product with the last generator of the level.
    fn mul_gen(self) -> Self
        ensures product { number result ≡ mul (number self) (generator LEVEL) }
        ensures fits { Fits LEVEL (number result) };

    /// The numbers of the low half and of the high half. A bit is its own low half.
    fn split(self) -> (u128, u128)
        ensures low { result.0 ≡ low_half LEVEL (number self) }
        ensures high { result.1 ≡ high_half LEVEL (number self) }
        ensures halves { AreHalves LEVEL result.0 result.1 };

    /// The element with these halves.
    fn join(low: u128, high: u128) -> Self
        requires { AreHalves LEVEL low high }
        ensures { number result ≡ joined LEVEL low high };

    fn number(self) -> u128
        ensures value { result ≡ number self }
        ensures fits { Fits LEVEL result };

    /// The element of this number, if the level has one.
    fn from_number(n: u128) -> Option<Self>
        ensures some { IfSome result (λ element. number element ≡ n) }
        ensures none { IsNone result ↔ (2 ^ (2 ^ LEVEL) ≤ n) };

    ghost is_a_level: { LEVEL ≤ 7 };

    ghost number_of_zero: { number ZERO ≡ 0 };

    ghost number_of_one: { number ONE ≡ 1 };

    ghost same_number: { (x y : Self) → number x ≡ number y → x ≡ y };

    ghost eq_by_number: { (x y : Self) → Self.eq x y ≡ (number x == number y) };
}

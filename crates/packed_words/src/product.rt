//! The product of two elements of 128 bits.

ghost use Rattle.std.specs.Prelude.{◌≡◌};
ghost use Rattle.tower_laws.specs.Tower.{mul};

use tower_field::B128;

/// The product by tables of bytes, which is that of `B128`.
#[inline(always)]
pub fn mul128(a: B128, b: B128) -> B128
    ensures { result ≡ mul a b }
{
    a * b
}

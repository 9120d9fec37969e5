//! Elements from their numbers.

ghost use Rattle.std.specs.Prelude.{◌≡◌};

use tower_field::{B128, Tower};

/// The element of a number: level 7 has them all.
#[inline(always)]
pub fn element_of(number: u128) -> B128
    ensures { result ≡ number }
{
    match B128::from_number(number) {
        Some(element) => element,
        None => unreachable!(),
    }
}

//! Products with bytes.

ghost use Rattle.std.specs.Prelude.{◌≡◌, ◌<◌};
ghost use Rattle.tower_laws.specs.Tower.{mul};

use crate::element::element_of;
use tower_field::{B8, B128, Tower};

/// The product of two bytes.
#[inline(always)]
fn byte_product(byte: u8, factor: B8) -> u128
    ensures value { result ≡ mul byte factor }
    ensures fits { result < 256 }
{
    match B8::from_number(byte as u128) {
        Some(element) => element.mul(factor).number(),
        None => unreachable!(),
    }
}

/// The product with an element of level 3, which multiplies each byte of the number for itself. It
/// takes a fraction of a product of two elements of level 7.
#[inline]
pub fn times_byte(value: B128, factor: B8) -> B128
    ensures { result ≡ mul factor value }
{
    let number = value.number();
    let mut product = 0;
    for place in 0..16u32 {
        let byte = (number >> (8 * place) & 255) as u8;
        product ^= byte_product(byte, factor) << (8 * place);
    }
    element_of(product)
}

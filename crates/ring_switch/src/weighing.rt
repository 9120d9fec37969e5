//! 128 values under the weights of a point.

ghost use Rattle.std.specs.Prelude.{◌≡◌, ◌<◌, length, slice_index, bit_xor};
ghost use Rattle.tower_laws.specs.Tower.{mul};
ghost use Rattle.cube_laws.specs.Extension.{bit, dot, eq, weights};

use tower_field::{B128, Tower};

/// The factor of eq of a coordinate and bit k of a position.
fn factor(x: B128, p: u32, k: u32) -> B128
    requires { k < 32 }
    ensures { result ≡ bit_xor (mul x (bit p k)) (mul (bit_xor 1 x) (bit_xor 1 (bit p k))) }
{
    if (p >> k) % 2 == 0 { B128::ONE + x } else { x }
}

/// eq of a point and the corner whose coordinates are the bits of `p`.
fn eq_at_corner(point: &[B128], p: u32) -> B128
    requires { length point.now < 32 }
    ensures { result ≡ eq point.now p }
{
    let mut product = B128::ONE;
    let mut k = point.len();
    while k > 0 {
        k -= 1;
        product = factor(point[k], p, k as u32) * product;
    }
    product
}

/// The values under the weights of a point of 7 coordinates. It takes no memory.
pub(crate) fn under_weights(values: &[B128; 128], point: &[B128]) -> B128
    requires { length point.now ≡ 7 }
    ensures { result ≡ dot values.now (weights point.now) }
{
    let mut total = B128::ZERO;
    for p in 0..128u32 {
        total = values[p as usize] * eq_at_corner(point, p) + total;
    }
    total
}

//! Polynomials by their values at 0, 1, 2, ..

ghost use Rattle.std.specs.Prelude.{◌≡◌, ◌≢◌, ◌<◌, ◌≤◌, bit_xor, length};
ghost use Rattle.tower_laws.specs.Inverse.{inverse};
ghost use Rattle.poly_laws.specs.Interpolation.{at, basis};

use tower_field::{B4, B128, Tower, lift};

/// The inverse of a point below 16, by the small field that it lies in.
fn inverse_of(n: u8) -> B128
    requires nonzero { n ≢ 0 }
    requires small { n < 16 }
    ensures { result ≡ inverse n }
{
    let Some(element) = B4::from_number(n as u128) else {
        unreachable!();
    };
    match element.inverse() {
        Some(inverse) => lift(inverse),
        None => unreachable!(),
    }
}

/// The point of the number `n`.
fn point(n: u8) -> B128
    ensures { result ≡ n }
{
    match B128::from_number(n as u128) {
        Some(element) => element,
        None => unreachable!(),
    }
}

/// Of the points below `n`, the polynomial that is 1 at `i` and 0 at the others, at `x`.
fn basis_at(n: u8, i: u8, x: B128) -> B128
    requires few { n ≤ 16 }
    requires within { i < 16 }
    ensures { result ≡ basis n i x }
{
    let mut product = B128::ONE;
    for j in 0..n {
        if i != j {
            product = (x + point(j)) * inverse_of(i ^ j) * product;
        }
    }
    product
}

/// The value at `x` of the one polynomial of a degree below `values.len()` that has the values at
/// the points 0, 1, 2, .. It takes no memory.
pub fn at(values: &[B128], x: B128) -> B128
    requires some { 0 < length values.now }
    requires few { length values.now ≤ 11 }
    ensures { result ≡ at values.now x }
{
    let n = values.len() as u8;
    let mut sum = B128::ZERO;
    for i in 0..n {
        sum = sum + values[i as usize] * basis_at(n, i, x);
    }
    sum
}

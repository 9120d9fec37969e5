//! The sum's table at a point.

ghost use Rattle.std.specs.Prelude.{◌≡◌, map, slice_index};
ghost use Rattle.tower_laws.specs.Tower.{mul};
ghost use Rattle.tower_laws.specs.Lists.{sums};
ghost use Rattle.cube_laws.specs.Extension.{bit, extension, weights};
ghost use Rattle.cube_laws.specs.Sums.{tabulate};
ghost use Rattle.tensor_laws.specs.Tensor.{row};
ghost use Rattle.tensor_laws.specs.Switch.{combined, scaled};

use crate::tensor::read_across;
use crate::weighing::under_weights;
use tower_field::{B128, Tower, numbers_fit};

/// Each of 128 elements times one.
fn multiples(c: B128, elements: &[B128; 128]) -> [B128; 128]
    ensures { result ≡ map (mul c) elements.now }
{
    let mut products = [B128::ZERO; 128];
    for u in 0..128usize {
        products[u] = c * elements[u];
    }
    products
}

/// Of the tensor with these rows, the rows times `a` and the columns times `h`, by its rows.
fn scaled(h: B128, a: B128, rows: &[B128; 128]) -> [B128; 128]
    ensures { result ≡ scaled 128 h a rows.now }
{
    let columns = read_across(&multiples(a, rows));
    read_across(&multiples(h, &columns))
}

/// The sum of two tensors, by their rows.
fn sum(left: &[B128; 128], right: &[B128; 128]) -> [B128; 128]
    ensures { result ≡ sums left.now right.now }
{
    let mut rows = [B128::ZERO; 128];
    for u in 0..128usize {
        rows[u] = left[u] + right[u];
    }
    rows
}

/// The rows of 1 ⊗ 1.
fn unit() -> [B128; 128]
    ensures { result ≡ tabulate 128 (bit 1) }
{
    let mut rows = [B128::ZERO; 128];
    rows[0] = B128::ONE;
    rows
}

/// A coordinate of a point, and 0 past the last.
fn coordinate(point: &[B128], k: usize) -> B128
    ensures { result ≡ slice_index point.now k }
{
    if k < point.len() {
        point[k]
    } else {
        B128::ZERO
    }
}

/// The rows of the sum over w of eq(high, w) ⊗ eq(at, w), coordinate by coordinate.
fn rows_of_eq(high: &[B128], at: &[B128]) -> [B128; 128]
    ensures { result ≡ tabulate 128 (row (weights high.now) (weights at.now)) }
{
    numbers_fit(high);
    numbers_fit(at);
    let count = high.len().max(at.len());
    let mut rows = unit();
    let mut k = count;
    while k > 0 {
        k -= 1;
        let h = coordinate(high, k);
        let a = coordinate(at, k);
        let at_zero = scaled(B128::ONE + h, B128::ONE + a, &rows);
        let at_one = scaled(h, a, &rows);
        rows = sum(&at_zero, &at_one);
    }
    rows
}

/// The extension at a point of the table that the weights of the draws combine out of eq of the high
/// point. It takes no memory.
pub fn tensor_eq_at(high: &[B128], at: &[B128], combine: &[B128; 7]) -> B128
    ensures { result ≡ extension (combined high.now combine.now) at.now }
{
    under_weights(&rows_of_eq(high, at), combine)
}

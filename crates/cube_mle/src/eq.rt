//! eq of two points.

ghost use Rattle.std.specs.Prelude.{◌≡◌};
ghost use Rattle.cube_laws.specs.Extension.{eq_points};

use tower_field::{B128, Tower};

/// The product over the coordinates of x · y + (1 + x) · (1 + y), as far as both points go. It takes
/// no memory.
pub fn eq_at(x: &[B128], y: &[B128]) -> B128
    ensures { result ≡ eq_points x.now y.now }
{
    let mut product = B128::ONE;
    let mut k = x.len().min(y.len());
    while k > 0 {
        k -= 1;
        product = (x[k] * y[k] + (B128::ONE + x[k]) * (B128::ONE + y[k])) * product;
    }
    product
}

//! Values of polynomials.

ghost use Rattle.std.specs.Prelude.{◌≡◌};
ghost use Rattle.poly_laws.specs.Polynomial.{horner};

use tower_field::{B128, Tower};

/// The value at `x` of the polynomial with these coefficients, the lowest first. It takes no memory.
pub fn eval(coefficients: &[B128], x: B128) -> B128
    ensures { result ≡ horner coefficients.now x }
{
    let mut value = B128::ZERO;
    for coefficient in coefficients.iter().rev() {
        value = *coefficient + value * x;
    }
    value
}

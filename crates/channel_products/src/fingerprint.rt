//! Tuples as single numbers, and the leaf of a row.

ghost use Rattle.std.specs.Prelude.{◌≡◌, bit_xor};
ghost use Rattle.poly_laws.specs.Polynomial.{horner};
ghost use Rattle.multiset_laws.specs.Fingerprint.{leaf};

use poly_forms::eval;
use tower_field::{B128, Tower};

/// The tuple (t_0, t_1, ..) as the sum of t_j · alpha ^ j.
pub fn collapse(alpha: B128, values: &[B128]) -> B128
    ensures { result ≡ horner values.now alpha }
{
    eval(values, alpha)
}

/// The factor of a row: gamma plus its collapsed tuple where both the step and the selector are 1, and
/// 1 where one of them is 0.
pub fn leaf(step: B128, selector: B128, gamma: B128, collapsed: B128) -> B128
    ensures { result ≡ leaf step selector (bit_xor gamma collapsed) }
{
    step * selector * (gamma + collapsed + B128::ONE) + B128::ONE
}

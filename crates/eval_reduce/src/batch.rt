//! Claims, joined by the powers of a challenge.

ghost use Rattle.std.specs.Prelude.{◌≡◌};
ghost use Rattle.poly_laws.specs.Polynomial.{horner};
ghost use Rattle.eval_reduce.specs.Merge.{eqs, values};

use cube_mle::eq_at;
use sumcheck::ColumnClaim;
use tower_field::{B128, Tower};

/// The sum of mu ^ j times value j.
pub fn value_of_batch(claims: &[ColumnClaim], mu: B128) -> B128
    ensures { result ≡ horner (values claims.now) mu }
{
    let mut sum = B128::ZERO;
    let mut i = claims.len();
    while i > 0 {
        i -= 1;
        sum = claims[i].value + mu * sum;
    }
    sum
}

/// The sum of mu ^ j times eq of point j and a point.
pub fn eq_of_batch(claims: &[ColumnClaim], mu: B128, at: &[B128]) -> B128
    ensures { result ≡ horner (eqs at.now claims.now) mu }
{
    let mut sum = B128::ZERO;
    let mut i = claims.len();
    while i > 0 {
        i -= 1;
        let claim = &claims[i];
        sum = eq_at(claim.point.as_slice(), at) + mu * sum;
    }
    sum
}

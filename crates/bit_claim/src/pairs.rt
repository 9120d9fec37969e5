//! What is summed of the parts of tables.

use sumcheck::Summand;
use tower_field::{B128, Tower};

/// The sum of the products of that many pairs of tables, the first with the second, the third with the
/// fourth and so on.
#[derive(Clone, Copy)]
pub struct Pairs {
    pub(crate) count: u32,
}

impl Summand for Pairs {
    ghost use Rattle.std.specs.Prelude.{◌≡◌, ◌*◌};
    ghost use Rattle.bit_claim.specs.Pairs.{pairs_form};

    ghost form = { λ p. pairs_form p.count };

    ghost suits = { λ p n. n ≡ 2 * p.count };

    fn value_at(&self, row: &[B128]) -> B128 {
        let mut sum = B128::ZERO;
        let mut k = self.count as usize;
        while k > 0 {
            k -= 1;
            sum = row[2 * k] * row[2 * k + 1] + sum;
        }
        sum
    }
}

//! What is summed for a value of the leaves.

use crate::fingerprint::{collapse, leaf};
use sumcheck::Summand;
use tower_field::{B128, Tower};

/// eq times the leaf of a step, a selector and a tuple of that many columns.
#[derive(Clone, Copy)]
pub struct LeafTerm {
    pub(crate) alpha: B128,
    pub(crate) gamma: B128,
    pub(crate) width: u32,
}

impl Summand for LeafTerm {
    ghost use Rattle.std.specs.Prelude.{◌≡◌, ◌+◌};
    ghost use Rattle.channel_products.specs.Summands.{leaf_term_form};

    ghost form = { leaf_term_form };

    ghost suits = { λ t n. n ≡ t.width + 3 };

    fn value_at(&self, row: &[B128]) -> B128 {
        let tuple = &row[3..];
        row[0] * leaf(row[1], row[2], self.gamma, collapse(self.alpha, tuple))
    }
}

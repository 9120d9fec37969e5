//! What is summed for a value of a layer.

use sumcheck::Summand;
use tower_field::{B128, Tower};

/// eq times the lower and the upper half of the layer below.
#[derive(Clone, Copy)]
pub struct Halves;

impl Summand for Halves {
    ghost use Rattle.std.specs.Prelude.{◌≤◌};
    ghost use Rattle.channel_products.specs.Summands.{halves_form};

    ghost form = { halves_form };

    ghost suits = { λ halves n. 3 ≤ n };

    fn value_at(&self, row: &[B128]) -> B128 {
        row[0] * (row[1] * row[2])
    }
}

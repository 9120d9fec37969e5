//! What is summed over a cube.

ghost use Rattle.std.specs.Prelude.{◌≡◌, ◌≤◌, ℕ, length};
ghost use Rattle.cube_laws.specs.Form.{Form, value};

use poly_forms::Form;
use tower_field::{B128, Tower};

/// A form whose values are summed.
pub trait Summand {
    ghost form: { Self → Form };

    /// A row of that many values has one for each variable.
    ghost suits: { Self → ℕ → Type 0 };

    /// The form's value, its variables being the values of the row.
    fn value_at(&self, row: &[B128]) -> B128
        requires { suits self.now (length row.now) }
        ensures { result ≡ value (form self.now) row.now };
}

impl Summand for Form {
    ghost use Rattle.poly_forms.specs.Form.{form_of, VariablesBelow};

    ghost form = { form_of };

    ghost suits = { λ form n. VariablesBelow n (form_of form) };

    fn value_at(&self, row: &[B128]) -> B128 {
        self.eval(row)
    }
}

/// The product of the first two tables.
#[derive(Clone, Copy)]
pub struct Pair;

impl Summand for Pair {
    ghost use Rattle.sumcheck.specs.Pair.{pair_form};

    ghost form = { pair_form };

    ghost suits = { λ pair n. 2 ≤ n };

    fn value_at(&self, row: &[B128]) -> B128 {
        row[0] * row[1]
    }
}

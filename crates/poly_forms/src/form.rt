//! Forms over numbered variables.

ghost use Rattle.std.specs.Prelude.{◌≡◌, ◌-◌, ◌^◌, length, map, min};
ghost use Rattle.cube_laws.specs.Form.{degree, value};
ghost use Rattle.poly_forms.specs.Form.{form_of, product_of, sum_of, VariablesBelow};

use crate::no_memory::NoMemory;
use sqlite_items::Items;
use tower_field::{B128, Tower};

/// Sums and products of constants and numbered variables.
#[derive(Debug, Drop)]
pub enum Form {
    Constant(B128),
    Variable(u32),
    Sum(Items<Form>),
    Product(Items<Form>),
}

pub type Forms = Items<Form>;

impl Form {
    /// The sum of the parts, 0 where there are none. It is made in the memory of the list.
    pub fn sum(parts: Forms) -> Result<Form, NoMemory>
        ensures { result ≡ Ok (Form.Sum parts) }
    {
        Ok(Form::Sum(parts))
    }

    /// The product of the parts, 1 where there are none. It is made in the memory of the list.
    pub fn product(parts: Forms) -> Result<Form, NoMemory>
        ensures { result ≡ Ok (Form.Product parts) }
    {
        Ok(Form::Product(parts))
    }

    /// The greatest number of variables that are multiplied, or `u64::MAX` where it is larger.
    pub fn degree(&self) -> u64
        ensures { result ≡ min (degree (form_of self.now)) (2 ^ 64 - 1) }
    {
        match self {
            Form::Constant(_) => 0,
            Form::Variable(_) => 1,
            Form::Sum(parts) => {
                let mut greatest = 0;
                for part in parts.as_slice() {
                    greatest = part.degree().max(greatest);
                }
                greatest
            }
            Form::Product(parts) => {
                let mut total = 0u64;
                for part in parts.as_slice() {
                    total = total.saturating_add(part.degree());
                }
                total
            }
        }
    }

    /// The value where variable k is value k.
    #[cycle(values)]
    pub fn eval(&self, values: &[B128]) -> B128
        requires { VariablesBelow (length values.now) (form_of self.now) }
        ensures { result ≡ value (form_of self.now) values.now }
    {
        match self {
            Form::Constant(c) => *c,
            Form::Variable(k) => values[*k as usize],
            Form::Sum(parts) => Form::eval_sum(parts.as_slice(), values),
            Form::Product(parts) => Form::eval_product(parts.as_slice(), values),
        }
    }

    #[cycle(values)]
    fn eval_sum(parts: &[Form], values: &[B128]) -> B128
        requires { VariablesBelow (length values.now) (sum_of (map form_of parts.now)) }
        ensures { result ≡ value (sum_of (map form_of parts.now)) values.now }
    {
        let mut sum = B128::ZERO;
        for part in parts {
            sum = sum + part.eval(values);
        }
        sum
    }

    #[cycle(values)]
    fn eval_product(parts: &[Form], values: &[B128]) -> B128
        requires { VariablesBelow (length values.now) (product_of (map form_of parts.now)) }
        ensures { result ≡ value (product_of (map form_of parts.now)) values.now }
    {
        let mut product = B128::ONE;
        for part in parts {
            product = product * part.eval(values);
        }
        product
    }
}

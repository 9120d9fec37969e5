//! The tensor of a message, by its rows and by its columns.

ghost use Rattle.std.specs.Prelude.{◌≡◌};
ghost use Rattle.tensor_laws.specs.Switch.{transposed};

use packed_words::transpose128;
use std::marker::Model;
use tower_field::{B128, Tower, numbers_fit};

/// The element of a number: level 7 has them all.
fn element_of(number: u128) -> B128
    ensures { result ≡ number }
{
    match B128::from_number(number) {
        Some(element) => element,
        None => unreachable!(),
    }
}

/// The numbers of 128 elements.
fn numbers_of(elements: &[B128; 128]) -> [u128; 128]
    ensures { result ≡ elements.now }
{
    let mut numbers = [0u128; 128];
    for u in 0..128usize {
        numbers[u] = elements[u].number();
    }
    numbers
}

/// The elements of 128 numbers.
fn elements_of(numbers: &[u128; 128]) -> [B128; 128]
    ensures { result ≡ numbers.now }
{
    let mut elements = [B128::ZERO; 128];
    for u in 0..128usize {
        elements[u] = element_of(numbers[u]);
    }
    elements
}

/// Element u of those has as bit v bit u of element v of these.
pub(crate) fn read_across(elements: &[B128; 128]) -> [B128; 128]
    ensures { result ≡ transposed 128 elements.now }
{
    let mut numbers = numbers_of(elements);
    transpose128(&mut numbers);
    let across = elements_of(&numbers);
    numbers_fit(&across);
    across
}

/// 128 rows of 128 bits. A contract sees the list of the rows.
#[derive(Drop)]
pub struct Tensor {
    rows: [B128; 128],
}

impl Model for Tensor {
    ghost use Rattle.std.specs.Prelude.{List, ℕ};

    ghost Value = { List ℕ };

    ghost view = { λ tensor. tensor.rows };
}

impl Tensor {
    ghost use Rattle.ring_switch.specs.Switching.{columns_of, rows_of};

    /// The tensor with these columns.
    pub fn from_columns(columns: &[B128; 128]) -> Tensor
        ensures { result ≡ rows_of columns.now }
    {
        Tensor {
            rows: read_across(columns),
        }
    }

    pub fn columns(&self) -> [B128; 128]
        ensures { result ≡ columns_of self.now }
    {
        read_across(&self.rows)
    }

    pub fn rows(&self) -> &[B128; 128]
        ensures { result.now ≡ self.now }
    {
        &self.rows
    }
}

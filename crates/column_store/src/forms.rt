//! The values of virtual columns, position by position.

ghost use Rattle.std.specs.Prelude.{◌≡◌, ℕ, ◌+◌, ◌*◌, ◌^◌, ◌<◌, ◌≤◌, List, length, map, slice_get, slice_index, bit_xor, Some};
ghost use Rattle.tower_laws.specs.Tower.{mul};
ghost use Rattle.tower_laws.specs.Lists.{sum_all};
ghost use Rattle.cube_laws.specs.Sums.{sum_to};
ghost use Rattle.shift_laws.specs.Shifts.{shl, shr, rol, shifted_value};
ghost use Rattle.table_shape.specs.Forms.{form_value};
ghost use Rattle.table_shape.specs.declared.shape.ShapeTerm.{ShapeTerm};
ghost use Rattle.column_store.specs.Column.{list_of, lists};
ghost use Rattle.column_store.specs.Draft.{CanRead};

use crate::column::Column;
use table_shape::{ColumnShape, ShapeForm, ShapeTerm};
use tower_field::{B128, Tower};

/// The value of a form at a position, by the columns before.
pub(crate) fn form_value(
    shapes: &[ColumnShape],
    columns: &[Column],
    form: &ShapeForm,
    position: usize,
) -> u128
    requires counts { length columns.now ≡ length shapes.now }
    requires reads { CanRead shapes.now form.now }
    requires small { position < 2 ^ 32 }
    ensures { result ≡ form_value shapes.now (list_of (lists columns.now)) form.now position }
{
    match form {
        ShapeForm::Shl {
            column,
            block,
            offset,
        } => shl_value(&columns[*column as usize], *block, *offset, position),
        ShapeForm::Shr {
            column,
            block,
            offset,
        } => shr_value(&columns[*column as usize], *block, *offset, position),
        ShapeForm::Rol {
            column,
            block,
            offset,
        } => rol_value(&columns[*column as usize], *block, *offset, position),
        ShapeForm::Pack { column, log } => {
            let level = shapes[*column as usize].level;
            pack_value(&columns[*column as usize], level, *log, position)
        }
        ShapeForm::Project { column, log, index } => {
            columns[*column as usize].get((position << *log) + *index as usize)
        }
        ShapeForm::Linear { constant, terms } => {
            linear_value(columns, *constant, terms.as_slice(), position)
        }
    }
}

fn shl_value(source: &Column, block: u32, offset: u32, position: usize) -> u128
    requires { block ≤ 7 }
    ensures { result ≡ shifted_value shl block offset source.now.values position }
{
    let offset = offset as usize;
    if offset <= position % (1 << block) {
        source.get(position - offset)
    } else {
        0
    }
}

fn shr_value(source: &Column, block: u32, offset: u32, position: usize) -> u128
    requires block { block ≤ 7 }
    requires small { position < 2 ^ 32 }
    ensures { result ≡ shifted_value shr block offset source.now.values position }
{
    let offset = offset as usize;
    let size = 1usize << block;
    if position % size + offset < size {
        source.get(position + offset)
    } else {
        0
    }
}

fn rol_value(source: &Column, block: u32, offset: u32, position: usize) -> u128
    requires block { block ≤ 7 }
    requires small { position < 2 ^ 32 }
    ensures { result ≡ shifted_value rol block offset source.now.values position }
{
    let size = 1usize << block;
    let place = position % size;
    source.get(position - place + (place + (size - offset as usize % size)) % size)
}

/// The `2 ^ log` values of one position as one, the first in the lowest bits.
fn pack_value(source: &Column, level: u32, log: u32, position: usize) -> u128
    requires fits { level + log ≤ 7 }
    requires small { position < 2 ^ 32 }
    ensures { result ≡ sum_to (2 ^ log) (λ u. mul (2 ^ (u * 2 ^ level)) (slice_index source.now.values (position * 2 ^ log + u))) }
{
    if source.level() == level && position < source.len() >> log {
        source.wide(log, position)
    } else {
        pack_by_values(source, level, log, position)
    }
}

/// The same, value by value, of which some may lie past the last.
fn pack_by_values(source: &Column, level: u32, log: u32, position: usize) -> u128
    requires fits { level + log ≤ 7 }
    requires small { position < 2 ^ 32 }
    ensures { result ≡ sum_to (2 ^ log) (λ u. mul (2 ^ (u * 2 ^ level)) (slice_index source.now.values (position * 2 ^ log + u))) }
{
    let mut sum = B128::ZERO;
    for u in 0..1usize << log {
        let basis = element(1 << (u << level));
        sum = sum + basis * element(source.get((position << log) + u));
    }
    sum.number()
}

fn linear_value(columns: &[Column], constant: B128, terms: &[ShapeTerm], position: usize) -> u128
    requires { (i : ℕ) (term : ShapeTerm) → slice_get terms.now i ≡ Some term → term.column < length columns.now }
    ensures { result ≡ bit_xor constant (sum_all (map (λ (t : ShapeTerm). mul t.coefficient (slice_index (list_of (lists columns.now) t.column) position)) terms.now)) }
{
    let mut sum = constant;
    for term in terms {
        let value = element(columns[term.column as usize].get(position));
        sum = sum + times(term.coefficient, value);
    }
    sum.number()
}

/// A product, quick where the coefficient is 1.
#[inline]
fn times(coefficient: B128, value: B128) -> B128
    ensures { result ≡ mul coefficient value }
{
    if coefficient == B128::ONE {
        value
    } else {
        coefficient * value
    }
}

/// The element of a number.
#[inline]
fn element(number: u128) -> B128
    ensures { result ≡ number }
{
    match B128::from_number(number) {
        Some(element) => element,
        None => unreachable!(),
    }
}

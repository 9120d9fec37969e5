//! The first value of a constraint that isn't 0.

ghost use Rattle.table_text.specs.Limits.{max_level, max_log_values};
ghost use Rattle.table_shape.specs.Limits.{max_rows};
ghost use Rattle.std.specs.Prelude.{◌≡◌, ◌≤◌, ◌<◌, ◌^◌, IfNone, IfSome, IsSome, length, map, slice_index};
ghost use Rattle.table_shape.specs.Value.{value};
ghost use Rattle.tower_laws.specs.Lists.{product_all, sum_all};
ghost use Rattle.table_shape.specs.Fits.{TableFits};
ghost use Rattle.column_store.specs.Column.{list_of, lists};
ghost use Rattle.m3_judge.specs.Blocks.{BlockFits};
ghost use Rattle.m3_judge.specs.Judging.{values_in, IsZeroAtIndices, IsZeroOn, IsFirstInRow, FindsFirst, FindsFirstInTable, FindsFirstNonZero};

use crate::blocks::{ROWS, are_zero_rows};
use column_store::{Column, Store};
use table_shape::{ColumnShape, ConstraintShape, ShapeExpr, TableShape, ceil_log};
use tower_field::{B128, Tower, by_level, lift};

/// A constraint whose value at a row and an index isn't 0.
#[derive(Clone, Copy, Debug, PartialEq, Eq)]
pub struct NonZero {
    pub table: u32,
    pub constraint: u32,
    pub row: u32,
    pub index: u32,
    pub value: B128,
}

/// A value of a constraint.
#[derive(Clone, Copy, Debug, PartialEq, Eq)]
pub(crate) struct Found {
    pub row: u32,
    pub index: u32,
    pub value: B128,
}

/// The number of a column's value at a position, and 0 where there is none.
pub(crate) fn number_at(columns: &[Column], column: u32, position: usize) -> u128
    ensures { result ≡ slice_index (list_of (lists columns.now) column) position }
{
    match columns.get(column as usize) {
        Some(column) => column.get(position),
        None => 0,
    }
}

/// The value of an expression over the columns of a table at a position, in the field of F. None
/// where a number of it, or a value of its columns, is no element of that field.
#[cycle(values)]
fn value_in<F: Tower>(columns: &[Column], expr: &ShapeExpr, position: usize) -> Option<F>
    ensures value { IfSome result (λ element. F.number element ≡ value (values_in columns.now position) expr.now) }
    ensures whole { max_level ≤ F.LEVEL → IsSome result }
{
    match expr {
        ShapeExpr::Number(n) => F::from_number(n.number()),
        ShapeExpr::Column(column) => F::from_number(number_at(columns, *column, position)),
        ShapeExpr::Sum(parts) => sum_in(columns, parts.as_slice(), position),
        ShapeExpr::Product(parts) => product_in(columns, parts.as_slice(), position),
    }
}

#[cycle(values)]
fn sum_in<F: Tower>(columns: &[Column], parts: &[ShapeExpr], position: usize) -> Option<F>
    ensures value { IfSome result (λ element. F.number element ≡ sum_all (map (value (values_in columns.now position)) parts.now)) }
    ensures whole { max_level ≤ F.LEVEL → IsSome result }
{
    let mut sum = F::ZERO;
    for part in parts {
        sum = sum.add(value_in(columns, part, position)?);
    }
    Some(sum)
}

#[cycle(values)]
fn product_in<F: Tower>(columns: &[Column], parts: &[ShapeExpr], position: usize) -> Option<F>
    ensures value { IfSome result (λ element. F.number element ≡ product_all (map (value (values_in columns.now position)) parts.now)) }
    ensures whole { max_level ≤ F.LEVEL → IsSome result }
{
    let Some((first, others)) = parts.split_first() else {
        return Some(F::ONE);
    };
    let mut product: F = value_in(columns, first, position)?;
    for part in others {
        product = product.mul(value_in(columns, part, position)?);
    }
    Some(product)
}

/// The value of an expression at a position. It is computed in the field of F where that has all
/// parts, which costs less the smaller the field is.
fn value_by<F: Tower>(columns: &[Column], expr: &ShapeExpr, position: usize) -> B128
    ensures { result ≡ value (values_in columns.now position) expr.now }
{
    if let Some(element) = value_in::<F>(columns, expr, position) {
        return lift(element);
    }
    match value_in::<B128>(columns, expr, position) {
        Some(element) => element,
        None => unreachable!(),
    }
}

/// The level of the least field that has the number.
fn level_of_number(number: u128) -> u32 {
    ceil_log(u64::from(u128::BITS - number.leading_zeros()))
}

/// The level of the least field that has the numbers of an expression and the values of its
/// columns. No clause speaks of it, since a value is the same whichever field it is computed in.
#[cycle(levels)]
fn level_of(expr: &ShapeExpr, columns: &[ColumnShape]) -> u32 {
    match expr {
        ShapeExpr::Number(n) => level_of_number(n.number()),
        ShapeExpr::Column(column) => match columns.get(*column as usize) {
            Some(column) => column.level,
            None => B128::LEVEL,
        },
        ShapeExpr::Sum(parts) => greatest_level(parts.as_slice(), columns),
        ShapeExpr::Product(parts) => greatest_level(parts.as_slice(), columns),
    }
}

#[cycle(levels)]
fn greatest_level(parts: &[ShapeExpr], columns: &[ColumnShape]) -> u32 {
    let mut level = 0;
    for part in parts {
        level = level_of(part, columns).max(level);
    }
    level
}

fn values_per_row(log_values: u32) -> u32
    requires { log_values ≤ max_log_values }
    ensures value { result ≡ 2 ^ log_values }
    ensures small { result ≤ 128 }
{
    1 << log_values
}

/// The first value of a constraint in a row that isn't 0, computed in the field of F.
fn first_in_row<F: Tower>(
    columns: &[Column],
    constraint: &ConstraintShape,
    row: u32,
) -> Option<Found>
    requires row { row < max_rows }
    requires log_values { constraint.now.log_values ≤ max_log_values }
    ensures none { IfNone result (IsZeroAtIndices (lists columns.now) constraint.now row (2 ^ constraint.now.log_values)) }
    ensures first { IfSome result (IsFirstInRow (lists columns.now) constraint.now row) }
{
    let count = values_per_row(constraint.log_values);
    for index in 0..count {
        let value = value_by::<F>(columns, &constraint.expr, (row * count + index) as usize);
        if value != B128::ZERO {
            return Some(Found { row, index, value });
        }
    }
    None
}

/// The first value of a constraint that isn't 0 in the rows before `to`, which is 0 in those before
/// `from`.
fn first_between<F: Tower>(
    columns: &[Column],
    constraint: &ConstraintShape,
    from: u32,
    to: u32,
) -> Option<Found>
    requires order { from ≤ to }
    requires rows { to ≤ max_rows }
    requires log_values { constraint.now.log_values ≤ max_log_values }
    requires before { IsZeroOn (lists columns.now) constraint.now from }
    ensures { FindsFirst (lists columns.now) constraint.now to result }
{
    for row in from..to {
        if let Some(found) = first_in_row::<F>(columns, constraint, row) {
            return Some(found);
        }
    }
    None
}

/// The first value of a constraint in the first rows that isn't 0, computed in the field of F.
fn first_in_rows<F: Tower>(
    columns: &[Column],
    constraint: &ConstraintShape,
    rows: u32,
) -> Option<Found>
    requires block_fits { BlockFits F.row }
    requires rows { rows ≤ max_rows }
    requires log_values { constraint.now.log_values ≤ max_log_values }
    ensures { FindsFirst (lists columns.now) constraint.now rows result }
{
    let mut row = 0;
    while row < rows {
        let next = rows.min(row + ROWS);
        if !are_zero_rows::<F>(columns, constraint, row) {
            if let Some(found) = first_between::<F>(columns, constraint, row, next) {
                return Some(found);
            }
        }
        row = next;
    }
    None
}

/// The first value of a constraint in the first rows that isn't 0, computed in the field of a level.
fn first_at_level(
    columns: &[Column],
    constraint: &ConstraintShape,
    rows: u32,
    level: u32,
) -> Option<Found>
    requires rows { rows ≤ max_rows }
    requires log_values { constraint.now.log_values ≤ max_log_values }
    ensures { FindsFirst (lists columns.now) constraint.now rows result }
{
    by_level!(level, first_in_rows(columns, constraint, rows))
}

/// The first value of a table's constraints that isn't 0.
fn first_in_table(store: &Store, number: u32, table: &TableShape, rows: u32) -> Option<NonZero>
    requires there { number < length store.now.shape.tables }
    requires rows { rows ≤ max_rows }
    requires fits { TableFits table.now }
    ensures { FindsFirstInTable store.now.filling number table.now rows (length table.now.constraints) result }
{
    let columns = store.columns(number);
    for (constraint_number, constraint) in table.constraints.as_slice().iter().enumerate() {
        let level = level_of(&constraint.expr, table.columns.as_slice());
        if let Some(found) = first_at_level(columns, constraint, rows, level) {
            return Some(NonZero {
                table: number,
                constraint: constraint_number as u32,
                row: found.row,
                index: found.index,
                value: found.value,
            });
        }
    }
    None
}

/// The first value that isn't 0, in the order of table, constraint, row and index.
pub fn first_nonzero(store: &Store) -> Option<NonZero>
    ensures { FindsFirstNonZero store.now.shape.tables store.now.rows store.now.filling result }
{
    let rows = store.rows();
    for (number, table) in store.shape().tables().iter().enumerate() {
        if let Some(found) = first_in_table(store, number as u32, table, rows[number]) {
            return Some(found);
        }
    }
    None
}

//! How many values per row an expression has.

ghost use Rattle.std.specs.Prelude.{◌≡◌, ◌≤◌, map, IfSome};
ghost use Rattle.std.specs.List.{list_all};
ghost use Rattle.table_text.specs.Limits.{max_log_values};
ghost use Rattle.table_shape.specs.Fits.{AreSized};
ghost use Rattle.table_shape.specs.Width.{first_some, first_width, has_width, log_values_at, width};

use crate::shape::{ColumnShape, ShapeExpr};
use sqlite_items::at;

/// The logarithm of a column's number of values per row, and 0 where there is no such column.
pub(crate) fn log_values_at(columns: &[ColumnShape], column: u32) -> u32
    requires { AreSized columns.now }
    ensures value { result ≡ log_values_at columns.now column }
    ensures bound { result ≤ max_log_values }
{
    match at(columns, column as usize) {
        Some(column) => column.log_values,
        None => 0,
    }
}

#[cycle(first)]
fn first_width(expr: &ShapeExpr, columns: &[ColumnShape]) -> Option<u32>
    requires { AreSized columns.now }
    ensures value { result ≡ first_width columns.now expr.now }
    ensures bound { IfSome result (λ v. v ≤ max_log_values) }
{
    match expr {
        ShapeExpr::Number(_) => None,
        ShapeExpr::Column(column) => Some(log_values_at(columns, *column)),
        ShapeExpr::Sum(parts) => first_width_of(parts.as_slice(), columns),
        ShapeExpr::Product(parts) => first_width_of(parts.as_slice(), columns),
    }
}

#[cycle(first)]
fn first_width_of(exprs: &[ShapeExpr], columns: &[ColumnShape]) -> Option<u32>
    requires { AreSized columns.now }
    ensures value { result ≡ first_some (map (first_width columns.now) exprs.now) }
    ensures bound { IfSome result (λ v. v ≤ max_log_values) }
{
    for expr in exprs {
        if let Some(width) = first_width(expr, columns) {
            return Some(width);
        }
    }
    None
}

/// The logarithm of the number of values per row of an expression's first column, and 0 where it
/// names no column.
pub(crate) fn width(expr: &ShapeExpr, columns: &[ColumnShape]) -> u32
    requires { AreSized columns.now }
    ensures value { result ≡ width columns.now expr.now }
    ensures bound { result ≤ max_log_values }
{
    match first_width(expr, columns) {
        Some(width) => width,
        None => 0,
    }
}

/// Whether each column that an expression names is there and has `2 ^ log_values` values per row.
#[cycle(each)]
pub(crate) fn has_width(expr: &ShapeExpr, columns: &[ColumnShape], log_values: u32) -> bool
    ensures { result ≡ has_width columns.now log_values expr.now }
{
    match expr {
        ShapeExpr::Number(_) => true,
        ShapeExpr::Column(column) => match at(columns, *column as usize) {
            Some(column) => column.log_values == log_values,
            None => false,
        },
        ShapeExpr::Sum(parts) => each_has_width(parts.as_slice(), columns, log_values),
        ShapeExpr::Product(parts) => each_has_width(parts.as_slice(), columns, log_values),
    }
}

#[cycle(each)]
fn each_has_width(exprs: &[ShapeExpr], columns: &[ColumnShape], log_values: u32) -> bool
    ensures { result ≡ list_all (λ b. b) (map (has_width columns.now log_values) exprs.now) }
{
    for expr in exprs {
        if !has_width(expr, columns, log_values) {
            return false;
        }
    }
    true
}

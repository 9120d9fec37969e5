//! Columns of a shape.

ghost use Rattle.std.specs.Prelude.{◌≡◌, ◌≤◌, IsSome, Some};
ghost use Rattle.table_shape.specs.Fits.{ShapeFits};
ghost use Rattle.eval_reduce.specs.Virtual.{column_of, vars_on};

use table_shape::{ColumnShape, Shape, ceil_log};

pub(crate) fn column_shape(shape: &Shape, table: u32, column: u32) -> &ColumnShape
    requires { IsSome (column_of shape.now.tables table column) }
    ensures column { column_of shape.now.tables table column ≡ Some result.now }
    ensures values { result.now.log_values ≤ 7 }
    ensures fits { ShapeFits shape.now }
{
    &shape.tables()[table as usize].columns.as_slice()[column as usize]
}

/// How many variables a column has on a number of rows.
pub(crate) fn vars_on(rows: u32, column: &ColumnShape) -> u32
    requires { column.now.log_values ≤ 7 }
    ensures { result ≡ vars_on rows column.now }
{
    ceil_log(u64::from(rows)) + column.log_values
}

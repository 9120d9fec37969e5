//! How many bits the columns of all tables take.

ghost use Rattle.table_shape.specs.Limits.{max_columns, max_rows};
ghost use Rattle.std.specs.Prelude.{◌≡◌, ℕ, ◌*◌, ◌^◌, ◌≤◌, length, slice_index};
ghost use Rattle.list_laws.specs.CeilLog.{ceil_log};
ghost use Rattle.table_shape.specs.Size.{columns_bits, size_log};
ghost use Rattle.table_shape.specs.Fits.{AreSized};

use crate::shape::{ColumnShape, Shape};

/// The least `e` with `x` at most `2 ^ e`.
pub fn ceil_log(x: u64) -> u32
    ensures { result ≡ ceil_log x }
{
    if x <= 1 { 0 } else { (x - 1).ilog2() + 1 }
}

fn columns_bits(rows: u32, columns: &[ColumnShape]) -> u64
    requires rows_few { rows ≤ max_rows }
    requires few { length columns.now ≤ max_columns }
    requires fit { AreSized columns.now }
    ensures value { result ≡ columns_bits rows columns.now }
    ensures bound { result ≤ 2 ^ 42 }
{
    let log_rows = ceil_log(u64::from(rows));
    let mut bits = 0;
    for column in columns {
        bits += 1u64 << (log_rows + column.log_values + column.level);
    }
    bits
}

/// The least `e` such that the columns of all tables take at most `2 ^ e` bits.
pub fn size_log(shape: &Shape, rows: &[u32]) -> u32
    requires counts { length rows.now ≡ length shape.now.tables }
    requires few { (t : ℕ) → slice_index rows.now t ≤ max_rows }
    ensures { result ≡ size_log shape.now.tables rows.now }
{
    let mut bits = 0;
    for (t, table) in shape.tables().iter().enumerate() {
        bits += columns_bits(rows[t], table.columns.as_slice());
    }
    ceil_log(bits)
}

//! The bits of a column.

ghost use Rattle.table_text.specs.Limits.{max_level, max_log_values};
ghost use Rattle.table_shape.specs.Limits.{max_rows};
ghost use Rattle.std.specs.Prelude.{◌≡◌, ◌+◌, ◌/◌, ◌^◌, ◌≤◌, length, nat_lt};
ghost use Rattle.column_store.specs.Digits.{number_of_bytes};
ghost use Rattle.column_store.specs.Spelled.{written_bits};

use table_shape::ColumnShape;

/// How many bits the values of a column take on a number of rows.
pub fn written_bits(rows: u32, column: &ColumnShape) -> u64
    requires rows_few { rows ≤ max_rows }
    requires level { column.now.level ≤ max_level }
    requires values { column.now.log_values ≤ max_log_values }
    ensures value { result ≡ written_bits rows column.now }
    ensures bound { result ≤ 2 ^ 34 }
{
    u64::from(rows) << (column.log_values + column.level)
}

/// Whether the bytes that so many bits take spell no other bit.
pub fn spells_bits(bytes: &[u8], bits: u64) -> bool
    requires { length bytes.now ≡ (bits + 7) / 8 }
    ensures { result ≡ nat_lt (number_of_bytes bytes.now) (2 ^ bits) }
{
    let used = bits % 8;
    used == 0 || bytes[bytes.len() - 1] >> used == 0
}

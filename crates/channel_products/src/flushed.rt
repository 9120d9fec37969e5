//! Flushes on a number of rows.

use table_shape::FlushShape;

/// A flush of a table on a number of rows, by its number among the table's flushes.
#[derive(Drop)]
pub struct Flushed {
    pub table: u32,
    pub number: u32,
    pub rows: u32,
    pub shape: FlushShape,
}

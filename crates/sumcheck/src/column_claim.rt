//! Claims on columns.

use tower_field::{B128, Values};

/// The claim that a column's extension at a point is a value.
#[derive(Drop)]
pub struct ColumnClaim {
    pub table: u32,
    pub column: u32,
    pub point: Values,
    pub value: B128,
}

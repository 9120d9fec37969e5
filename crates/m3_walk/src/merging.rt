//! A merge with the column that it is of.

use eval_reduce::MergeWalk;

/// Claims on one column of a table.
#[derive(Drop)]
pub struct Merging {
    pub table: u32,
    pub column: u32,
    pub walk: MergeWalk,
}

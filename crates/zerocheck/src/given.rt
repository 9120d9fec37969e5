//! Lists that a prover is given.

ghost use Rattle.std.specs.Prelude.{◌≡◌, ◌↔◌, ◌≤◌, ◌^◌, IsTrue, IfOk, IsSome, Some};
ghost use Rattle.table_shape.specs.Limits.{max_rows};
ghost use Rattle.zerocheck.specs.Given.{AreThere, IsThere};
ghost use Rattle.zerocheck.specs.Group.{Group as Constraints, group_of};

use crate::group::Group;
use crate::no_memory::NoMemory;
use std::alloc::Global;
use sumcheck::ColumnTables;
use table_shape::Shape;

/// Whether a list of this length is there for a column.
fn is_there(tables: &ColumnTables, table: u32, column: u32, count: u64) -> bool
    ensures { IsTrue result ↔ IsThere tables.now table count column }
{
    match tables.get(table, column) {
        Some(list) => list.len() as u64 == count,
        None => false,
    }
}

/// Whether lists of this length are there for columns.
fn are_there(tables: &ColumnTables, table: u32, columns: &[u32], count: u64) -> bool
    ensures { IsTrue result ↔ AreThere tables.now table count columns.now }
{
    for column in columns {
        if !is_there(tables, table, *column, count) {
            return false;
        }
    }
    true
}

/// Whether `tables` has a list of one value for each position for every column that a table's
/// constraints of `2 ^ log_values` values per row name, as `ZeroProver::begin` asks.
pub fn has_lists(
    alloc: Global,
    shape: &Shape,
    table: u32,
    log_values: u32,
    rows: u32,
    tables: &ColumnTables,
) -> Result<bool, NoMemory>
    requires some { IsSome (group_of shape.now.tables rows table log_values) }
    requires few { rows ≤ max_rows }
    ensures { IfOk result (λ there. (g : Constraints) → group_of shape.now.tables rows table log_values ≡ Some g → (IsTrue there ↔ AreThere tables.now g.table (2 ^ g.vars) g.columns)) }
{
    let group = Group::of(alloc, shape, table, log_values, rows)?;
    let count = 1u64 << group.vars;
    Ok(are_there(tables, group.table, group.columns.as_slice(), count))
}

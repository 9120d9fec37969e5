//! Lists that a prover is given.

ghost use Rattle.std.specs.Prelude.{◌≡◌, ◌↔◌, ℕ, ◌≤◌, ◌^◌, IsTrue, IfOk, length, slice_index};
ghost use Rattle.std.specs.List.{AllByRecursion};
ghost use Rattle.list_laws.specs.CeilLog.{ceil_log};
ghost use Rattle.table_shape.specs.Limits.{max_rows};
ghost use Rattle.channel_products.specs.Channels.{channels_of};
ghost use Rattle.channel_products.specs.DescentFields.{EachIsThere};
ghost use Rattle.channel_products.specs.Given.{selector_columns, AreThere, FlushIsThere, IsThere};

use crate::channels::Channels;
use crate::flushed::Flushed;
use crate::no_memory::NoMemory;
use std::alloc::Global;
use sumcheck::ColumnTables;
use table_shape::{Shape, ceil_log};

/// Whether a list of this length is there for a column.
fn is_there(tables: &ColumnTables, table: u32, column: u32, count: u64) -> bool
    ensures { IsTrue result ↔ IsThere tables.now table count column }
{
    match tables.get(table, column) {
        Some(list) => list.len() as u64 == count,
        None => false,
    }
}

/// Whether lists of this length are there for columns.
fn are_there(tables: &ColumnTables, table: u32, columns: &[u32], count: u64) -> bool
    ensures { IsTrue result ↔ AllByRecursion (IsThere tables.now table count) columns.now }
{
    for column in columns {
        if !is_there(tables, table, *column, count) {
            return false;
        }
    }
    true
}

/// Whether a list of this length is there for a selector, where there is one.
fn selector_is_there(tables: &ColumnTables, table: u32, selector: Option<u32>, count: u64) -> bool
    ensures { IsTrue result ↔ AllByRecursion (IsThere tables.now table count) (selector_columns selector) }
{
    match selector {
        Some(column) => is_there(tables, table, column, count),
        None => true,
    }
}

/// How many rows a table of so many has once it is filled up.
fn filled_up(rows: u32) -> u64
    ensures { result ≡ 2 ^ ceil_log rows }
{
    1 << ceil_log(u64::from(rows))
}

/// Whether a list is there for each column that a flush names, with a value for each row of the
/// filled-up table.
fn flush_is_there(tables: &ColumnTables, flush: &Flushed) -> bool
    ensures { IsTrue result ↔ FlushIsThere tables.now flush.now }
{
    let count = filled_up(flush.rows);
    let selector = selector_is_there(tables, flush.table, flush.shape.selector, count);
    let columns = are_there(tables, flush.table, flush.shape.columns.as_slice(), count);
    selector && columns
}

/// Whether the lists of all these flushes are there.
fn all_there(tables: &ColumnTables, flushes: &[Flushed]) -> bool
    ensures { IsTrue result ↔ AreThere tables.now flushes.now }
{
    for flush in flushes {
        if !flush_is_there(tables, flush) {
            return false;
        }
    }
    true
}

/// Whether `tables` has a list for every column that a flush of the shape names, with a value for each
/// row of the filled-up table, as `BalanceProver::begin` and `ProductProver::begin` ask.
pub fn has_lists(
    alloc: Global,
    shape: &Shape,
    rows: &[u32],
    tables: &ColumnTables,
) -> Result<bool, NoMemory>
    requires counts { length rows.now ≡ length shape.now.tables }
    requires few { (t : ℕ) → slice_index rows.now t ≤ max_rows }
    ensures all { IfOk result (λ there. let channels = channels_of shape.now rows.now in (IsTrue there ↔ AreThere tables.now channels.flushes)) }
    ensures each { IfOk result (λ there. IsTrue there → EachIsThere shape.now.tables rows.now tables.now) }
{
    let channels = Channels::of(alloc, shape, rows)?;
    Ok(all_there(tables, channels.flushes.as_slice()))
}

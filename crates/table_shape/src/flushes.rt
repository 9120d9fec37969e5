//! Flushes: their channels, columns and selectors resolved and checked.

ghost use Rattle.std.specs.Prelude.{◌≡◌, ◌≤◌, ◌==◌, length, map, IfOk};
ghost use Rattle.std.specs.List.{list_all};
ghost use Rattle.table_shape.specs.Fits.{AreSized, FlushesFit, TableFits};
ghost use Rattle.table_shape.specs.Limits.{max_channels, max_columns};
ghost use Rattle.table_shape.specs.Shape.{all_some, is_selector, number_of_name, resolved_flush, resolved_selector, with_flush};
ghost use Rattle.table_shape.specs.ShapeGives.{Gives};
ghost use Rattle.table_shape.specs.Width.{log_values_at};

use crate::channels::{Channels, width_at};
use crate::draft::TableDraft;
use crate::fault::{ShapeKind, ShapeStop, refused};
use crate::levels::level_at;
use crate::limits::MAX_FLUSHES;
use crate::shape::{ColumnShape, FlushShape, Numbers32};
use crate::width::log_values_at;
use sqlite_items::Items;
use std::alloc::{AllocError, Global};
use table_text::{Name, Side};

/// The numbers of the columns of these names, if each name is known.
fn numbers_of(
    alloc: Global,
    names: &[Name],
    table: &TableDraft<'_>,
) -> Result<Option<Numbers32>, AllocError>
    requires { length table.now.columns ≤ max_columns }
    ensures { IfOk result (λ found. found ≡ all_some (map (λ name. number_of_name name table.now.columns) names.now)) }
{
    let mut found = Items::new(alloc);
    for name in names {
        match table.number_of(name) {
            Some(column) => found.push(column)?,
            None => return Ok(None),
        }
    }
    Ok(Some(found))
}

/// The number of a selector, if its name is known or there is no selector.
fn resolved_selector(selector: &Option<Name>, table: &TableDraft<'_>) -> Option<Option<u32>>
    requires { length table.now.columns ≤ max_columns }
    ensures { result ≡ resolved_selector table.now.columns selector.now }
{
    match selector {
        None => Some(None),
        Some(name) => table.number_of(name).map(Some),
    }
}

/// The flush with numbers in place of names, if each name is known.
fn resolved_flush(
    alloc: Global,
    side: Side,
    channel: &Name,
    names: &[Name],
    selector: &Option<Name>,
    channels: &Channels<'_>,
    table: &TableDraft<'_>,
) -> Result<Option<FlushShape>, AllocError>
    requires few_channels { length channels.now ≤ max_channels }
    requires few_columns { length table.now.columns ≤ max_columns }
    ensures { IfOk result (λ found. found ≡ resolved_flush channels.now table.now.columns side channel.now names.now selector.now) }
{
    let Some(channel) = channels.number_of(channel) else {
        return Ok(None);
    };
    let Some(numbers) = numbers_of(alloc, names, table)? else {
        return Ok(None);
    };
    let Some(selector) = resolved_selector(selector, table) else {
        return Ok(None);
    };
    Ok(Some(FlushShape {
        side,
        channel,
        columns: numbers,
        selector,
    }))
}

/// Whether each of these columns has one value per row.
fn have_one_value(numbers: &[u32], columns: &[ColumnShape]) -> bool
    requires { AreSized columns.now }
    ensures { result ≡ list_all (λ c. log_values_at columns.now c == 0) numbers.now }
{
    for column in numbers {
        if log_values_at(columns, *column) != 0 {
            return false;
        }
    }
    true
}

/// Whether a selector has one bit per row, or there is none.
fn is_selector(selector: Option<u32>, columns: &[ColumnShape]) -> bool
    requires { AreSized columns.now }
    ensures { result ≡ is_selector columns.now selector }
{
    match selector {
        None => true,
        Some(column) => level_at(columns, column) == 0 && log_values_at(columns, column) == 0,
    }
}

/// The table with a flush more, declared by `item` after these channels.
pub(crate) fn with_flush<'a>(
    alloc: Global,
    item: u32,
    side: Side,
    channel: &Name,
    names: &[Name],
    selector: &Option<Name>,
    channels: &Channels<'_>,
    table: TableDraft<'a>,
) -> Result<TableDraft<'a>, ShapeStop>
    requires few { length channels.now ≤ max_channels }
    requires fits { TableFits table }
    ensures exact { Gives result (with_flush item channels.now side channel.now names.now selector.now table.entry) }
    ensures fits { IfOk result TableFits }
{
    if table.flushes().len() >= MAX_FLUSHES {
        return refused(item, ShapeKind::TooMany);
    }
    let Some(flush) = resolved_flush(alloc, side, channel, names, selector, channels, &table)?
    else {
        return refused(item, ShapeKind::UnknownName);
    };
    let columns = table.columns();
    if flush.columns.len() != width_at(channels.as_slice(), flush.channel) as usize {
        return refused(item, ShapeKind::TupleWidth);
    }
    if !have_one_value(flush.columns.as_slice(), columns) {
        return refused(item, ShapeKind::NotOneValue);
    }
    if !is_selector(flush.selector, columns) {
        return refused(item, ShapeKind::SelectorNotBit);
    }
    Ok(table.add_flush(flush)?)
}

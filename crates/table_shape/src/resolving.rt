//! Declarations resolved, each in its turn.

ghost use Rattle.std.specs.Prelude.{◌≡◌, ◌≤◌, ◌+◌, ◌<◌, ◌^◌, [], ◌∷◌, length, IfOk, Ok};
ghost use Rattle.sha2.specs.Sha256.{sha256};
ghost use Rattle.table_text.specs.Canonical.{canonical};
ghost use Rattle.table_shape.specs.Limits.{max_channels};
ghost use Rattle.table_text.specs.Limits.{max_level, max_log_values};
ghost use Rattle.table_text.specs.Valid.{ItemLevelsFit};
ghost use Rattle.table_shape.specs.Fits.{TableFits};
ghost use Rattle.table_shape.specs.Shape.{begun_table, shape_of, with_column, with_item, with_items};
ghost use Rattle.table_shape.specs.ShapeGives.{Gives};
ghost use Rattle.table_shape.specs.ShapeMeaning.{IsShapedWhereMeant};

use crate::channels::{Channels, with_boundary, with_channel};
use crate::constraints::with_constraint;
use crate::copying::copied_name;
use crate::draft::TableDraft;
use crate::fault::{ShapeKind, ShapeStop, refused};
use crate::flushes::with_flush;
use crate::forms::with_virtual;
use crate::limits::{MAX_COLUMNS, MAX_TABLES};
use crate::lookup::has_table;
use crate::shape::{ColumnKind, Shape, TableShape};
use sha2::{Digest, Sha256};
use sqlite_items::Items;
use std::alloc::Global;
use table_text::{Decl, Item, Name, Tables, print_tables};

/// The table with a committed column more, declared by `item`.
fn with_column<'a>(
    alloc: Global,
    item: u32,
    name: &'a Name,
    level: u32,
    log_values: u32,
    table: TableDraft<'a>,
) -> Result<TableDraft<'a>, ShapeStop>
    requires fits { TableFits table }
    requires level { level ≤ max_level }
    requires log_values { log_values ≤ max_log_values }
    ensures exact { Gives result (with_column item name.now level log_values table.entry) }
    ensures fits { IfOk result TableFits }
{
    if table.columns().len() >= MAX_COLUMNS {
        return refused(item, ShapeKind::TooMany);
    }
    if table.has_column(name) {
        return refused(item, ShapeKind::DoubleName);
    }
    let kind = ColumnKind::Committed;
    Ok(table.add_column(alloc, name, level, log_values, kind)?)
}

/// The table with what an item declares, whose number is `number`, after these channels.
fn with_item<'a>(
    alloc: Global,
    number: u32,
    item: &'a Item,
    channels: &Channels<'_>,
    table: TableDraft<'a>,
) -> Result<TableDraft<'a>, ShapeStop>
    requires few { length channels.now ≤ max_channels }
    requires fits { TableFits table }
    requires levels { ItemLevelsFit (item.now ∷ []) }
    ensures exact { Gives result (with_item number channels.now item.now table.entry) }
    ensures fits { IfOk result TableFits }
{
    match item {
        Item::Column {
            name,
            level,
            log_values,
        } => with_column(alloc, number, name, *level, *log_values, table),
        Item::Virtual { name, form } => with_virtual(alloc, number, name, form, table),
        Item::Zero { name, expr } => with_constraint(alloc, number, name, expr, table),
        Item::Flush {
            side,
            channel,
            columns,
            selector,
        } => with_flush(
            alloc,
            number,
            *side,
            channel,
            columns.as_slice(),
            selector,
            channels,
            table,
        ),
    }
}

/// The table with these items, the first of which has the number `first`, after these channels.
fn with_items<'a>(
    alloc: Global,
    first: u32,
    items: &'a [Item],
    channels: &Channels<'_>,
    mut table: TableDraft<'a>,
) -> Result<TableDraft<'a>, ShapeStop>
    requires few_channels { length channels.now ≤ max_channels }
    requires fits { TableFits table }
    requires levels { ItemLevelsFit items.now }
    requires few { first + length items.now < 2 ^ 32 }
    ensures exact { Gives result (with_items first channels.now items.now table.entry) }
    ensures fits { IfOk result TableFits }
{
    let mut number = first;
    for item in items {
        table = with_item(alloc, number, item, channels, table)?;
        number += 1;
    }
    Ok(table)
}

/// A table of this name with nothing in it, declared by `item`.
fn begun_table<'a>(
    alloc: Global,
    item: u32,
    name: &Name,
    tables: &[TableShape],
) -> Result<TableDraft<'a>, ShapeStop>
    ensures exact { Gives result (begun_table item name.now tables.now) }
    ensures fits { IfOk result TableFits }
{
    if tables.len() >= MAX_TABLES {
        return refused(item, ShapeKind::TooMany);
    }
    if has_table(name, tables) {
        return refused(item, ShapeKind::DoubleName);
    }
    Ok(TableDraft::new(alloc, copied_name(alloc, name)?))
}

/// SHA-256 of the canonical text.
fn digest_of(alloc: Global, tables: &Tables) -> Result<[u8; 32], ShapeStop>
    ensures { Gives result (Ok (sha256 (canonical tables.now))) }
{
    match print_tables(alloc, tables) {
        Ok(text) => Ok(Sha256::digest(text.as_slice())),
        Err(_) => Err(ShapeStop::NoMemory),
    }
}

/// What it means that declarations have a shape: its channels, boundaries and tables are those that
/// they declare, over what stands before them by its numbers, names differ, no limit is exceeded,
/// and the digest is that of the canonical text.
pub fn shaped_where_meant()
    ensures { IsShapedWhereMeant }
{}

/// The shape of declarations, or their first fault.
pub fn resolve(alloc: Global, tables: &Tables) -> Result<Shape, ShapeStop>
    ensures { Gives result (shape_of tables.now) }
{
    let digest = digest_of(alloc, tables)?;
    let mut channels = Channels::new(alloc);
    let mut boundaries = Items::new(alloc);
    let mut shapes = Items::new(alloc);
    let mut number = 0;
    for decl in tables.decls() {
        match decl {
            Decl::Channel { name, width } => {
                channels = with_channel(alloc, number, name, *width, channels)?;
                number += 1;
            }
            Decl::Boundary {
                side,
                channel,
                values,
            } => {
                let values = values.as_slice();
                boundaries = with_boundary(
                    alloc, number, *side, channel, values, &channels, boundaries,
                )?;
                number += 1;
            }
            Decl::Table { name, items } => {
                let table = begun_table(alloc, number, name, shapes.as_slice())?;
                let table = with_items(alloc, number + 1, items.as_slice(), &channels, table)?;
                shapes.push(table.into_table())?;
                number += 1 + items.len() as u32;
            }
        }
    }
    Ok(Shape::of(channels.into_shapes(), boundaries, shapes, digest))
}

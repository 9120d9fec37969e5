//! Where the tuples of a channel come from.

ghost use Rattle.std.specs.Prelude.{◌≡◌, ◌+◌, ◌<◌, ◌≤◌, ◌++◌, ◌&&◌, ◌==◌, length, map, get_or, option_map, slice_index, slice_get, IfOk, OnOk, Some};
ghost use Rattle.std.specs.List.{filter, flat_map};
ghost use Rattle.table_shape.specs.Channels.{boundary_tuples, flush_tuples, is_boundary_of, is_flush_of, is_taken, same_side, table_tuples, tuples};
ghost use Rattle.table_shape.specs.Filling.{values_of};
ghost use Rattle.table_shape.specs.Fits.{TableFits};
ghost use Rattle.m3_judge.specs.Sources.{flush_at, tuple_of, tuples_of};

use crate::constraints::number_at;
use column_store::Store;
use std::alloc::{AllocError, Global};
use table_shape::{BoundaryShape, FlushShape, TableShape};
use table_text::Side;
use tower_field::{B128, Tower, Values};

/// Where a tuple comes from.
#[derive(Clone, Copy, Debug, PartialEq, Eq)]
pub(crate) enum Source {
    /// A row of a flush of a table.
    Row { table: u32, flush: u32, row: u32 },
    /// A boundary.
    Boundary { boundary: u32 },
}

/// How many numbers a tuple has.
pub(crate) fn len_of(store: &Store, source: Source) -> usize
    ensures { result ≡ length (tuple_of store.now.shape store.now.filling source) }
{
    match source {
        Source::Row { table, flush, .. } => {
            let Some(table) = store.shape().tables().get(table as usize) else {
                return 0;
            };
            match table.flushes.as_slice().get(flush as usize) {
                Some(flush) => flush.columns.len(),
                None => 0,
            }
        }
        Source::Boundary { boundary } => {
            match store.shape().boundaries().get(boundary as usize) {
                Some(boundary) => boundary.values.as_slice().len(),
                None => 0,
            }
        }
    }
}

/// Number k of a tuple, and 0 where it has none.
pub(crate) fn member(store: &Store, source: Source, k: usize) -> u128
    ensures { result ≡ get_or (tuple_of store.now.shape store.now.filling source) k 0 }
{
    match source {
        Source::Row { table, flush, row } => {
            let Some(shape) = store.shape().tables().get(table as usize) else {
                return 0;
            };
            let Some(flush) = shape.flushes.as_slice().get(flush as usize) else {
                return 0;
            };
            match flush.columns.as_slice().get(k) {
                Some(column) => number_at(store.columns(table), *column, row as usize),
                None => 0,
            }
        }
        Source::Boundary { boundary } => {
            let Some(boundary) = store.shape().boundaries().get(boundary as usize) else {
                return 0;
            };
            match boundary.values.as_slice().get(k) {
                Some(value) => value.number(),
                None => 0,
            }
        }
    }
}

/// A tuple as a list of elements.
pub(crate) fn tuple_of(alloc: Global, store: &Store, source: Source) -> Result<Values, AllocError>
    ensures { IfOk result (λ tuple. tuple ≡ tuple_of store.now.shape store.now.filling source) }
{
    let mut members = Vec::new(alloc);
    for k in 0..len_of(store, source) {
        members.push(element(member(store, source, k)))?;
    }
    Ok(Values::from_vec(members))
}

fn element(n: u128) -> B128
    ensures { result ≡ n }
{
    match B128::from_number(n) {
        Some(element) => element,
        None => unreachable!(),
    }
}

/// Whether two sides are one.
fn is_side(one: Side, other: Side) -> bool
    ensures { result ≡ same_side one other }
{
    match (one, other) {
        (Side::Push, Side::Push) | (Side::Pull, Side::Pull) => true,
        (Side::Push, Side::Pull) | (Side::Pull, Side::Push) => false,
    }
}

/// Whether a flush is of this side of this channel.
fn is_flush_of(side: Side, channel: u32, flush: &FlushShape) -> bool
    ensures { result ≡ is_flush_of side channel flush.now }
{
    is_side(side, flush.side) && channel == flush.channel
}

fn is_boundary_of(side: Side, channel: u32, boundary: &BoundaryShape) -> bool
    ensures { result ≡ is_boundary_of side channel boundary.now }
{
    is_side(side, boundary.side) && channel == boundary.channel
}

/// Whether a flush takes a row.
fn takes(store: &Store, table: u32, flush: &FlushShape, row: u32) -> bool
    requires { table < length store.now.shape.tables }
    ensures { result ≡ is_taken (values_of store.now.filling table) flush.now.selector row }
{
    match flush.selector {
        None => true,
        Some(selector) => number_at(store.columns(table), selector, row as usize) == 1,
    }
}

/// Appends the tuples of a flush: those of the first rows that it takes.
fn push_rows(
    store: &Store,
    table: u32,
    number: u32,
    flush: &FlushShape,
    rows: u32,
    sources: &mut Vec<Source>,
) -> Result<(), AllocError>
    requires there { table < length store.now.shape.tables }
    requires is { flush_at store.now.shape.tables table number ≡ Some flush.now }
    ensures { OnOk result (tuples_of store.now.shape store.now.filling sources.new.items ≡ tuples_of store.now.shape store.now.filling sources.old.items ++ flush_tuples (values_of store.now.filling table) rows flush.now) }
{
    for row in 0..rows {
        if takes(store, table, flush, row) {
            sources.push(Source::Row {
                table,
                flush: number,
                row,
            })?;
        }
    }
    Ok(())
}

/// Appends the tuples of one side of a channel that a table has.
fn push_flushes(
    store: &Store,
    side: Side,
    channel: u32,
    number: u32,
    table: &TableShape,
    sources: &mut Vec<Source>,
) -> Result<(), AllocError>
    requires is { slice_get store.now.shape.tables number ≡ Some table.now }
    requires fits { TableFits table.now }
    ensures { OnOk result (tuples_of store.now.shape store.now.filling sources.new.items ≡ tuples_of store.now.shape store.now.filling sources.old.items ++ flat_map (flush_tuples (values_of store.now.filling number) (slice_index store.now.rows number)) (filter (is_flush_of side channel) table.now.flushes)) }
{
    let rows = store.rows()[number as usize];
    for (k, flush) in table.flushes.as_slice().iter().enumerate() {
        if is_flush_of(side, channel, flush) {
            push_rows(store, number, k as u32, flush, rows, sources)?;
        }
    }
    Ok(())
}

/// Appends those that boundaries have.
fn push_boundaries(
    store: &Store,
    side: Side,
    channel: u32,
    sources: &mut Vec<Source>,
) -> Result<(), AllocError>
    ensures { OnOk result (tuples_of store.now.shape store.now.filling sources.new.items ≡ tuples_of store.now.shape store.now.filling sources.old.items ++ boundary_tuples side channel store.now.shape.boundaries) }
{
    for (k, boundary) in store.shape().boundaries().iter().enumerate() {
        if is_boundary_of(side, channel, boundary) {
            sources.push(Source::Boundary { boundary: k as u32 })?;
        }
    }
    Ok(())
}

/// Where all tuples of one side of a channel come from.
pub(crate) fn sources_of(
    alloc: Global,
    store: &Store,
    side: Side,
    channel: u32,
) -> Result<Vec<Source>, AllocError>
    ensures { IfOk result (λ sources. tuples_of store.now.shape store.now.filling sources.items ≡ tuples side store.now.shape store.now.rows store.now.filling channel) }
{
    let mut sources = Vec::new(alloc);
    for (number, table) in store.shape().tables().iter().enumerate() {
        push_flushes(store, side, channel, number as u32, table, &mut sources)?;
    }
    push_boundaries(store, side, channel, &mut sources)?;
    Ok(sources)
}

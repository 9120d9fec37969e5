//! The channels of a shape on some rows.

ghost use Rattle.std.specs.Prelude.{◌≡◌, ℕ, ◌≤◌, ◌++◌, length, map, slice_index, IfOk, OnOk};
ghost use Rattle.table_shape.specs.Fits.{ShapeFits};
ghost use Rattle.table_shape.specs.Limits.{max_flushes, max_rows};
ghost use Rattle.table_shape.specs.declared.shape.ChannelShape.{ChannelShape as Channel};
ghost use Rattle.channel_products.specs.Channels.{channels_of, flushes_from, flushes_of};

use crate::counts::{alpha_count, gamma_count};
use crate::flushed::Flushed;
use crate::no_memory::NoMemory;
use sqlite_items::Items;
use std::alloc::{AllocError, Global};
use table_shape::{BoundaryShape, ChannelShape, FlushShape, Shape};
use tower_field::{B128, Values};

/// The widths of channels, all flushes in order of declaration, the boundaries, and the most alphas and
/// gammas that may hide that a channel is out of balance.
#[derive(Drop)]
pub struct Channels {
    pub(crate) widths: Items<u32>,
    pub(crate) flushes: Items<Flushed>,
    pub(crate) boundaries: Items<BoundaryShape>,
    pub(crate) alphas: u64,
    pub(crate) gammas: u64,
}

/// The widths of channels.
fn widths_of(alloc: Global, channels: &[ChannelShape]) -> Result<Items<u32>, AllocError>
    ensures { IfOk result (λ widths. widths ≡ map (λ (c : Channel). c.width) channels.now) }
{
    let mut widths = Items::new(alloc);
    for channel in channels {
        widths.push(channel.width)?;
    }
    Ok(widths)
}

/// A list of the same elements, in memory of its own.
fn copied_values(alloc: Global, values: &[B128]) -> Result<Values, AllocError>
    ensures { IfOk result (λ copy. copy ≡ values.now) }
{
    let mut copy = Vec::new(alloc);
    copy.extend_from_slice(values)?;
    Ok(Values::from_vec(copy))
}

/// Copies of boundaries.
fn copied_boundaries(
    alloc: Global,
    boundaries: &[BoundaryShape],
) -> Result<Items<BoundaryShape>, AllocError>
    ensures { IfOk result (λ copies. copies ≡ boundaries.now) }
{
    let mut copies = Items::new(alloc);
    for boundary in boundaries {
        let values = copied_values(alloc, boundary.values.as_slice())?;
        copies.push(BoundaryShape {
            side: boundary.side,
            channel: boundary.channel,
            values,
        })?;
    }
    Ok(copies)
}

/// A copy of a flush.
pub(crate) fn copied_flush(alloc: Global, flush: &FlushShape) -> Result<FlushShape, AllocError>
    ensures { IfOk result (λ copy. copy ≡ flush.now) }
{
    Ok(FlushShape {
        side: flush.side,
        channel: flush.channel,
        columns: Items::from_slice(alloc, flush.columns.as_slice())?,
        selector: flush.selector,
    })
}

/// Appends the flushes of a table on a number of rows.
fn append_flushes(
    alloc: Global,
    table: u32,
    rows: u32,
    flushes: &[FlushShape],
    all: &mut Items<Flushed>,
) -> Result<(), AllocError>
    requires { length flushes.now ≤ max_flushes }
    ensures { OnOk result (all.new ≡ all.old ++ flushes_of table rows 0 flushes.now) }
{
    for (number, flush) in flushes.iter().enumerate() {
        let shape = copied_flush(alloc, flush)?;
        all.push(Flushed {
            table,
            number: number as u32,
            rows,
            shape,
        })?;
    }
    Ok(())
}

/// The flushes of all tables.
fn all_flushes(alloc: Global, shape: &Shape, rows: &[u32]) -> Result<Items<Flushed>, AllocError>
    requires { length rows.now ≡ length shape.now.tables }
    ensures { IfOk result (λ flushes. flushes ≡ flushes_from rows.now 0 shape.now.tables) }
{
    let mut all = Items::new(alloc);
    for (t, table) in shape.tables().iter().enumerate() {
        append_flushes(alloc, t as u32, rows[t], table.flushes.as_slice(), &mut all)?;
    }
    Ok(all)
}

impl Channels {
    /// Those of a shape on some rows.
    pub fn of(alloc: Global, shape: &Shape, rows: &[u32]) -> Result<Channels, NoMemory>
        requires counts { length rows.now ≡ length shape.now.tables }
        requires few { (t : ℕ) → slice_index rows.now t ≤ max_rows }
        ensures channels { IfOk result (λ channels. channels ≡ channels_of shape.now rows.now) }
        ensures fits { ShapeFits shape.now }
    {
        Ok(Channels {
            widths: widths_of(alloc, shape.channels())?,
            flushes: all_flushes(alloc, shape, rows)?,
            boundaries: copied_boundaries(alloc, shape.boundaries())?,
            alphas: alpha_count(shape, rows),
            gammas: gamma_count(shape, rows),
        })
    }
}

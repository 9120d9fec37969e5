//! The reductions of channels: their balance, and the products of flushes.

ghost use Rattle.std.specs.Prelude.{◌≡◌, ℕ, ◌≤◌, ◌++◌, ◌∷◌, [], length, map, slice_get, slice_index, IfOk, IsSome, OnOk, Some};
ghost use Rattle.table_shape.specs.Limits.{max_rows};
ghost use Rattle.table_shape.specs.declared.shape.FlushShape.{FlushShape as Flush};
ghost use Rattle.channel_products.specs.Channels.{flushes_from, flushes_of};
ghost use Rattle.channel_products.specs.DescentFields.{flush_in};
ghost use Rattle.proof_plan.specs.Small.{TableIsSmall};
ghost use Rattle.m3_walk.specs.Course.{channel_stages, flush_stage};

use crate::appending::push_stage;
use crate::no_memory::NoMemory;
use crate::stage::Stage;
use crate::tables::{table_at, table_count};
use channel_products::{BalanceWalk, ProductWalk};
use std::alloc::Global;
use table_shape::{Shape, TableShape};

/// The product of a flush.
fn push_flush(
    alloc: Global,
    shape: &Shape,
    table: u32,
    flush: u32,
    rows: u32,
    stages: &mut Vec<Stage>,
) -> Result<(), NoMemory>
    requires some { IsSome (flush_in shape.now.tables table flush) }
    requires few { rows ≤ max_rows }
    ensures { OnOk result ((f : Flush) → flush_in shape.now.tables table flush ≡ Some f → stages.new.items ≡ stages.old.items ++ flush_stage (record { table = table; number = flush; rows = rows; shape = f }) ∷ []) }
{
    let walk = ProductWalk::begin(alloc, shape, table, flush, rows)?;
    push_stage(Stage::Flush(walk), stages)
}

/// The products of the flushes of table `t`.
fn push_flushes(
    alloc: Global,
    shape: &Shape,
    t: u32,
    table: &TableShape,
    rows: u32,
    stages: &mut Vec<Stage>,
) -> Result<(), NoMemory>
    requires table { slice_get shape.now.tables t ≡ Some table.now }
    requires small { TableIsSmall table.now }
    requires few { rows ≤ max_rows }
    ensures { OnOk result (stages.new.items ≡ stages.old.items ++ map flush_stage (flushes_of t rows 0 table.now.flushes)) }
{
    let flushes = table.flushes.len() as u32;
    for flush in 0..flushes {
        push_flush(alloc, shape, t, flush, rows, stages)?;
    }
    Ok(())
}

/// The products of all flushes.
fn push_all_flushes(
    alloc: Global,
    shape: &Shape,
    rows: &[u32],
    stages: &mut Vec<Stage>,
) -> Result<(), NoMemory>
    requires counts { length rows.now ≡ length shape.now.tables }
    requires few { (t : ℕ) → slice_index rows.now t ≤ max_rows }
    ensures { OnOk result (stages.new.items ≡ stages.old.items ++ map flush_stage (flushes_from rows.now 0 shape.now.tables)) }
{
    for t in 0..table_count(shape) {
        let table = table_at(shape, t);
        push_flushes(alloc, shape, t, table, rows[t as usize], stages)?;
    }
    Ok(())
}

/// Channels and all flushes, where there is a channel.
pub(crate) fn push_channels(
    alloc: Global,
    shape: &Shape,
    rows: &[u32],
    stages: &mut Vec<Stage>,
) -> Result<(), NoMemory>
    requires counts { length rows.now ≡ length shape.now.tables }
    requires few { (t : ℕ) → slice_index rows.now t ≤ max_rows }
    ensures { OnOk result (stages.new.items ≡ stages.old.items ++ channel_stages shape.now rows.now) }
{
    if shape.channels().is_empty() {
        return Ok(());
    }
    let walk = BalanceWalk::begin(alloc, shape, rows)?;
    push_stage(Stage::Channels(walk), stages)?;
    push_all_flushes(alloc, shape, rows, stages)
}

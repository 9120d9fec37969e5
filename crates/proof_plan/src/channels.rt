//! The entries of channels and of the products of flushes.

ghost use Rattle.std.specs.Prelude.{◌≡◌, ◌++◌, ◌+◌, ◌≤◌, ℕ, length, slice_index, OnOk};
ghost use Rattle.std.specs.List.{AllByRecursion, flat_map};
ghost use Rattle.table_shape.specs.Limits.{max_rows, max_tables};
ghost use Rattle.channel_products.specs.Given.{named_columns};
ghost use Rattle.proof_plan.specs.Plan.{channel_entries, flush_count, flush_entries, flushes_entries, layer_entries};
ghost use Rattle.proof_plan.specs.Small.{FlushIsSmall, TableIsSmall};

use crate::plan_entry::PlanEntry;
use crate::rounds::{push_rounds, push_sum};
use channel_products::{alpha_count, gamma_count};
use poly_forms::{CheckKind, DrawKind};
use std::alloc::AllocError;
use table_shape::{FlushShape, Shape, TableShape, ceil_log};

/// The layers from the first down to the leaves, `vars` below it, and the leaves.
fn push_layers(columns: u32, vars: u32, entries: &mut Vec<PlanEntry>) -> Result<(), AllocError>
    ensures { OnOk result (entries.new.items ≡ entries.old.items ++ layer_entries columns 0 vars) }
{
    for layer in 0..vars {
        push_rounds(DrawKind::LayerRound, 3, layer, entries)?;
        entries.push(PlanEntry::Message {
            check: CheckKind::LayerFinal,
            length: 2,
        })?;
        entries.push(PlanEntry::Draw {
            kind: DrawKind::LayerJoin,
            count: 1,
        })?;
    }
    push_sum(
        DrawKind::LeafRound,
        4,
        vars,
        CheckKind::LeafFinal,
        columns,
        entries,
    )
}

/// How many columns the leaves of a flush are made from.
fn column_count(flush: &FlushShape) -> u32
    requires { FlushIsSmall flush.now }
    ensures { result ≡ length (named_columns flush.now) }
{
    let selectors = match flush.selector {
        Some(_) => 1,
        None => 0,
    };
    selectors + flush.columns.len() as u32
}

/// The flushes of a table.
fn push_flushes(
    rows: u32,
    flushes: &[FlushShape],
    entries: &mut Vec<PlanEntry>,
) -> Result<(), AllocError>
    requires { AllByRecursion FlushIsSmall flushes.now }
    ensures { OnOk result (entries.new.items ≡ entries.old.items ++ flat_map (flush_entries rows) flushes.now) }
{
    let vars = ceil_log(u64::from(rows));
    for flush in flushes {
        push_layers(column_count(flush), vars, entries)?;
    }
    Ok(())
}

/// The flushes of all tables.
fn push_all_flushes(
    rows: &[u32],
    tables: &[TableShape],
    entries: &mut Vec<PlanEntry>,
) -> Result<(), AllocError>
    requires counts { length rows.now ≡ length tables.now }
    requires small { AllByRecursion TableIsSmall tables.now }
    ensures { OnOk result (entries.new.items ≡ entries.old.items ++ flushes_entries rows.now 0 tables.now) }
{
    for (t, table) in tables.iter().enumerate() {
        push_flushes(rows[t], table.flushes.as_slice(), entries)?;
    }
    Ok(())
}

/// How many flushes all tables have.
fn flush_count(tables: &[TableShape]) -> u32
    requires few { length tables.now ≤ max_tables }
    requires small { AllByRecursion TableIsSmall tables.now }
    ensures { result ≡ flush_count tables.now }
{
    let mut count = 0;
    for table in tables {
        count += table.flushes.len() as u32;
    }
    count
}

/// Channels and all flushes, where there is a channel.
pub fn push_channels(
    shape: &Shape,
    rows: &[u32],
    entries: &mut Vec<PlanEntry>,
) -> Result<(), AllocError>
    requires counts { length rows.now ≡ length shape.now.tables }
    requires few { (t : ℕ) → slice_index rows.now t ≤ max_rows }
    requires small { AllByRecursion TableIsSmall shape.now.tables }
    ensures { OnOk result (entries.new.items ≡ entries.old.items ++ channel_entries shape.now rows.now) }
{
    if shape.channels().is_empty() {
        return Ok(());
    }
    entries.push(PlanEntry::Draw {
        kind: DrawKind::Alpha,
        count: alpha_count(shape, rows),
    })?;
    entries.push(PlanEntry::Draw {
        kind: DrawKind::Gamma,
        count: gamma_count(shape, rows),
    })?;
    entries.push(PlanEntry::Message {
        check: CheckKind::Products,
        length: flush_count(shape.tables()),
    })?;
    push_all_flushes(rows, shape.tables(), entries)
}

//! The reductions of a proof, before any message.

ghost use Rattle.std.specs.Prelude.{◌≡◌, ℕ, ◌+◌, ◌≤◌, ◌^◌, length, slice_index, IfOk};
ghost use Rattle.std.specs.List.{AllByRecursion};
ghost use Rattle.table_shape.specs.Limits.{max_rows, max_tables};
ghost use Rattle.table_shape.specs.Size.{size_log};
ghost use Rattle.table_shape.specs.SizeStop.{AnswersSize};
ghost use Rattle.proof_plan.specs.Plan.{first_columns, flush_count, plan, sources};
ghost use Rattle.proof_plan.specs.Small.{ColumnIsSmall, TableIsSmall};
ghost use Rattle.walk_chain.specs.Chain.{chained};
ghost use Rattle.m3_walk.specs.Course.{claim_count, source_count, walked};
ghost use Rattle.m3_walk.specs.Kept.{max_room};
ghost use Rattle.m3_walk.specs.Linked.{linking};
ghost use Rattle.m3_verifier.specs.Verdict.{first_state};

use m3_walk::{Kept, Stage, course, courses_are_plans};
use proof_plan::first_columns;
use std::alloc::{AllocError, Global};
use table_shape::{ColumnKind, ColumnShape, Shape, ShapeForm, SizeStop, TableShape};
use walk_chain::{ChainWalk, Linked};

/// How many columns a virtual one is made from.
fn sources_of(column: &ColumnShape) -> u32
    requires { ColumnIsSmall column.now }
    ensures count { result ≡ length (sources column.now.kind) }
    ensures few { result ≤ 64 }
{
    match &column.kind {
        ColumnKind::Committed => 0,
        ColumnKind::Virtual(ShapeForm::Linear { terms, .. }) => terms.len() as u32,
        ColumnKind::Virtual(_) => 1,
    }
}

/// How many columns the virtual ones among these are made from.
fn all_sources(columns: &[ColumnShape]) -> u32
    requires few { length columns.now ≤ 256 }
    requires small { AllByRecursion ColumnIsSmall columns.now }
    ensures count { result ≡ source_count columns.now }
    ensures few { result ≤ 2 ^ 14 }
{
    let mut count = 0;
    for column in columns {
        count += sources_of(column);
    }
    count
}

/// How many claims on a table's columns, and products of its flushes, can wait.
fn claims_of(alloc: Global, table: &TableShape) -> Result<u32, AllocError>
    requires { TableIsSmall table.now }
    ensures count { IfOk result (λ count. count ≡ length table.now.flushes + (length (first_columns table.now) + source_count table.now.columns)) }
    ensures few { IfOk result (λ count. count ≤ 2 ^ 16) }
{
    let first = first_columns(alloc, table)?;
    Ok(table.flushes.len() as u32 + (first.len() as u32 + all_sources(table.columns.as_slice())))
}

/// For how many claims there is to be memory.
fn room_for(alloc: Global, tables: &[TableShape]) -> Result<u32, AllocError>
    requires few { length tables.now ≤ max_tables }
    requires small { AllByRecursion TableIsSmall tables.now }
    ensures enough { IfOk result (λ room. room ≡ flush_count tables.now + claim_count tables.now) }
    ensures few { IfOk result (λ room. room ≤ max_room) }
{
    let mut room = 0;
    for table in tables {
        room += claims_of(alloc, table)?;
    }
    Ok(room)
}

/// All reductions of a proof of a shape's tables on these numbers of rows. Too large exactly where the
/// columns take more than 2^24 bits. It takes all memory that the reductions need.
pub fn first_walk(alloc: Global, shape: &Shape, rows: &[u32]) -> Result<ChainWalk<Stage>, SizeStop>
    requires counts { length rows.now ≡ length shape.now.tables }
    requires few { (t : ℕ) → slice_index rows.now t ≤ max_rows }
    ensures state { IfOk result (λ walk. walk ≡ first_state shape.now rows.now) }
    // What is due of them is the plan but for roots and queries.
    ensures entries { IfOk result (λ walk. walked (plan shape.now rows.now) ≡ (chained linking).entries walk) }
    ensures size { AnswersSize result (size_log shape.now.tables rows.now) }
{
    courses_are_plans();
    Stage::is_linked();
    let stages = course(alloc, shape, rows)?;
    let room = room_for(alloc, shape.tables())?;
    let kept = Kept::begin(alloc, room)?;
    Ok(ChainWalk::begin(Stage::Start, stages, kept))
}

//! The reductions of claims on columns, from the last column of a table to the first.

ghost use Rattle.std.specs.Prelude.{◌≡◌, ℕ, ◌≤◌, ◌<◌, ◌^◌, ◌++◌, length, slice_get, slice_index, IfOk, IsSome, OnOk, Some};
ghost use Rattle.table_shape.specs.Limits.{max_columns, max_rows, max_tables};
ghost use Rattle.eval_reduce.specs.Linear.{combination_of};
ghost use Rattle.eval_reduce.specs.Linear as linear;
ghost use Rattle.eval_reduce.specs.Pack.{packing_of};
ghost use Rattle.eval_reduce.specs.Pack as pack;
ghost use Rattle.eval_reduce.specs.Project.{projection_of};
ghost use Rattle.eval_reduce.specs.Project as project;
ghost use Rattle.eval_reduce.specs.Shift.{shifting_of};
ghost use Rattle.eval_reduce.specs.Shift as shift;
ghost use Rattle.eval_reduce.specs.Virtual.{column_of};
ghost use Rattle.proof_plan.specs.Plan.{backwards, bit_claims, committed_claims, first_columns};
ghost use Rattle.proof_plan.specs.Small.{ColumnIsSmall, TableIsSmall};
ghost use Rattle.m3_walk.specs.declared.stage.Stage.TheVariants as stage;
ghost use Rattle.m3_walk.specs.Course.{column_stages, columns_stages, form_stages, merge_stages, table_stages, when};

use crate::appending::push_stage;
use crate::merging::Merging;
use crate::no_memory::NoMemory;
use crate::stage::Stage;
use crate::tables::{table_at, table_count};
use eval_reduce::{LinearStep, MergeWalk, PackWalk, ProjectStep, ShiftWalk};
use proof_plan::{claim_sources, committed_count, first_columns, times_in};
use std::alloc::Global;
use table_shape::{ColumnKind, ColumnShape, Shape, ShapeForm, TableShape, ceil_log};

/// Claims on a column of `2 ^ vars` values become one.
fn push_merge(
    alloc: Global,
    table: u32,
    column: u32,
    vars: u32,
    claims: u32,
    stages: &mut Vec<Stage>,
) -> Result<(), NoMemory>
    requires { vars ≤ 32 }
    ensures { OnOk result (stages.new.items ≡ stages.old.items ++ merge_stages table column vars claims) }
{
    if claims < 2 {
        return Ok(());
    }
    let walk = MergeWalk::begin(alloc, vars, claims)?;
    push_stage(
        Stage::Merge(Merging {
            table,
            column,
            walk,
        }),
        stages,
    )
}

fn push_linear(
    alloc: Global,
    shape: &Shape,
    t: u32,
    c: u32,
    rows: u32,
    stages: &mut Vec<Stage>,
) -> Result<(), NoMemory>
    requires { IsSome (combination_of shape.now.tables rows t c) }
    ensures { OnOk result (stages.new.items ≡ stages.old.items ++ when (λ f. stage.Linear (linear.waiting f)) (combination_of shape.now.tables rows t c)) }
{
    let step = LinearStep::begin(alloc, shape, t, c, rows)?;
    push_stage(Stage::Linear(step), stages)
}

fn push_project(
    alloc: Global,
    shape: &Shape,
    t: u32,
    c: u32,
    rows: u32,
    stages: &mut Vec<Stage>,
) -> Result<(), NoMemory>
    requires { IsSome (projection_of shape.now.tables rows t c) }
    ensures { OnOk result (stages.new.items ≡ stages.old.items ++ when (λ p. stage.Project (project.waiting p)) (projection_of shape.now.tables rows t c)) }
{
    let step = ProjectStep::begin(alloc, shape, t, c, rows)?;
    push_stage(Stage::Project(step), stages)
}

fn push_pack(
    alloc: Global,
    shape: &Shape,
    t: u32,
    c: u32,
    rows: u32,
    stages: &mut Vec<Stage>,
) -> Result<(), NoMemory>
    requires { IsSome (packing_of shape.now.tables rows t c) }
    ensures { OnOk result (stages.new.items ≡ stages.old.items ++ when (λ f. stage.Pack (pack.waiting f)) (packing_of shape.now.tables rows t c)) }
{
    let walk = PackWalk::begin(alloc, shape, t, c, rows)?;
    push_stage(Stage::Pack(walk), stages)
}

fn push_shift(
    alloc: Global,
    shape: &Shape,
    t: u32,
    c: u32,
    rows: u32,
    stages: &mut Vec<Stage>,
) -> Result<(), NoMemory>
    requires { IsSome (shifting_of shape.now.tables rows t c) }
    ensures { OnOk result (stages.new.items ≡ stages.old.items ++ when (λ s. stage.Shift (shift.waiting s)) (shifting_of shape.now.tables rows t c)) }
{
    let walk = ShiftWalk::begin(alloc, shape, t, c, rows)?;
    push_stage(Stage::Shift(walk), stages)
}

/// A claim on a virtual column becomes claims on those that it is made from.
fn push_form(
    alloc: Global,
    shape: &Shape,
    t: u32,
    c: u32,
    rows: u32,
    column: &ColumnShape,
    stages: &mut Vec<Stage>,
) -> Result<(), NoMemory>
    requires { column_of shape.now.tables t c ≡ Some column.now }
    ensures { OnOk result (stages.new.items ≡ stages.old.items ++ form_stages shape.now.tables rows t c) }
{
    match &column.kind {
        ColumnKind::Committed => Ok(()),
        ColumnKind::Virtual(ShapeForm::Linear { .. }) => push_linear(
            alloc, shape, t, c, rows, stages,
        ),
        ColumnKind::Virtual(ShapeForm::Project { .. }) => push_project(
            alloc, shape, t, c, rows, stages,
        ),
        ColumnKind::Virtual(ShapeForm::Pack { .. }) => push_pack(alloc, shape, t, c, rows, stages),
        ColumnKind::Virtual(
            ShapeForm::Shl { .. } | ShapeForm::Shr { .. } | ShapeForm::Rol { .. },
        ) => push_shift(alloc, shape, t, c, rows, stages),
    }
}

/// Column `c` of table `t` with so many claims on it.
fn push_column(
    alloc: Global,
    shape: &Shape,
    t: u32,
    c: u32,
    rows: u32,
    column: &ColumnShape,
    claims: u64,
    stages: &mut Vec<Stage>,
) -> Result<(), NoMemory>
    requires column { column_of shape.now.tables t c ≡ Some column.now }
    requires small { ColumnIsSmall column.now }
    requires few_rows { rows ≤ max_rows }
    requires few_claims { claims < 2 ^ 32 }
    ensures { OnOk result (stages.new.items ≡ stages.old.items ++ column_stages shape.now.tables rows t c column.now claims) }
{
    if claims == 0 {
        return Ok(());
    }
    let vars = ceil_log(u64::from(rows)) + column.log_values;
    push_merge(alloc, t, c, vars, claims as u32, stages)?;
    push_form(alloc, shape, t, c, rows, column, stages)
}

/// The columns of table `t`, from the last to the first, where claims are on these: how many committed
/// ones have a claim in the end.
fn push_columns(
    alloc: Global,
    shape: &Shape,
    t: u32,
    table: &TableShape,
    rows: u32,
    claimed: &mut Vec<u32>,
    stages: &mut Vec<Stage>,
) -> Result<u32, NoMemory>
    requires table { slice_get shape.now.tables t ≡ Some table.now }
    requires small { TableIsSmall table.now }
    requires few_rows { rows ≤ max_rows }
    requires few_claims { length claimed.old.items ≤ 2 ^ 16 }
    ensures stages { OnOk result (stages.new.items ≡ stages.old.items ++ columns_stages shape.now.tables rows t (backwards table.now.columns) claimed.old.items) }
    ensures committed { IfOk result (λ n. n ≡ committed_claims (backwards table.now.columns) claimed.old.items) }
    ensures few { IfOk result (λ n. n ≤ max_columns) }
{
    let mut committed = 0;
    let columns = table.columns.as_slice();
    for c in (0..columns.len()).rev() {
        let column = &columns[c];
        let claims = times_in(c as u32, claimed.as_slice());
        push_column(alloc, shape, t, c as u32, rows, column, claims, stages)?;
        claim_sources(column, claims, claimed)?;
        committed += committed_count(column, claims) as u32;
    }
    Ok(committed)
}

/// The columns of all tables: how many committed ones have a claim in the end.
pub(crate) fn push_tables(
    alloc: Global,
    shape: &Shape,
    rows: &[u32],
    stages: &mut Vec<Stage>,
) -> Result<u32, NoMemory>
    requires counts { length rows.now ≡ length shape.now.tables }
    requires few { (t : ℕ) → slice_index rows.now t ≤ max_rows }
    ensures stages { OnOk result (stages.new.items ≡ stages.old.items ++ table_stages shape.now.tables rows.now 0 shape.now.tables) }
    ensures committed { IfOk result (λ n. n ≡ bit_claims shape.now.tables) }
{
    let mut committed = 0;
    for t in 0..table_count(shape) {
        let table = table_at(shape, t);
        let mut claimed = first_columns(alloc, table)?;
        committed += push_columns(
            alloc,
            shape,
            t,
            table,
            rows[t as usize],
            &mut claimed,
            stages,
        )?;
    }
    Ok(committed)
}

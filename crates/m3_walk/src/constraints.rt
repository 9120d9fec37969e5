//! The reductions of constraints, those of one number of values per row together.

ghost use Rattle.std.specs.Prelude.{◌≡◌, ℕ, ◌+◌, ◌≤◌, ◌++◌, length, slice_index, OnOk};
ghost use Rattle.std.specs.List.{flat_map};
ghost use Rattle.cube_laws.specs.Sums.{tabulate};
ghost use Rattle.table_text.specs.Limits.{max_log_values};
ghost use Rattle.table_shape.specs.Limits.{max_rows};
ghost use Rattle.m3_walk.specs.Course.{constraint_stages, group_stages};

use crate::appending::push_stage;
use crate::no_memory::NoMemory;
use crate::stage::Stage;
use crate::tables::table_count;
use std::alloc::Global;
use table_shape::Shape;
use table_text::limits::MAX_LOG_VALUES;
use zerocheck::{ZeroWalk, has_group};

/// The constraints of `2 ^ log` values per row, where table `t` has one.
fn push_group(
    alloc: Global,
    shape: &Shape,
    t: u32,
    log: u32,
    rows: u32,
    stages: &mut Vec<Stage>,
) -> Result<(), NoMemory>
    requires { rows ≤ max_rows }
    ensures { OnOk result (stages.new.items ≡ stages.old.items ++ group_stages shape.now.tables rows t log) }
{
    if !has_group(shape, t, log) {
        return Ok(());
    }
    let walk = ZeroWalk::begin(alloc, shape, t, log, rows)?;
    push_stage(Stage::Constraints(walk), stages)
}

/// The constraints of table `t`.
fn push_groups(
    alloc: Global,
    shape: &Shape,
    t: u32,
    rows: u32,
    stages: &mut Vec<Stage>,
) -> Result<(), NoMemory>
    requires { rows ≤ max_rows }
    ensures { OnOk result (stages.new.items ≡ stages.old.items ++ flat_map (group_stages shape.now.tables rows t) (tabulate (max_log_values + 1) (λ v. v))) }
{
    for log in 0..MAX_LOG_VALUES + 1 {
        push_group(alloc, shape, t, log, rows, stages)?;
    }
    Ok(())
}

/// The constraints of all tables.
pub(crate) fn push_constraints(
    alloc: Global,
    shape: &Shape,
    rows: &[u32],
    stages: &mut Vec<Stage>,
) -> Result<(), NoMemory>
    requires counts { length rows.now ≡ length shape.now.tables }
    requires few { (t : ℕ) → slice_index rows.now t ≤ max_rows }
    ensures { OnOk result (stages.new.items ≡ stages.old.items ++ constraint_stages shape.now.tables rows.now 0 shape.now.tables) }
{
    for t in 0..table_count(shape) {
        push_groups(alloc, shape, t, rows[t as usize], stages)?;
    }
    Ok(())
}

//! The entries of constraints, those of one number of values per row together.

ghost use Rattle.std.specs.Prelude.{◌≡◌, ◌++◌, ◌+◌, ◌==◌, ◌≤◌, length, map, OnOk};
ghost use Rattle.std.specs.List.{AllByRecursion, filter, flat_map, list_any};
ghost use Rattle.cube_laws.specs.Sums.{tabulate};
ghost use Rattle.table_shape.specs.Limits.{max_degree};
ghost use Rattle.table_shape.specs.Value.{greatest};
ghost use Rattle.table_shape.specs.declared.shape.ConstraintShape.{ConstraintShape as Constraint};
ghost use Rattle.table_text.specs.Limits.{max_log_values};
ghost use Rattle.zerocheck.specs.Group.{named, names};
ghost use Rattle.proof_plan.specs.Plan.{constraint_entries, group_columns, group_entries};
ghost use Rattle.proof_plan.specs.Small.{ConstraintIsSmall, TableIsSmall};

use crate::plan_entry::PlanEntry;
use crate::rounds::{push_coordinates, push_sum};
use poly_forms::{CheckKind, DrawKind};
use std::alloc::AllocError;
use table_shape::{ConstraintShape, TableShape, ceil_log};
use table_text::limits::MAX_LOG_VALUES;
use zerocheck::names;

/// How many constraints have `2 ^ log` values per row.
fn group_size(log: u32, constraints: &[ConstraintShape]) -> u64
    ensures { result ≡ length (filter (λ (z : Constraint). z.log_values == log) constraints.now) }
{
    let mut size = 0;
    for constraint in constraints {
        if constraint.log_values == log {
            size += 1;
        }
    }
    size
}

/// The greatest degree of these constraints.
fn greatest_degree(log: u32, constraints: &[ConstraintShape]) -> u32
    requires { AllByRecursion ConstraintIsSmall constraints.now }
    ensures degree { result ≡ greatest (map (λ (z : Constraint). z.degree) (filter (λ (z : Constraint). z.log_values == log) constraints.now)) }
    ensures low { result ≤ max_degree }
{
    let mut greatest = 0;
    for constraint in constraints {
        if constraint.log_values == log {
            greatest = constraint.degree.max(greatest);
        }
    }
    greatest
}

/// Whether one of these constraints names a column.
fn some_names(log: u32, constraints: &[ConstraintShape], column: u32) -> bool
    ensures { result ≡ list_any (λ (z : Constraint). names column z.expr) (filter (λ (z : Constraint). z.log_values == log) constraints.now) }
{
    for constraint in constraints {
        if constraint.log_values == log && names(&constraint.expr, column) {
            return true;
        }
    }
    false
}

/// How many of the first columns, `columns` of them, these constraints name.
fn named_count(log: u32, constraints: &[ConstraintShape], columns: u32) -> u32
    ensures { result ≡ length (named (filter (λ (z : Constraint). z.log_values == log) constraints.now) columns) }
{
    let mut count = 0;
    for column in 0..columns {
        if some_names(log, constraints, column) {
            count += 1;
        }
    }
    count
}

/// Appends the columns that the constraints of `2 ^ log` values per row name.
pub fn push_group_columns(
    log: u32,
    table: &TableShape,
    claimed: &mut Vec<u32>,
) -> Result<(), AllocError>
    requires { TableIsSmall table.now }
    ensures { OnOk result (claimed.new.items ≡ claimed.old.items ++ group_columns log table.now) }
{
    for column in 0..table.columns.len() as u32 {
        if some_names(log, table.constraints.as_slice(), column) {
            claimed.push(column)?;
        }
    }
    Ok(())
}

/// The constraints of `2 ^ log` values per row, where there is one.
fn push_group(
    rows: u32,
    table: &TableShape,
    log: u32,
    entries: &mut Vec<PlanEntry>,
) -> Result<(), AllocError>
    requires small { TableIsSmall table.now }
    requires low { log ≤ max_log_values }
    ensures { OnOk result (entries.new.items ≡ entries.old.items ++ group_entries rows table.now log) }
{
    let constraints = table.constraints.as_slice();
    let size = group_size(log, constraints);
    if size == 0 {
        return Ok(());
    }
    entries.push(PlanEntry::Draw {
        kind: DrawKind::ConstraintBatch,
        count: size - 1,
    })?;
    let vars = ceil_log(u64::from(rows)) + log;
    push_coordinates(DrawKind::ZeroCoordinate, vars, entries)?;
    push_sum(
        DrawKind::ZeroRound,
        greatest_degree(log, constraints) + 2,
        vars,
        CheckKind::ZeroFinal,
        named_count(log, constraints, table.columns.len() as u32),
        entries,
    )?;
    Ok(())
}

/// The constraints of a table.
fn push_groups(
    rows: u32,
    table: &TableShape,
    entries: &mut Vec<PlanEntry>,
) -> Result<(), AllocError>
    requires { TableIsSmall table.now }
    ensures { OnOk result (entries.new.items ≡ entries.old.items ++ flat_map (group_entries rows table.now) (tabulate (max_log_values + 1) (λ v. v))) }
{
    for log in 0..MAX_LOG_VALUES + 1 {
        push_group(rows, table, log, entries)?;
    }
    Ok(())
}

/// The constraints of all tables.
pub fn push_constraints(
    rows: &[u32],
    tables: &[TableShape],
    entries: &mut Vec<PlanEntry>,
) -> Result<(), AllocError>
    requires counts { length rows.now ≡ length tables.now }
    requires small { AllByRecursion TableIsSmall tables.now }
    ensures { OnOk result (entries.new.items ≡ entries.old.items ++ constraint_entries rows.now 0 tables.now) }
{
    for (t, table) in tables.iter().enumerate() {
        push_groups(rows[t], table, entries)?;
    }
    Ok(())
}

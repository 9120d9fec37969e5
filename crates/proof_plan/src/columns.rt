//! The entries of claims on columns, from the last column of a table to the first.

ghost use Rattle.std.specs.Prelude.{◌≡◌, ◌++◌, ◌+◌, ◌==◌, ◌≤◌, ◌^◌, ◌∷◌, cond, length, IfOk, OnOk};
ghost use Rattle.std.specs.List.{AllByRecursion, flat_map};
ghost use Rattle.cube_laws.specs.Sums.{tabulate};
ghost use Rattle.channel_products.specs.Given.{named_columns};
ghost use Rattle.table_text.specs.Limits.{max_log_values};
ghost use Rattle.table_shape.specs.Limits.{max_columns, max_tables};
ghost use Rattle.proof_plan.specs.Plan.{backwards, bit_claims, claims_after, column_entries, columns_entries, committed_claims, first_columns, form_entries, form_sources, group_columns, is_committed, kind_entries, merge_entries, table_entries, times_in};
ghost use Rattle.proof_plan.specs.Plan.{coordinates, sum_entries};
ghost use Rattle.proof_plan.specs.declared.plan_entry.PlanEntry.TheVariants.{Message};
ghost use Rattle.poly_forms.specs.declared.check_kind.CheckKind.TheVariants as check;
ghost use Rattle.poly_forms.specs.declared.draw_kind.DrawKind.TheVariants as draw;
ghost use Rattle.proof_plan.specs.Small.{ColumnIsSmall, FormIsSmall, KindIsSmall, TableIsSmall};

use crate::constraints::push_group_columns;
use crate::plan_entry::PlanEntry;
use crate::rounds::{push_coordinates, push_sum};
use poly_forms::{CheckKind, DrawKind};
use std::alloc::{AllocError, Global};
use table_shape::{ColumnKind, ColumnShape, FlushShape, ShapeForm, TableShape, ceil_log};
use table_text::limits::MAX_LOG_VALUES;

/// Claims on a column of `2 ^ vars` values become one.
fn push_merge(vars: u32, claims: u64, entries: &mut Vec<PlanEntry>) -> Result<(), AllocError>
    ensures { OnOk result (entries.new.items ≡ entries.old.items ++ merge_entries vars claims) }
{
    if claims < 2 {
        return Ok(());
    }
    entries.push(PlanEntry::Draw {
        kind: DrawKind::Merge,
        count: claims - 1,
    })?;
    push_sum(
        DrawKind::MergeRound,
        2,
        vars,
        CheckKind::MergeFinal,
        1,
        entries,
    )
}

/// Within blocks of `2 ^ block` values.
fn push_shift(block: u32, entries: &mut Vec<PlanEntry>) -> Result<(), AllocError>
    ensures { OnOk result (entries.new.items ≡ entries.old.items ++ sum_entries draw.ShiftRound 2 block check.ShiftFinal 1) }
{
    push_sum(
        DrawKind::ShiftRound,
        2,
        block,
        CheckKind::ShiftFinal,
        1,
        entries,
    )
}

/// Each `2 ^ log` values as one.
fn push_pack(log: u32, entries: &mut Vec<PlanEntry>) -> Result<(), AllocError>
    requires { log ≤ max_log_values }
    ensures { OnOk result (entries.new.items ≡ entries.old.items ++ Message check.Pack (2 ^ log) ∷ coordinates draw.PackCoordinate log) }
{
    entries.push(PlanEntry::Message {
        check: CheckKind::Pack,
        length: 1 << log,
    })?;
    push_coordinates(DrawKind::PackCoordinate, log, entries)
}

/// A claim on a virtual column becomes claims on those that it is made from.
fn push_form(form: &ShapeForm, entries: &mut Vec<PlanEntry>) -> Result<(), AllocError>
    requires { FormIsSmall form.now }
    ensures { OnOk result (entries.new.items ≡ entries.old.items ++ form_entries form.now) }
{
    match form {
        ShapeForm::Shl { block, .. }
        | ShapeForm::Shr { block, .. }
        | ShapeForm::Rol { block, .. } => push_shift(*block, entries),
        ShapeForm::Pack { log, .. } => push_pack(*log, entries),
        ShapeForm::Project { .. } => Ok(()),
        ShapeForm::Linear { terms, .. } => {
            entries.push(PlanEntry::Message {
                check: CheckKind::Linear,
                length: terms.len() as u32,
            })?;
            Ok(())
        }
    }
}

fn push_kind(kind: &ColumnKind, entries: &mut Vec<PlanEntry>) -> Result<(), AllocError>
    requires { KindIsSmall kind.now }
    ensures { OnOk result (entries.new.items ≡ entries.old.items ++ kind_entries kind.now) }
{
    match kind {
        ColumnKind::Committed => Ok(()),
        ColumnKind::Virtual(form) => push_form(form, entries),
    }
}

/// A column with so many claims on it.
fn push_column(
    rows: u32,
    column: &ColumnShape,
    claims: u64,
    entries: &mut Vec<PlanEntry>,
) -> Result<(), AllocError>
    requires { ColumnIsSmall column.now }
    ensures { OnOk result (entries.new.items ≡ entries.old.items ++ column_entries rows column.now claims) }
{
    if claims == 0 {
        return Ok(());
    }
    let vars = ceil_log(u64::from(rows)) + column.log_values;
    push_merge(vars, claims, entries)?;
    push_kind(&column.kind, entries)
}

/// How often a number is in a list.
pub fn times_in(column: u32, claimed: &[u32]) -> u64
    ensures { result ≡ times_in column claimed.now }
{
    let mut times = 0;
    for k in claimed {
        if *k == column {
            times += 1;
        }
    }
    times
}

/// Appends the columns that a virtual column is made from.
fn push_sources(form: &ShapeForm, claimed: &mut Vec<u32>) -> Result<(), AllocError>
    ensures { OnOk result (claimed.new.items ≡ claimed.old.items ++ form_sources form.now) }
{
    match form {
        ShapeForm::Shl { column, .. }
        | ShapeForm::Shr { column, .. }
        | ShapeForm::Rol { column, .. }
        | ShapeForm::Pack { column, .. }
        | ShapeForm::Project { column, .. } => {
            claimed.push(*column)?;
            Ok(())
        }
        ShapeForm::Linear { terms, .. } => {
            for term in terms.as_slice() {
                claimed.push(term.column)?;
            }
            Ok(())
        }
    }
}

/// The columns that claims are on once a column with so many claims is done.
pub fn claim_sources(
    column: &ColumnShape,
    claims: u64,
    claimed: &mut Vec<u32>,
) -> Result<(), AllocError>
    ensures { OnOk result (claimed.new.items ≡ claims_after column.now claims claimed.old.items) }
{
    if claims == 0 {
        return Ok(());
    }
    match &column.kind {
        ColumnKind::Committed => Ok(()),
        ColumnKind::Virtual(form) => push_sources(form, claimed),
    }
}

/// One for a committed column with a claim.
pub fn committed_count(column: &ColumnShape, claims: u64) -> u64
    ensures count { result ≡ cond (claims == 0) 0 (is_committed column.now.kind) }
    ensures few { result ≤ 1 }
{
    if claims == 0 {
        return 0;
    }
    match &column.kind {
        ColumnKind::Committed => 1,
        ColumnKind::Virtual(_) => 0,
    }
}

/// Appends the columns that a flush names.
fn push_named(flush: &FlushShape, claimed: &mut Vec<u32>) -> Result<(), AllocError>
    ensures { OnOk result (claimed.new.items ≡ claimed.old.items ++ named_columns flush.now) }
{
    if let Some(selector) = flush.selector {
        claimed.push(selector)?;
    }
    claimed.extend_from_slice(flush.columns.as_slice())?;
    Ok(())
}

fn push_all_named(flushes: &[FlushShape], claimed: &mut Vec<u32>) -> Result<(), AllocError>
    ensures { OnOk result (claimed.new.items ≡ claimed.old.items ++ flat_map named_columns flushes.now) }
{
    for flush in flushes {
        push_named(flush, claimed)?;
    }
    Ok(())
}

fn push_all_group_columns(table: &TableShape, claimed: &mut Vec<u32>) -> Result<(), AllocError>
    requires { TableIsSmall table.now }
    ensures { OnOk result (claimed.new.items ≡ claimed.old.items ++ flat_map (λ v. group_columns v table.now) (tabulate (max_log_values + 1) (λ v. v))) }
{
    for log in 0..MAX_LOG_VALUES + 1 {
        push_group_columns(log, table, claimed)?;
    }
    Ok(())
}

/// The columns that the claims of a table's flushes and constraints are on, a column as often as
/// there are claims on it.
pub fn first_columns(alloc: Global, table: &TableShape) -> Result<Vec<u32>, AllocError>
    requires { TableIsSmall table.now }
    ensures { IfOk result (λ claimed. claimed.items ≡ first_columns table.now) }
{
    let mut claimed = Vec::new(alloc);
    push_all_named(table.flushes.as_slice(), &mut claimed)?;
    push_all_group_columns(table, &mut claimed)?;
    Ok(claimed)
}

/// The columns of a table, from the last to the first, where claims are on these: how many committed
/// ones have a claim in the end.
fn push_columns(
    rows: u32,
    columns: &[ColumnShape],
    claimed: &mut Vec<u32>,
    entries: &mut Vec<PlanEntry>,
) -> Result<u64, AllocError>
    requires few { length columns.now ≤ max_columns }
    requires small { AllByRecursion ColumnIsSmall columns.now }
    ensures entries { OnOk result (entries.new.items ≡ entries.old.items ++ columns_entries rows (backwards columns.now) claimed.old.items) }
    ensures committed { IfOk result (λ n. n ≡ committed_claims (backwards columns.now) claimed.old.items) }
    ensures few { IfOk result (λ n. n ≤ max_columns) }
{
    let mut committed = 0;
    for c in (0..columns.len()).rev() {
        let column = &columns[c];
        let claims = times_in(c as u32, claimed.as_slice());
        push_column(rows, column, claims, entries)?;
        claim_sources(column, claims, claimed)?;
        committed += committed_count(column, claims);
    }
    Ok(committed)
}

/// The columns of all tables: how many committed ones have a claim in the end.
pub fn push_tables(
    alloc: Global,
    rows: &[u32],
    tables: &[TableShape],
    entries: &mut Vec<PlanEntry>,
) -> Result<u64, AllocError>
    requires counts { length rows.now ≡ length tables.now }
    requires few { length tables.now ≤ max_tables }
    requires small { AllByRecursion TableIsSmall tables.now }
    ensures entries { OnOk result (entries.new.items ≡ entries.old.items ++ table_entries rows.now 0 tables.now) }
    ensures committed { IfOk result (λ n. n ≡ bit_claims tables.now) }
{
    let mut committed = 0;
    for (t, table) in tables.iter().enumerate() {
        let mut claimed = first_columns(alloc, table)?;
        committed += push_columns(rows[t], table.columns.as_slice(), &mut claimed, entries)?;
    }
    Ok(committed)
}

//! Virtual columns: their forms resolved and checked.

ghost use Rattle.std.specs.Prelude.{◌≡◌, ◌≤◌, ◌^◌, ◌==◌, length, map, nat_lt, IfOk};
ghost use Rattle.std.specs.List.{list_all, list_any};
ghost use Rattle.table_text.specs.Limits.{max_level, max_log_values};
ghost use Rattle.table_shape.specs.Limits.{max_columns, max_terms};
ghost use Rattle.table_shape.specs.Checked.{IsChecked, checked_form, place_of};
ghost use Rattle.table_shape.specs.Fits.{AreSized, TableFits};
ghost use Rattle.table_shape.specs.Shape.{all_some, form_level, form_log_values, number_of_name, repeats, resolved_form, resolved_term, terms_of, with_virtual};
ghost use Rattle.table_shape.specs.ShapeGives.{Gives};
ghost use Rattle.table_shape.specs.Width.{log_values_at, terms_width};
ghost use Rattle.table_text.specs.declared.decl.VirtualForm.TheVariants as virtual;

use crate::draft::TableDraft;
use crate::fault::{ShapeKind, ShapeStop, refused};
use crate::levels::{level_at, linear_level};
use crate::limits::{MAX_COLUMNS, MAX_LEVEL, MAX_TERMS};
use crate::numbers::element;
use crate::shape::{ColumnKind, ColumnShape, ShapeForm, ShapeTerm, ShapeTerms};
use crate::width::log_values_at;
use sqlite_items::Items;
use std::alloc::{AllocError, Global};
use table_text::{Name, Term, VirtualForm};

/// A column by its number, and a place in the blocks of its rows.
struct Place {
    column: u32,
    block: u32,
    offset: u32,
}

/// Whether a sum has more terms than the limit.
fn has_many_terms(form: &VirtualForm) -> bool
    ensures { result ≡ nat_lt max_terms (length (terms_of form.now)) }
{
    match form {
        VirtualForm::Linear { terms, .. } => terms.len() > MAX_TERMS,
        _ => false,
    }
}

/// How many values a block has.
fn block_len(block: u32) -> u128
    requires { block ≤ max_log_values }
    ensures value { result ≡ 2 ^ block }
    ensures bound { result ≤ 128 }
{
    1 << block
}

/// The column of this name, with blocks that its rows have, and a place in them.
fn place_of(
    item: u32,
    name: &Name,
    block: u128,
    offset: u128,
    table: &TableDraft<'_>,
) -> Result<Place, ShapeStop>
    requires few { length table.now.columns ≤ max_columns }
    requires sized { AreSized table.now.columns }
    ensures { Gives result (place_of item table.now.columns (number_of_name name.now table.now.columns) block offset) }
{
    let Some(column) = table.number_of(name) else {
        return refused(item, ShapeKind::UnknownName);
    };
    if block > u128::from(log_values_at(table.columns(), column)) {
        return refused(item, ShapeKind::BlockTooLong);
    }
    let block = block as u32;
    if offset >= block_len(block) {
        return refused(item, ShapeKind::OffsetOutOfRange);
    }
    Ok(Place {
        column,
        block,
        offset: offset as u32,
    })
}

/// Each `2 ^ log` values of the column of this name as one.
fn packed(item: u32, name: &Name, log: u128, table: &TableDraft<'_>) -> Result<ShapeForm, ShapeStop>
    requires few { length table.now.columns ≤ max_columns }
    requires sized { AreSized table.now.columns }
    ensures { Gives result (checked_form item table.now.columns (resolved_form table.now.columns (virtual.Pack name.now log))) }
{
    let Some(column) = table.number_of(name) else {
        return refused(item, ShapeKind::UnknownName);
    };
    let columns = table.columns();
    if log > u128::from(log_values_at(columns, column)) {
        return refused(item, ShapeKind::BlockTooLong);
    }
    let log = log as u32;
    if level_at(columns, column) + log > MAX_LEVEL {
        return refused(item, ShapeKind::LevelTooHigh);
    }
    Ok(ShapeForm::Pack { column, log })
}

/// The terms with numbers of columns in place of names, if each name is known.
fn resolved_terms(
    alloc: Global,
    terms: &[Term],
    table: &TableDraft<'_>,
) -> Result<Option<ShapeTerms>, AllocError>
    requires { length table.now.columns ≤ max_columns }
    ensures { IfOk result (λ found. found ≡ all_some (map (resolved_term table.now.columns) terms.now)) }
{
    let mut found = Items::new(alloc);
    for term in terms {
        let Some(column) = table.number_of(&term.column) else {
            return Ok(None);
        };
        found.push(ShapeTerm {
            coefficient: element(term.coefficient),
            column,
        })?;
    }
    Ok(Some(found))
}

/// Whether a column stands in a term.
fn has_term(column: u32, terms: &[ShapeTerm]) -> bool
    ensures { result ≡ list_any (λ t. column == t.column) terms.now }
{
    terms.iter().any(|t| column == t.column)
}

/// Whether a column stands in two terms.
fn repeats(terms: &[ShapeTerm]) -> bool
    ensures { result ≡ repeats terms.now }
{
    match terms {
        [] => false,
        [term, later @ ..] => has_term(term.column, later) || repeats(later),
    }
}

/// The logarithm of the values per row of the first term's column.
fn terms_width(columns: &[ColumnShape], terms: &[ShapeTerm]) -> u32
    requires { AreSized columns.now }
    ensures value { result ≡ terms_width columns.now terms.now }
    ensures bound { result ≤ max_log_values }
{
    match terms {
        [] => 0,
        [first, ..] => log_values_at(columns, first.column),
    }
}

/// Whether each term's column has `2 ^ log_values` values per row.
fn have_width(columns: &[ColumnShape], terms: &[ShapeTerm], log_values: u32) -> bool
    requires { AreSized columns.now }
    ensures { result ≡ list_all (λ t. log_values_at columns.now t.column == log_values) terms.now }
{
    for term in terms {
        if log_values_at(columns, term.column) != log_values {
            return false;
        }
    }
    true
}

/// A constant plus a sum of distinct columns of as many values per row.
fn linear(
    alloc: Global,
    item: u32,
    constant: u128,
    terms: &[Term],
    table: &TableDraft<'_>,
) -> Result<ShapeForm, ShapeStop>
    requires few { length table.now.columns ≤ max_columns }
    requires sized { AreSized table.now.columns }
    ensures { Gives result (checked_form item table.now.columns (resolved_form table.now.columns (virtual.Linear constant terms.now))) }
{
    let Some(terms) = resolved_terms(alloc, terms, table)? else {
        return refused(item, ShapeKind::UnknownName);
    };
    if repeats(terms.as_slice()) {
        return refused(item, ShapeKind::RepeatedTerm);
    }
    let columns = table.columns();
    let log_values = terms_width(columns, terms.as_slice());
    if !have_width(columns, terms.as_slice(), log_values) {
        return refused(item, ShapeKind::UnequalWidth);
    }
    Ok(ShapeForm::Linear {
        constant: element(constant),
        terms,
    })
}

/// The form of a virtual column with numbers of columns in place of names, or its first fault.
fn checked_form(
    alloc: Global,
    item: u32,
    form: &VirtualForm,
    table: &TableDraft<'_>,
) -> Result<ShapeForm, ShapeStop>
    requires few { length table.now.columns ≤ max_columns }
    requires sized { AreSized table.now.columns }
    ensures { Gives result (checked_form item table.now.columns (resolved_form table.now.columns form.now)) }
{
    match form {
        VirtualForm::Shl {
            column,
            block,
            offset,
        } => {
            let Place {
                column,
                block,
                offset,
            } = place_of(item, column, *block, *offset, table)?;
            Ok(ShapeForm::Shl {
                column,
                block,
                offset,
            })
        }
        VirtualForm::Shr {
            column,
            block,
            offset,
        } => {
            let Place {
                column,
                block,
                offset,
            } = place_of(item, column, *block, *offset, table)?;
            Ok(ShapeForm::Shr {
                column,
                block,
                offset,
            })
        }
        VirtualForm::Rol {
            column,
            block,
            offset,
        } => {
            let Place {
                column,
                block,
                offset,
            } = place_of(item, column, *block, *offset, table)?;
            Ok(ShapeForm::Rol {
                column,
                block,
                offset,
            })
        }
        VirtualForm::Pack { column, log } => packed(item, column, *log, table),
        VirtualForm::Project { column, log, index } => {
            let Place {
                column,
                block: log,
                offset: index,
            } = place_of(item, column, *log, *index, table)?;
            Ok(ShapeForm::Project { column, log, index })
        }
        VirtualForm::Linear { constant, terms } => {
            linear(alloc, item, *constant, terms.as_slice(), table)
        }
    }
}

/// The level of a form's values.
fn form_level(form: &ShapeForm, columns: &[ColumnShape]) -> u32
    requires sized { AreSized columns.now }
    requires checked { IsChecked columns.now form.now }
    ensures value { result ≡ form_level columns.now form.now }
    ensures bound { result ≤ max_level }
{
    match form {
        ShapeForm::Shl { column, .. }
        | ShapeForm::Shr { column, .. }
        | ShapeForm::Rol { column, .. }
        | ShapeForm::Project { column, .. } => level_at(columns, *column),
        ShapeForm::Pack { column, log } => level_at(columns, *column) + *log,
        ShapeForm::Linear { constant, terms } => {
            linear_level(columns, *constant, terms.as_slice())
        }
    }
}

/// The logarithm of how many values of a form there are per row.
fn form_log_values(form: &ShapeForm, columns: &[ColumnShape]) -> u32
    requires sized { AreSized columns.now }
    requires checked { IsChecked columns.now form.now }
    ensures value { result ≡ form_log_values columns.now form.now }
    ensures bound { result ≤ max_log_values }
{
    match form {
        ShapeForm::Shl { column, .. }
        | ShapeForm::Shr { column, .. }
        | ShapeForm::Rol { column, .. } => log_values_at(columns, *column),
        ShapeForm::Pack { column, log } | ShapeForm::Project { column, log, .. } => {
            log_values_at(columns, *column) - *log
        }
        ShapeForm::Linear { terms, .. } => terms_width(columns, terms.as_slice()),
    }
}

/// The table with a virtual column more, declared by `item`.
pub(crate) fn with_virtual<'a>(
    alloc: Global,
    item: u32,
    name: &'a Name,
    form: &VirtualForm,
    table: TableDraft<'a>,
) -> Result<TableDraft<'a>, ShapeStop>
    requires { TableFits table }
    ensures exact { Gives result (with_virtual item name.now form.now table.entry) }
    ensures fits { IfOk result TableFits }
{
    if table.columns().len() >= MAX_COLUMNS || has_many_terms(form) {
        return refused(item, ShapeKind::TooMany);
    }
    if table.has_column(name) {
        return refused(item, ShapeKind::DoubleName);
    }
    let form = checked_form(alloc, item, form, &table)?;
    let columns = table.columns();
    let level = form_level(&form, columns);
    let log_values = form_log_values(&form, columns);
    let kind = ColumnKind::Virtual(form);
    Ok(table.add_column(alloc, name, level, log_values, kind)?)
}

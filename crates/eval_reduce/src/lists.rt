//! The lists that a prover is given.

ghost use Rattle.std.specs.Prelude.{◌≡◌, ◌≤◌, ◌+◌, ◌^◌, ◌↔◌, true, is_some, IsSome, Some};
ghost use Rattle.eval_reduce.specs.declared.packing.Packing.{Packing as Pack};
ghost use Rattle.eval_reduce.specs.declared.projection.Projection.{Projection as Project};
ghost use Rattle.eval_reduce.specs.declared.shifting.Shifting.{Shifting as Shift};
ghost use Rattle.eval_reduce.specs.Linear.{combination_of, Combination as Linear};
ghost use Rattle.eval_reduce.specs.Lists.{FormIsThere};
ghost use Rattle.eval_reduce.specs.Pack.{packing_of};
ghost use Rattle.eval_reduce.specs.Project.{projection_of};
ghost use Rattle.eval_reduce.specs.Provers.{TermsAreThere};
ghost use Rattle.eval_reduce.specs.Shift.{shifting_of};
ghost use Rattle.eval_reduce.specs.Virtual.{column_of, IsThere};

use crate::virtual_column::{column_shape, vars_on};
use sqlite_items::at;
use sumcheck::ColumnTables;
use table_shape::{ColumnKind, Shape, ShapeForm, ShapeTerm};

/// Whether a size is `2 ^ vars`.
fn is_power(size: usize, vars: u64) -> bool
    ensures { (result ≡ true) ↔ (size ≡ 2 ^ vars) }
{
    vars < 64 && size == 1usize << vars
}

/// Whether `2 ^ vars` values of a column are there.
fn is_there(tables: &ColumnTables, table: u32, column: u32, vars: u64) -> bool
    ensures { (result ≡ true) ↔ IsThere tables.now table column (2 ^ vars) }
{
    match tables.get(table, column) {
        Some(list) => is_power(list.len(), vars),
        None => false,
    }
}

/// Whether `2 ^ vars` values are there of the column of each term.
fn terms_are_there(tables: &ColumnTables, table: u32, terms: &[ShapeTerm], vars: u64) -> bool
    ensures { (result ≡ true) ↔ TermsAreThere tables.now table (2 ^ vars) terms.now }
{
    for term in terms {
        if !is_there(tables, table, term.column, vars) {
            return false;
        }
    }
    true
}

/// Whether the lists are there for a column of `2 ^ vars` values of that form.
fn form_is_there(tables: &ColumnTables, table: u32, form: &ShapeForm, vars: u32) -> bool
    ensures { (result ≡ true) ↔ FormIsThere tables.now table vars form.now }
{
    let vars = u64::from(vars);
    match form {
        ShapeForm::Shl { column, .. }
        | ShapeForm::Shr { column, .. }
        | ShapeForm::Rol { column, .. } => is_there(tables, table, *column, vars),
        ShapeForm::Pack { column, log } | ShapeForm::Project { column, log, .. } => {
            is_there(tables, table, *column, u64::from(*log) + vars)
        }
        ShapeForm::Linear { terms, .. } => terms_are_there(tables, table, terms.as_slice(), vars),
    }
}

/// Whether a shape has that column.
fn is_column(shape: &Shape, table: u32, column: u32) -> bool
    ensures { result ≡ is_some (column_of shape.now.tables table column) }
{
    match at(shape.tables(), table as usize) {
        Some(of) => at(of.columns.as_slice(), column as usize).is_some(),
        None => false,
    }
}

/// Whether the lists are there for a column that a shape has.
fn column_has_lists(
    shape: &Shape,
    table: u32,
    column: u32,
    rows: u32,
    tables: &ColumnTables,
) -> bool
    requires { IsSome (column_of shape.now.tables table column) }
    ensures linear { (f : Linear) → combination_of shape.now.tables rows table column ≡ Some f → (result ≡ true) ↔ TermsAreThere tables.now table (2 ^ f.vars) f.terms }
    ensures packed { (f : Pack) → packing_of shape.now.tables rows table column ≡ Some f → (result ≡ true) ↔ IsThere tables.now table f.source (2 ^ (f.log + f.vars)) }
    ensures projected { (f : Project) → projection_of shape.now.tables rows table column ≡ Some f → (result ≡ true) ↔ IsThere tables.now table f.source (2 ^ (f.log + f.vars)) }
    ensures shifted { (f : Shift) → shifting_of shape.now.tables rows table column ≡ Some f → (result ≡ true) ↔ IsThere tables.now table f.source (2 ^ f.vars) }
{
    let of = column_shape(shape, table, column);
    let vars = vars_on(rows, of);
    match &of.kind {
        ColumnKind::Committed => true,
        ColumnKind::Virtual(form) => form_is_there(tables, table, form, vars),
    }
}

/// Whether the lists are there that the prover of a virtual column on a number of rows is given.
pub fn has_lists(shape: &Shape, table: u32, column: u32, rows: u32, tables: &ColumnTables) -> bool
    ensures linear { (f : Linear) → combination_of shape.now.tables rows table column ≡ Some f → (result ≡ true) ↔ TermsAreThere tables.now table (2 ^ f.vars) f.terms }
    ensures packed { (f : Pack) → packing_of shape.now.tables rows table column ≡ Some f → (result ≡ true) ↔ IsThere tables.now table f.source (2 ^ (f.log + f.vars)) }
    ensures projected { (f : Project) → projection_of shape.now.tables rows table column ≡ Some f → (result ≡ true) ↔ IsThere tables.now table f.source (2 ^ (f.log + f.vars)) }
    ensures shifted { (f : Shift) → shifting_of shape.now.tables rows table column ≡ Some f → (result ≡ true) ↔ IsThere tables.now table f.source (2 ^ f.vars) }
{
    if !is_column(shape, table, column) {
        return false;
    }
    column_has_lists(shape, table, column, rows, tables)
}

//! Groups of constraints.

ghost use Rattle.std.specs.Prelude.{◌≡◌, ℕ, ◌<◌, ◌≤◌, ◌==◌, ◌+◌, ◌^◌, ◌++◌, length, map, slice_get, vec_capacity, is_some, IfOk, IsSome, Some};
ghost use Rattle.std.specs.List.{AllByRecursion, filter, list_any};
ghost use Rattle.tower_laws.specs.Tower.{mul};
ghost use Rattle.poly_laws.specs.Polynomial.{horner};
ghost use Rattle.cube_laws.specs.Form.{value};
ghost use Rattle.poly_forms.specs.Form.{form_of, VariablesBelow};
ghost use Rattle.poly_forms.specs.declared.form.Form.{Form as Tree};
ghost use Rattle.table_shape.specs.Fits.{ShapeFits};
ghost use Rattle.table_shape.specs.Limits.{max_columns, max_rows};
ghost use Rattle.table_shape.specs.Value.{greatest};
ghost use Rattle.table_shape.specs.declared.shape.ConstraintShape.{ConstraintShape as Constraint};
ghost use Rattle.zerocheck.specs.Group.{form_on, forms, group_of, named, names};
ghost use Rattle.sumcheck.specs.Column.{column_claims};

use crate::expressions::{form_on, names};
use crate::no_memory::NoMemory;
use poly_forms::Form;
use sqlite_items::at;
use std::alloc::Global;
use std::marker::Model;
use sumcheck::{ColumnClaim, Points, push_claims};
use table_shape::{ConstraintShape, Shape, TableShape, ceil_log};
use tower_field::{B128, Tower};

/// The constraints of a table that have `2 ^ log_values` values per row, as forms over the columns
/// that they name. A position has `vars` variables.
#[derive(Drop)]
pub struct Group {
    pub(crate) table: u32,
    pub(crate) log_values: u32,
    pub(crate) rows: u32,
    pub(crate) vars: u32,
    pub(crate) degree: u32,
    pub(crate) columns: Vec<u32>,
    pub(crate) constraints: Vec<Form>,
}

impl Model for Group {
    ghost use Rattle.std.specs.Coded.{codes};
    ghost use Rattle.std.specs.Prelude.{◌<◌, ◌≤◌, ◌^◌, length};
    ghost use Rattle.std.specs.List.{AllByRecursion};
    ghost use Rattle.poly_forms.specs.contracts.form.Form as tree;
    ghost use Rattle.poly_forms.specs.declared.form.Form.{Form as Tree};
    ghost use Rattle.poly_forms.specs.Form.{form_of, VariablesBelow};
    ghost use Rattle.zerocheck.specs.Group.{Group};

    ghost Value = { Group };

    ghost coded = { Prim.hlevel (codes, tree.the_row.coded) };

    ghost view = { λ g. record { table = g.table; log_values = g.log_values; rows = g.rows; vars = g.vars; degree = g.degree; columns = g.columns.items; constraints = g.constraints.items } };

    ghost invariant = { λ g. record { some : 1 ≤ length g.constraints.items; low : g.degree ≤ 8; few : g.vars ≤ 32; within : g.log_values ≤ g.vars; short : length g.columns.items < 2 ^ 30; below : AllByRecursion (λ (f : Tree). VariablesBelow (length g.columns.items) (form_of f)) g.constraints.items } };
}

/// Whether some constraint of the group names a column.
fn some_names(constraints: &[ConstraintShape], log_values: u32, column: u32) -> bool
    ensures { result ≡ list_any (λ (z : Constraint). names column z.expr) (filter (λ (z : Constraint). z.log_values == log_values) constraints.now) }
{
    for constraint in constraints {
        if constraint.log_values == log_values && names(&constraint.expr, column) {
            return true;
        }
    }
    false
}

/// Of the first columns, `count` of them, those that the group names.
fn named(
    alloc: Global,
    constraints: &[ConstraintShape],
    log_values: u32,
    count: u32,
) -> Result<Vec<u32>, NoMemory>
    ensures { IfOk result (λ columns. columns.items ≡ named (filter (λ (z : Constraint). z.log_values == log_values) constraints.now) count) }
{
    let mut columns = Vec::new(alloc);
    for c in 0..count {
        if some_names(constraints, log_values, c) {
            if columns.push(c).is_err() {
                return Err(NoMemory);
            }
        }
    }
    Ok(columns)
}

/// The greatest degree of the group.
fn greatest_degree(constraints: &[ConstraintShape], log_values: u32) -> u32
    ensures { result ≡ greatest (map (λ (z : Constraint). z.degree) (filter (λ (z : Constraint). z.log_values == log_values) constraints.now)) }
{
    let mut greatest = 0;
    for constraint in constraints {
        if constraint.log_values == log_values {
            greatest = constraint.degree.max(greatest);
        }
    }
    greatest
}

/// The group's constraints as forms over columns.
fn forms_of(
    alloc: Global,
    constraints: &[ConstraintShape],
    log_values: u32,
    columns: &[u32],
) -> Result<Vec<Form>, NoMemory>
    requires { length columns.now < 2 ^ 32 }
    ensures { IfOk result (λ forms. forms.items ≡ map (λ (z : Constraint). form_on columns.now z.expr) (filter (λ (z : Constraint). z.log_values == log_values) constraints.now)) }
{
    let mut forms = Vec::new(alloc);
    for constraint in constraints {
        if constraint.log_values == log_values {
            let form = form_on(alloc, columns, &constraint.expr)?;
            if forms.push(form).is_err() {
                return Err(NoMemory);
            }
        }
    }
    Ok(forms)
}

/// The sum of beta ^ j times the value of form j.
fn batch_of(forms: &[Form], values: &[B128], beta: B128) -> B128
    requires { AllByRecursion (λ (f : Tree). VariablesBelow (length values.now) (form_of f)) forms.now }
    ensures { result ≡ horner (map (λ form. value form values.now) (map form_of forms.now)) beta }
{
    let mut sum = B128::ZERO;
    let mut i = forms.len();
    while i > 0 {
        i -= 1;
        sum = forms[i].eval(values) + beta * sum;
    }
    sum
}

/// Whether some constraint has `2 ^ log_values` values per row.
fn some_wide(constraints: &[ConstraintShape], log_values: u32) -> bool
    ensures { result ≡ list_any (λ (z : Constraint). z.log_values == log_values) constraints.now }
{
    for constraint in constraints {
        if constraint.log_values == log_values {
            return true;
        }
    }
    false
}

/// Whether a table has a constraint of `2 ^ log_values` values per row.
pub fn has_group(shape: &Shape, table: u32, log_values: u32) -> bool
    ensures { (rows : ℕ) → result ≡ is_some (group_of shape.now.tables rows table log_values) }
{
    let Some(of) = at(shape.tables(), table as usize) else {
        return false;
    };
    some_wide(of.constraints.as_slice(), log_values)
}

/// A table that is there.
fn table_at(shape: &Shape, table: u32) -> &TableShape
    requires { IsSome (slice_get shape.now.tables table) }
    ensures table { slice_get shape.now.tables table ≡ Some result.now }
    ensures fits { ShapeFits shape.now }
    ensures few { length result.now.columns ≤ max_columns }
{
    &shape.tables()[table as usize]
}

impl Group {
    /// That of a table's constraints of that many values per row, on a number of rows.
    pub(crate) fn of(
        alloc: Global,
        shape: &Shape,
        table: u32,
        log_values: u32,
        rows: u32,
    ) -> Result<Group, NoMemory>
        requires some { IsSome (group_of shape.now.tables rows table log_values) }
        requires few { rows ≤ max_rows }
        ensures { IfOk result (λ group. group_of shape.now.tables rows table log_values ≡ Some group) }
    {
        let of = table_at(shape, table);
        let constraints = of.constraints.as_slice();
        let columns = named(alloc, constraints, log_values, of.columns.len() as u32)?;
        let forms = forms_of(alloc, constraints, log_values, columns.as_slice())?;
        Ok(Group {
            table,
            log_values,
            rows,
            vars: ceil_log(u64::from(rows)) + log_values,
            degree: greatest_degree(constraints, log_values),
            columns,
            constraints: forms,
        })
    }

    /// The sum of beta ^ j times the value of constraint j.
    pub(crate) fn batch_at(&self, values: &[B128], beta: B128) -> B128
        requires { length values.now ≡ length self.now.columns }
        ensures { result ≡ horner (map (λ form. value form values.now) (forms self.now)) beta }
    {
        batch_of(self.constraints.as_slice(), values, beta)
    }

    /// Appends a claim on each column, at one point.
    pub(crate) fn tell(
        &self,
        point: &[B128],
        values: &[B128],
        points: &mut Points,
        claims: &mut Vec<ColumnClaim>,
    )
        requires equal { length values.now ≡ length self.now.columns }
        requires many { length self.now.columns ≤ points.old.count }
        requires short { length point.now ≤ points.old.vars }
        requires space { length claims.old.items + length self.now.columns ≤ vec_capacity claims.old }
        ensures claims { claims.new.items ≡ claims.old.items ++ column_claims self.now.table point.now self.now.columns values.now }
        ensures vars { points.new.vars ≡ points.old.vars }
        ensures few { length self.now.columns < 2 ^ 30 }
    {
        push_claims(
            self.table,
            self.columns.as_slice(),
            point,
            values,
            points,
            claims,
        );
    }
}

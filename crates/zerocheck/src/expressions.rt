//! Expressions as forms over the columns that they name.

ghost use Rattle.std.specs.Prelude.{◌≡◌, ◌<◌, ◌^◌, length, map, IfOk};
ghost use Rattle.std.specs.List.{list_any};
ghost use Rattle.zerocheck.specs.Group.{form_on, names, place};

use crate::no_memory::NoMemory;
use poly_forms::{Form, Forms};
use std::alloc::Global;
use table_shape::ShapeExpr;

/// Whether an expression names a column.
#[cycle(naming)]
pub fn names(expr: &ShapeExpr, column: u32) -> bool
    ensures { result ≡ names column expr.now }
{
    match expr {
        ShapeExpr::Number(_) => false,
        ShapeExpr::Column(k) => *k == column,
        ShapeExpr::Sum(parts) => some_names(parts.as_slice(), column),
        ShapeExpr::Product(parts) => some_names(parts.as_slice(), column),
    }
}

#[cycle(naming)]
fn some_names(exprs: &[ShapeExpr], column: u32) -> bool
    ensures { result ≡ list_any (λ b. b) (map (names column) exprs.now) }
{
    for expr in exprs {
        if names(expr, column) {
            return true;
        }
    }
    false
}

/// The place of a column in a list, and the list's length where it isn't in it.
fn place(column: u32, columns: &[u32]) -> u32
    requires { length columns.now < 2 ^ 32 }
    ensures { result ≡ place column columns.now }
{
    for i in 0..columns.len() {
        if columns[i] == column {
            return i as u32;
        }
    }
    columns.len() as u32
}

/// An expression as a form, whose variables are the columns of a list.
#[cycle(forming)]
pub fn form_on(alloc: Global, columns: &[u32], expr: &ShapeExpr) -> Result<Form, NoMemory>
    requires { length columns.now < 2 ^ 32 }
    ensures { IfOk result (λ form. form ≡ form_on columns.now expr.now) }
{
    match expr {
        ShapeExpr::Number(n) => Ok(Form::Constant(*n)),
        ShapeExpr::Column(k) => Ok(Form::Variable(place(*k, columns))),
        ShapeExpr::Sum(parts) => Ok(Form::Sum(forms_on(alloc, columns, parts.as_slice())?)),
        ShapeExpr::Product(parts) => {
            Ok(Form::Product(forms_on(alloc, columns, parts.as_slice())?))
        }
    }
}

#[cycle(forming)]
fn forms_on(alloc: Global, columns: &[u32], exprs: &[ShapeExpr]) -> Result<Forms, NoMemory>
    requires { length columns.now < 2 ^ 32 }
    ensures { IfOk result (λ forms. forms ≡ map (form_on columns.now) exprs.now) }
{
    let mut forms = Forms::new(alloc);
    for expr in exprs {
        let form = form_on(alloc, columns, expr)?;
        forms.push(form)?;
    }
    Ok(forms)
}

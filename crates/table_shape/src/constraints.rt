//! Constraints: their expressions resolved and checked.

ghost use Rattle.std.specs.Prelude.{◌≡◌, ◌≤◌, min, length, map, IfOk};
ghost use Rattle.table_shape.specs.Limits.{max_columns};
ghost use Rattle.table_shape.specs.Fits.{TableFits};
ghost use Rattle.table_shape.specs.Shape.{all_some, resolved, with_constraint};
ghost use Rattle.table_shape.specs.ShapeGives.{Gives};
ghost use Rattle.table_shape.specs.Value.{degree};

use crate::draft::TableDraft;
use crate::fault::{ShapeKind, ShapeStop, refused};
use crate::limits::{MAX_CONSTRAINTS, MAX_DEGREE};
use crate::numbers::element;
use crate::shape::{ShapeExpr, ShapeExprs};
use crate::width::{has_width, width};
use sqlite_items::Items;
use std::alloc::{AllocError, Global};
use table_text::{Expr, Name};

/// The expression with numbers of columns in place of names, if each name is known.
#[cycle(resolving)]
fn resolved(
    alloc: Global,
    expr: &Expr,
    table: &TableDraft<'_>,
) -> Result<Option<ShapeExpr>, AllocError>
    requires { length table.now.columns ≤ max_columns }
    ensures { IfOk result (λ found. found ≡ resolved table.now.columns expr.now) }
{
    match expr {
        Expr::Number(n) => Ok(Some(ShapeExpr::Number(element(*n)))),
        Expr::Column(name) => Ok(table.number_of(name).map(ShapeExpr::Column)),
        Expr::Sum(parts) => Ok(all_resolved(alloc, parts.as_slice(), table)?.map(ShapeExpr::Sum)),
        Expr::Product(parts) => {
            Ok(all_resolved(alloc, parts.as_slice(), table)?.map(ShapeExpr::Product))
        }
    }
}

#[cycle(resolving)]
fn all_resolved(
    alloc: Global,
    exprs: &[Expr],
    table: &TableDraft<'_>,
) -> Result<Option<ShapeExprs>, AllocError>
    requires { length table.now.columns ≤ max_columns }
    ensures { IfOk result (λ found. found ≡ all_some (map (resolved table.now.columns) exprs.now)) }
{
    let mut found = Items::new(alloc);
    for expr in exprs {
        match resolved(alloc, expr, table)? {
            Some(part) => found.push(part)?,
            None => return Ok(None),
        }
    }
    Ok(Some(found))
}

/// The degree, or 9 where it is larger.
fn capped_degree(expr: &ShapeExpr) -> u32
    ensures { result ≡ min 9 (degree expr.now) }
{
    match expr {
        ShapeExpr::Number(_) => 0,
        ShapeExpr::Column(_) => 1,
        ShapeExpr::Sum(parts) => {
            let mut greatest = 0;
            for part in parts.as_slice() {
                greatest = greatest.max(capped_degree(part));
            }
            greatest
        }
        ShapeExpr::Product(parts) => {
            let mut total = 0;
            for part in parts.as_slice() {
                total = (total + capped_degree(part)).min(9);
            }
            total
        }
    }
}

/// The table with a constraint more, declared by `item`.
pub(crate) fn with_constraint<'a>(
    alloc: Global,
    item: u32,
    name: &'a Name,
    expr: &Expr,
    table: TableDraft<'a>,
) -> Result<TableDraft<'a>, ShapeStop>
    requires { TableFits table }
    ensures exact { Gives result (with_constraint item name.now expr.now table.entry) }
    ensures fits { IfOk result TableFits }
{
    if table.constraints().len() >= MAX_CONSTRAINTS {
        return refused(item, ShapeKind::TooMany);
    }
    if table.has_constraint(name) {
        return refused(item, ShapeKind::DoubleName);
    }
    let Some(expr) = resolved(alloc, expr, &table)? else {
        return refused(item, ShapeKind::UnknownName);
    };
    let columns = table.columns();
    let log_values = width(&expr, columns);
    if !has_width(&expr, columns, log_values) {
        return refused(item, ShapeKind::UnequalWidth);
    }
    let degree = capped_degree(&expr);
    if degree > MAX_DEGREE {
        return refused(item, ShapeKind::DegreeTooHigh);
    }
    Ok(table.add_constraint(alloc, name, log_values, degree, expr)?)
}

//! Copies of a shape's parts, in memory of their own.

ghost use Rattle.std.specs.Prelude.{◌≡◌, IfOk};

use crate::shape::{
    BoundaryShape, BoundaryShapes, ChannelShape, ChannelShapes, ColumnKind, ColumnShape,
    ColumnShapes, ConstraintShape, ConstraintShapes, FlushShape, FlushShapes, ShapeExpr,
    ShapeExprs, ShapeForm, ShapeTerm, ShapeTerms, TableShape, TableShapes,
};
use sqlite_items::Items;
use std::alloc::{AllocError, Global};
use table_text::Name;
use tower_field::{B128, Values};

pub(crate) fn copied_name(alloc: Global, name: &Name) -> Result<Name, AllocError>
    ensures { IfOk result (λ copy. copy ≡ name.now) }
{
    Items::from_slice(alloc, name.as_slice())
}

/// A list of the same elements, in memory of its own.
pub(crate) fn copied_values(alloc: Global, values: &[B128]) -> Result<Values, AllocError>
    ensures { IfOk result (λ copy. copy ≡ values.now) }
{
    let mut copies = Vec::new(alloc);
    copies.extend_from_slice(values)?;
    Ok(Values::from_vec(copies))
}

pub(crate) fn copied_channels(
    alloc: Global,
    channels: &[ChannelShape],
) -> Result<ChannelShapes, AllocError>
    ensures { IfOk result (λ copy. copy ≡ channels.now) }
{
    let mut copies = Items::new(alloc);
    for channel in channels {
        let name = copied_name(alloc, &channel.name)?;
        copies.push(ChannelShape {
            name,
            width: channel.width,
        })?;
    }
    Ok(copies)
}

pub(crate) fn copied_boundaries(
    alloc: Global,
    boundaries: &[BoundaryShape],
) -> Result<BoundaryShapes, AllocError>
    ensures { IfOk result (λ copy. copy ≡ boundaries.now) }
{
    let mut copies = Items::new(alloc);
    for boundary in boundaries {
        let values = copied_values(alloc, boundary.values.as_slice())?;
        copies.push(BoundaryShape {
            side: boundary.side,
            channel: boundary.channel,
            values,
        })?;
    }
    Ok(copies)
}

fn copied_terms(alloc: Global, terms: &[ShapeTerm]) -> Result<ShapeTerms, AllocError>
    ensures { IfOk result (λ copy. copy ≡ terms.now) }
{
    let mut copies = Items::new(alloc);
    for term in terms {
        copies.push(ShapeTerm {
            coefficient: term.coefficient,
            column: term.column,
        })?;
    }
    Ok(copies)
}

fn copied_form(alloc: Global, form: &ShapeForm) -> Result<ShapeForm, AllocError>
    ensures { IfOk result (λ copy. copy ≡ form.now) }
{
    match form {
        ShapeForm::Shl {
            column,
            block,
            offset,
        } => Ok(ShapeForm::Shl {
            column: *column,
            block: *block,
            offset: *offset,
        }),
        ShapeForm::Shr {
            column,
            block,
            offset,
        } => Ok(ShapeForm::Shr {
            column: *column,
            block: *block,
            offset: *offset,
        }),
        ShapeForm::Rol {
            column,
            block,
            offset,
        } => Ok(ShapeForm::Rol {
            column: *column,
            block: *block,
            offset: *offset,
        }),
        ShapeForm::Pack { column, log } => Ok(ShapeForm::Pack {
            column: *column,
            log: *log,
        }),
        ShapeForm::Project { column, log, index } => Ok(ShapeForm::Project {
            column: *column,
            log: *log,
            index: *index,
        }),
        ShapeForm::Linear { constant, terms } => Ok(ShapeForm::Linear {
            constant: *constant,
            terms: copied_terms(alloc, terms.as_slice())?,
        }),
    }
}

fn copied_kind(alloc: Global, kind: &ColumnKind) -> Result<ColumnKind, AllocError>
    ensures { IfOk result (λ copy. copy ≡ kind.now) }
{
    match kind {
        ColumnKind::Committed => Ok(ColumnKind::Committed),
        ColumnKind::Virtual(form) => Ok(ColumnKind::Virtual(copied_form(alloc, form)?)),
    }
}

fn copied_columns(alloc: Global, columns: &[ColumnShape]) -> Result<ColumnShapes, AllocError>
    ensures { IfOk result (λ copy. copy ≡ columns.now) }
{
    let mut copies = Items::new(alloc);
    for column in columns {
        let name = copied_name(alloc, &column.name)?;
        let kind = copied_kind(alloc, &column.kind)?;
        copies.push(ColumnShape {
            name,
            level: column.level,
            log_values: column.log_values,
            kind,
        })?;
    }
    Ok(copies)
}

#[cycle(copying)]
fn copied_expr(alloc: Global, expr: &ShapeExpr) -> Result<ShapeExpr, AllocError>
    ensures { IfOk result (λ copy. copy ≡ expr.now) }
{
    match expr {
        ShapeExpr::Number(n) => Ok(ShapeExpr::Number(*n)),
        ShapeExpr::Column(column) => Ok(ShapeExpr::Column(*column)),
        ShapeExpr::Sum(parts) => Ok(ShapeExpr::Sum(copied_exprs(alloc, parts.as_slice())?)),
        ShapeExpr::Product(parts) => Ok(ShapeExpr::Product(copied_exprs(alloc, parts.as_slice())?)),
    }
}

#[cycle(copying)]
fn copied_exprs(alloc: Global, exprs: &[ShapeExpr]) -> Result<ShapeExprs, AllocError>
    ensures { IfOk result (λ copy. copy ≡ exprs.now) }
{
    let mut copies = Items::new(alloc);
    for expr in exprs {
        let copy = copied_expr(alloc, expr)?;
        copies.push(copy)?;
    }
    Ok(copies)
}

fn copied_constraints(
    alloc: Global,
    constraints: &[ConstraintShape],
) -> Result<ConstraintShapes, AllocError>
    ensures { IfOk result (λ copy. copy ≡ constraints.now) }
{
    let mut copies = Items::new(alloc);
    for constraint in constraints {
        let name = copied_name(alloc, &constraint.name)?;
        let expr = copied_expr(alloc, &constraint.expr)?;
        copies.push(ConstraintShape {
            name,
            log_values: constraint.log_values,
            degree: constraint.degree,
            expr,
        })?;
    }
    Ok(copies)
}

fn copied_flushes(alloc: Global, flushes: &[FlushShape]) -> Result<FlushShapes, AllocError>
    ensures { IfOk result (λ copy. copy ≡ flushes.now) }
{
    let mut copies = Items::new(alloc);
    for flush in flushes {
        let columns = Items::from_slice(alloc, flush.columns.as_slice())?;
        copies.push(FlushShape {
            side: flush.side,
            channel: flush.channel,
            columns,
            selector: flush.selector,
        })?;
    }
    Ok(copies)
}

pub(crate) fn copied_tables(alloc: Global, tables: &[TableShape]) -> Result<TableShapes, AllocError>
    ensures { IfOk result (λ copy. copy ≡ tables.now) }
{
    let mut copies = Items::new(alloc);
    for table in tables {
        let name = copied_name(alloc, &table.name)?;
        let columns = copied_columns(alloc, table.columns.as_slice())?;
        let constraints = copied_constraints(alloc, table.constraints.as_slice())?;
        let flushes = copied_flushes(alloc, table.flushes.as_slice())?;
        copies.push(TableShape {
            name,
            columns,
            constraints,
            flushes,
        })?;
    }
    Ok(copies)
}

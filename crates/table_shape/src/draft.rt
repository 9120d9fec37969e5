//! A table while it is declared: the names of its columns and constraints are numbered.

ghost use Rattle.std.specs.Prelude.{◌≡◌, ◌≤◌, ◌++◌, ◌∷◌, [], false, length, IfOk};
ghost use Rattle.std.specs.List.{list_any};
ghost use Rattle.std.specs.Str.{bytes_eq};
ghost use Rattle.table_shape.specs.Limits.{max_columns};
ghost use Rattle.table_shape.specs.Shape.{number_of_name};

use crate::copying::copied_name;
use crate::numbering::Numbers;
use crate::shape::{ColumnKind, ColumnShape, ConstraintShape, FlushShape, ShapeExpr, TableShape};
use sqlite_items::Items;
use std::alloc::{AllocError, Global};
use std::marker::Model;
use table_text::Name;

/// A table, and the numbers of the names that it has so far.
#[derive(Drop)]
pub(crate) struct TableDraft<'a> {
    table: TableShape,
    columns: Numbers<'a>,
    constraints: Numbers<'a>,
}

impl<'a> Model for TableDraft<'a> {
    ghost use Rattle.std.specs.Prelude.{◌≡◌, map};
    ghost use Rattle.std.specs.Coded.{codes};
    ghost use Rattle.table_shape.specs.declared.shape.TableShape.{TableShape as Table};
    ghost use Rattle.table_shape.specs.contracts.shape.ShapeExpr as expr;

    ghost Value = { Table };

    ghost coded = { Prim.hlevel (codes, expr.the_row.coded) };

    ghost view = { λ s. s.table };

    ghost invariant = { λ s. (s.columns ≡ map (λ c. c.name) s.table.columns) × (s.constraints ≡ map (λ z. z.name) s.table.constraints) };
}

impl<'a> TableDraft<'a> {
    /// A table of this name with nothing in it.
    pub(crate) fn new(alloc: Global, name: Name) -> TableDraft<'a>
        ensures { result ≡ record { name = name; columns = []; constraints = []; flushes = [] } }
    {
        TableDraft {
            table: TableShape {
                name,
                columns: Items::new(alloc),
                constraints: Items::new(alloc),
                flushes: Items::new(alloc),
            },
            columns: Numbers::new(alloc),
            constraints: Numbers::new(alloc),
        }
    }

    pub(crate) fn columns(&self) -> &[ColumnShape]
        ensures { result.now ≡ self.now.columns }
    {
        self.table.columns.as_slice()
    }

    pub(crate) fn constraints(&self) -> &[ConstraintShape]
        ensures { result.now ≡ self.now.constraints }
    {
        self.table.constraints.as_slice()
    }

    pub(crate) fn flushes(&self) -> &[FlushShape]
        ensures { result.now ≡ self.now.flushes }
    {
        self.table.flushes.as_slice()
    }

    /// The number of the column of this name.
    pub(crate) fn number_of(&self, name: &Name) -> Option<u32>
        requires { length self.now.columns ≤ max_columns }
        ensures { result ≡ number_of_name name.now self.now.columns }
    {
        self.columns.number_of(name)
    }

    pub(crate) fn has_column(&self, name: &Name) -> bool
        ensures { result ≡ list_any (λ c. bytes_eq name.now c.name) self.now.columns }
    {
        self.columns.has(name)
    }

    pub(crate) fn has_constraint(&self, name: &Name) -> bool
        ensures { result ≡ list_any (λ z. bytes_eq name.now z.name) self.now.constraints }
    {
        self.constraints.has(name)
    }

    /// The table with a column more.
    pub(crate) fn add_column(
        self,
        alloc: Global,
        name: &'a Name,
        level: u32,
        log_values: u32,
        kind: ColumnKind,
    ) -> Result<TableDraft<'a>, AllocError>
        requires { list_any (λ c. bytes_eq name.now c.name) self.columns ≡ false }
        ensures { IfOk result (λ table. table ≡ record self.entry { columns = self.entry.columns ++ record { name = name.now; level = level; log_values = log_values; kind = kind } ∷ [] }) }
    {
        let TableDraft {
            mut table,
            mut columns,
            constraints,
        } = self;
        columns.add(name)?;
        table.columns.push(ColumnShape {
            name: copied_name(alloc, name)?,
            level,
            log_values,
            kind,
        })?;
        Ok(TableDraft {
            table,
            columns,
            constraints,
        })
    }

    /// The table with a constraint more.
    pub(crate) fn add_constraint(
        self,
        alloc: Global,
        name: &'a Name,
        log_values: u32,
        degree: u32,
        expr: ShapeExpr,
    ) -> Result<TableDraft<'a>, AllocError>
        requires { list_any (λ z. bytes_eq name.now z.name) self.constraints ≡ false }
        ensures { IfOk result (λ table. table ≡ record self.entry { constraints = self.entry.constraints ++ record { name = name.now; log_values = log_values; degree = degree; expr = expr } ∷ [] }) }
    {
        let TableDraft {
            mut table,
            columns,
            mut constraints,
        } = self;
        constraints.add(name)?;
        table.constraints.push(ConstraintShape {
            name: copied_name(alloc, name)?,
            log_values,
            degree,
            expr,
        })?;
        Ok(TableDraft {
            table,
            columns,
            constraints,
        })
    }

    /// The table with a flush more.
    pub(crate) fn add_flush(self, flush: FlushShape) -> Result<TableDraft<'a>, AllocError>
        ensures { IfOk result (λ table. table ≡ record self.entry { flushes = self.entry.flushes ++ flush ∷ [] }) }
    {
        let TableDraft {
            mut table,
            columns,
            constraints,
        } = self;
        table.flushes.push(flush)?;
        Ok(TableDraft {
            table,
            columns,
            constraints,
        })
    }

    /// The table without the numbers of its names.
    pub(crate) fn into_table(self) -> TableShape
        ensures { result ≡ self.entry }
    {
        self.table
    }
}

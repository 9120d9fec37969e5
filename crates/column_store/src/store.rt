//! The values of all columns.

ghost use Rattle.table_shape.specs.Limits.{max_size_log};
ghost use Rattle.std.specs.Prelude.{◌≡◌, ℕ, ◌/◌, ◌%◌, ◌^◌, ◌<◌, ◌≤◌, [], length, slice_index, slice_index_or};
ghost use Rattle.tower_laws.specs.Digits.{digits};
ghost use Rattle.table_shape.specs.Filling.{values_of};
ghost use Rattle.column_store.specs.Column.{lists};
ghost use Rattle.column_store.specs.Draft.{IsPlace, position_of};

use crate::column::Column;
use crate::columns::Columns;
use sqlite_items::Items;
use std::marker::Model;
use table_shape::Shape;
use tower_field::{B128, Tower};

/// Tables, how many rows each has, and a value for each position of each column.
#[derive(Debug, Drop)]
pub struct Store {
    shape: Shape,
    rows: Items<u32>,
    tables: Vec<Columns>,
}

impl Model for Store {
    ghost use Rattle.column_store.specs.Draft.{Stored};
    ghost use Rattle.std.specs.Coded.{codes};
    ghost use Rattle.table_shape.specs.contracts.shape.ShapeExpr as expr;

    ghost Value = { Stored };

    ghost coded = { Prim.hlevel (codes, expr.the_row.coded) };

    ghost use Rattle.column_store.specs.Draft.{IsStored, filling_of_stored};

    ghost view = { λ s. filling_of_stored s.shape s.rows s.tables.items };

    ghost invariant = { λ s. IsStored s.shape s.rows s.tables.items };
}

impl Store {
    ghost use Rattle.table_shape.specs.Filling.{IsFilling};
    ghost use Rattle.table_shape.specs.Size.{size_log};
    ghost use Rattle.column_store.specs.Draft.{IsStored, filling_of_stored};

    pub(crate) fn of(shape: Shape, rows: Items<u32>, tables: Vec<Columns>) -> Store
        requires { IsStored shape rows tables.items }
        ensures { result ≡ filling_of_stored shape rows tables.items }
    {
        Store {
            shape,
            rows,
            tables,
        }
    }

    pub fn shape(&self) -> &Shape
        ensures { result.now ≡ self.now.shape }
    {
        &self.shape
    }

    /// How many rows each table has, at most 1048576.
    pub fn rows(&self) -> &[u32]
        ensures value { result.now ≡ self.now.rows }
        ensures fills { IsFilling self.now.shape.tables self.now.rows self.now.filling }
        ensures small { size_log self.now.shape.tables self.now.rows ≤ max_size_log }
    {
        self.rows.as_slice()
    }

    /// The columns of a table.
    pub fn columns(&self, table: u32) -> &[Column]
        requires { table < length self.now.shape.tables }
        ensures { lists result.now ≡ slice_index_or self.now.filling table [] }
    {
        self.tables[table as usize].as_slice()
    }

    /// The value of a column at a row, below the least power of two that has all rows, and an index.
    pub fn value(&self, table: u32, column: u32, row: u32, index: u32) -> B128
        requires { IsPlace self.now.shape.tables self.now.rows table column row index }
        ensures { result ≡ slice_index (values_of self.now.filling table column) (position_of self.now.shape.tables table column row index) }
    {
        let shape = &self.shape.tables()[table as usize].columns.as_slice()[column as usize];
        let position = ((row as usize) << shape.log_values) + index as usize;
        match B128::from_number(self.columns(table)[column as usize].get(position)) {
            Some(value) => value,
            None => unreachable!(),
        }
    }
}

/// The digit of a number at a place that it has.
pub fn digits_stand_by_place()
    ensures { (base n x p : ℕ) → p < n → slice_index (digits base n x) p ≡ x / base ^ p % base }
{}

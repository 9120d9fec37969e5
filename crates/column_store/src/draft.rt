//! Values of columns as they are put in, before the virtual columns have theirs.

ghost use Rattle.std.specs.Prelude.{◌≡◌, ℕ, ◌≤◌, length, map, slice_get, slice_index, IfOk, Some};
ghost use Rattle.table_shape.specs.Limits.{max_rows};
ghost use Rattle.table_shape.specs.Size.{size_log};
ghost use Rattle.table_shape.specs.Fits.{TableFits};
ghost use Rattle.table_shape.specs.Filling.{IsFilling};
ghost use Rattle.table_shape.specs.declared.shape.TableShape.{TableShape as Table};
ghost use Rattle.table_shape.specs.declared.shape.ColumnShape.{ColumnShape};
ghost use Rattle.column_store.specs.Column.{ColumnValues, lists};
ghost use Rattle.column_store.specs.Spelled.{column_values};
ghost use Rattle.column_store.specs.Draft.{AllKept, TakesBits, with_values, zero_tables, zeros_of};
ghost use Rattle.column_store.specs.Filled.{filled_tables};
ghost use Rattle.table_shape.specs.SizeStop.{AnswersSize};

use crate::columns::Columns;
use crate::store::Store;
use sqlite_items::Items;
use std::alloc::{AllocError, Global};
use std::marker::Model;
use table_shape::{MAX_SIZE_LOG, Shape, SizeStop, TableShape, size_log};

/// Tables, how many rows each has, and values for their committed columns.
#[derive(Debug, Drop)]
pub struct Draft {
    shape: Shape,
    rows: Items<u32>,
    tables: Vec<Columns>,
}

impl Model for Draft {
    ghost use Rattle.column_store.specs.Draft.{Drafted};
    ghost use Rattle.std.specs.Coded.{codes};
    ghost use Rattle.table_shape.specs.contracts.shape.ShapeExpr as expr;

    ghost Value = { Drafted };

    ghost coded = { Prim.hlevel (codes, expr.the_row.coded) };

    ghost use Rattle.column_store.specs.Draft.{IsDraft, drafted};

    ghost view = { λ d. drafted d.shape d.rows d.tables.items };

    ghost invariant = { λ d. IsDraft d.shape.tables d.rows d.tables.items };
}

impl Draft {
    /// All committed values are 0. It takes the memory of the virtual columns too.
    pub fn new(alloc: Global, shape: &Shape, rows: &[u32]) -> Result<Draft, SizeStop>
        requires counts { length rows.now ≡ length shape.now.tables }
        requires few { (t : ℕ) → slice_index rows.now t ≤ max_rows }
        ensures made { IfOk result (λ draft. draft ≡ record { shape = shape.now; rows = rows.now; values = zero_tables shape.now.tables rows.now }) }
        ensures size { AnswersSize result (size_log shape.now.tables rows.now) }
    {
        let log_bits = size_log(shape, rows);
        if log_bits > MAX_SIZE_LOG {
            return Err(SizeStop::TooLarge { log_bits });
        }
        let tables = zero_tables(alloc, shape.tables(), rows)?;
        let rows = Items::from_slice(alloc, rows)?;
        let shape = shape.copy(alloc)?;
        Ok(Draft {
            shape,
            rows,
            tables,
        })
    }

    /// Puts in the values of a committed column: bit k of the column is bit k mod 8, the lowest
    /// first, of byte k / 8.
    pub fn put_bits(&mut self, table: u32, column: u32, bytes: &[u8])
        requires { TakesBits self.old.shape.tables self.old.rows table column bytes.now }
        ensures { (own : Table) (shape : ColumnShape) → slice_get self.old.shape.tables table ≡ Some own → slice_get own.columns column ≡ Some shape
            → self.new ≡ record self.old { values = with_values self.old.values table column (column_values (slice_index self.old.rows table) shape bytes.now) } }
    {
        let columns = &mut self.tables[table as usize];
        columns.put_bytes(column as usize, bytes);
    }

    /// Gives the virtual columns the values of their forms.
    pub fn fill(self) -> Store
        ensures filled { result ≡ record { shape = self.shape; rows = self.rows; filling = filled_tables self.shape.tables self.rows self.values } }
        ensures fills { IsFilling result.shape.tables result.rows result.filling }
    {
        let Draft {
            shape,
            rows,
            mut tables,
        } = self;
        fill_tables(rows.as_slice(), shape.tables(), &mut tables);
        Store::of(shape, rows, tables)
    }
}

/// Columns of zeros for each table.
fn zero_tables(
    alloc: Global,
    shapes: &[TableShape],
    rows: &[u32],
) -> Result<Vec<Columns>, AllocError>
    requires counts { length rows.now ≡ length shapes.now }
    requires few { (t : ℕ) → slice_index rows.now t ≤ max_rows }
    requires fit { (t : ℕ) (table : Table) → slice_get shapes.now t ≡ Some table → TableFits table }
    ensures { IfOk result (λ made. made.items ≡ zeros_of shapes.now rows.now) }
{
    let mut tables = Vec::new(alloc);
    for (t, table) in shapes.iter().enumerate() {
        tables.push(Columns::zeros(alloc, rows[t], table.columns.as_slice())?)?;
    }
    Ok(tables)
}

fn fill_tables(rows: &[u32], shapes: &[TableShape], tables: &mut Vec<Columns>)
    requires counts { length rows.now ≡ length shapes.now }
    requires each_has_columns { length tables.old.items ≡ length shapes.now }
    requires few { (t : ℕ) → slice_index rows.now t ≤ max_rows }
    requires fit { (t : ℕ) (table : Table) → slice_get shapes.now t ≡ Some table → TableFits table }
    requires kept { AllKept rows.now shapes.now tables.old.items }
    ensures { map lists tables.new.items ≡ filled_tables shapes.now rows.now (map lists tables.old.items) }
{
    for t in 0..shapes.len() {
        let columns = &mut tables[t];
        columns.fill(rows[t], shapes[t].columns.as_slice());
    }
}

//! The columns of one table.

ghost use Rattle.std.specs.Prelude.{◌≡◌, ℕ, ◌^◌, ◌<◌, ◌≤◌, length, take, slice_get, slice_set, IfOk, Some};
ghost use Rattle.cube_laws.specs.Sums.{tabulate};
ghost use Rattle.tower_laws.specs.Digits.{digits};
ghost use Rattle.table_shape.specs.Limits.{max_rows};
ghost use Rattle.table_shape.specs.Fits.{AreSized, ColumnFits};
ghost use Rattle.table_shape.specs.declared.shape.ColumnShape.{ColumnShape as Shape};
ghost use Rattle.column_store.specs.Column.{ColumnValues, list_of, lists};
ghost use Rattle.column_store.specs.Digits.{number_of_bytes};
ghost use Rattle.column_store.specs.Draft.{AreKept, CanRead, count_of, zero_columns};
ghost use Rattle.table_shape.specs.Forms.{form_value};
ghost use Rattle.column_store.specs.Filled.{filled};

use crate::column::Column;
use crate::forms::form_value;
use crate::sums::{are_summands, fill_sum};
use std::alloc::{AllocError, Global};
use std::marker::Model;
use table_shape::{ColumnKind, ColumnShape, ShapeForm, ceil_log};
use tower_field::{B128, Tower};

/// The values of a table's columns. Contracts see the list of them.
#[derive(Debug, Drop)]
pub(crate) struct Columns {
    columns: Vec<Column>,
}

impl Model for Columns {
    ghost use Rattle.std.specs.Prelude.{List};
    ghost use Rattle.column_store.specs.Column.{ColumnValues};

    ghost Value = { List ColumnValues };

    ghost view = { λ c. c.columns.items };
}

/// How many values a column has on a number of rows, filled up to a power of two.
fn count_of(rows: u32, shape: &ColumnShape) -> usize
    requires few { rows ≤ max_rows }
    requires values { shape.now.log_values ≤ 7 }
    ensures value { result ≡ count_of rows shape.now }
    ensures bound { result ≤ 2 ^ 27 }
{
    1 << (ceil_log(u64::from(rows)) + shape.log_values)
}

impl Columns {
    /// Columns of zeros.
    pub(crate) fn zeros(
        alloc: Global,
        rows: u32,
        shapes: &[ColumnShape],
    ) -> Result<Columns, AllocError>
        requires few { rows ≤ max_rows }
        requires sized { AreSized shapes.now }
        ensures { IfOk result (λ made. made ≡ zero_columns rows shapes.now) }
    {
        let mut columns = Vec::new(alloc);
        for shape in shapes {
            let count = count_of(rows, shape);
            columns.push(Column::zeros(alloc, shape.level, count)?)?;
        }
        Ok(Columns { columns })
    }

    pub(crate) fn as_slice(&self) -> &[Column]
        ensures { result.now ≡ self.now }
    {
        self.columns.as_slice()
    }

    /// Takes the values that bytes spell into a column.
    pub(crate) fn put_bytes(&mut self, column: usize, bytes: &[u8])
        requires { column < length self.old }
        ensures { (old : ColumnValues) → slice_get self.old column ≡ Some old
            → self.new ≡ slice_set self.old column (record old { values = digits (2 ^ (2 ^ old.level)) (length old.values) (number_of_bytes bytes.now) }) }
    {
        let own = &mut self.columns[column];
        own.put_bytes(bytes);
    }

    /// Gives each virtual column the values of its form.
    pub(crate) fn fill(&mut self, rows: u32, shapes: &[ColumnShape])
        requires few { rows ≤ max_rows }
        requires fit { (c : ℕ) (shape : Shape) → slice_get shapes.now c ≡ Some shape → ColumnFits (take c shapes.now) shape }
        requires kept { AreKept rows shapes.now self.old }
        ensures { lists self.new ≡ filled rows shapes.now (lists self.old) (length shapes.now) }
    {
        fill_columns(rows, shapes, &mut self.columns);
    }
}

fn fill_columns(rows: u32, shapes: &[ColumnShape], columns: &mut Vec<Column>)
    requires few { rows ≤ max_rows }
    requires fit { (c : ℕ) (shape : Shape) → slice_get shapes.now c ≡ Some shape → ColumnFits (take c shapes.now) shape }
    requires kept { AreKept rows shapes.now columns.old.items }
    ensures { lists columns.new.items ≡ filled rows shapes.now (lists columns.old.items) (length shapes.now) }
{
    for c in 0..shapes.len() {
        let shape = &shapes[c];
        if let ColumnKind::Virtual(form) = &shape.kind {
            let (before, others) = columns.as_mut_slice().split_at_mut(c);
            fill_column(
                count_of(rows, shape),
                &shapes[..c],
                before,
                form,
                &mut others[0],
            );
        }
    }
}

/// Gives a column the values of a form over the columns before it.
fn fill_column(
    count: usize,
    shapes: &[ColumnShape],
    before: &[Column],
    form: &ShapeForm,
    column: &mut Column,
)
    requires counts { length before.now ≡ length shapes.now }
    requires reads { CanRead shapes.now form.now }
    requires count { count ≡ length column.old.values }
    requires small { count ≤ 2 ^ 27 }
    requires fits { (p : ℕ) → form_value shapes.now (list_of (lists before.now)) form.now p < 2 ^ (2 ^ column.old.level) }
    ensures { column.new ≡ record column.old { values = tabulate count (form_value shapes.now (list_of (lists before.now)) form.now) } }
{
    if let ShapeForm::Linear { constant, terms } = form {
        let terms = terms.as_slice();
        if *constant == B128::ZERO && are_summands(before, terms, column.level(), count) {
            fill_sum(before, terms, column);
            return;
        }
    }
    for position in 0..count {
        column.set(position, form_value(shapes, before, form, position));
    }
}

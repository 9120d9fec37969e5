//! Projected columns.

ghost use Rattle.std.specs.Prelude.{◌≡◌, IsSome, Some};
ghost use Rattle.eval_reduce.specs.Project.{projection_of};

use crate::virtual_column::{column_shape, vars_on};
use table_shape::{ColumnKind, Shape, ShapeForm};

/// A column of `2 ^ vars` values, each that of this index among `2 ^ log` values of its source.
#[derive(Clone, Copy)]
pub struct Projection {
    pub table: u32,
    pub column: u32,
    pub vars: u32,
    pub source: u32,
    pub log: u32,
    pub index: u32,
}

impl Projection {
    /// That of a projected column on a number of rows.
    pub(crate) fn of(shape: &Shape, table: u32, column: u32, rows: u32) -> Projection
        requires { IsSome (projection_of shape.now.tables rows table column) }
        ensures { projection_of shape.now.tables rows table column ≡ Some result }
    {
        let of = column_shape(shape, table, column);
        let vars = vars_on(rows, of);
        match &of.kind {
            ColumnKind::Virtual(
                ShapeForm::Project {
                    column: source,
                    log,
                    index,
                },
            ) => Projection {
                table,
                column,
                vars,
                source: *source,
                log: *log,
                index: *index,
            },
            _ => unreachable!(),
        }
    }
}

//! Shifted columns.

ghost use Rattle.std.specs.Prelude.{◌≡◌, ◌<◌, ◌≤◌, ◌^◌, IsSome, Some};
ghost use Rattle.eval_reduce.specs.Shift.{shifting_of};

use crate::virtual_column::{column_shape, vars_on};
use cube_mle::ShiftKind;
use table_shape::{ColumnKind, Shape, ShapeForm};

/// A column of `2 ^ vars` values, each moved by `offset` within blocks of `2 ^ block` of its source.
#[derive(Clone, Copy)]
pub struct Shifting {
    pub table: u32,
    pub column: u32,
    pub vars: u32,
    pub source: u32,
    pub kind: ShiftKind,
    pub block: u32,
    pub offset: u32,
}

impl Shifting {
    /// That of a shifted column on a number of rows.
    pub(crate) fn of(shape: &Shape, table: u32, column: u32, rows: u32) -> Shifting
        requires { IsSome (shifting_of shape.now.tables rows table column) }
        ensures value { shifting_of shape.now.tables rows table column ≡ Some result }
        ensures block { result.block ≤ 7 }
        ensures within { result.block ≤ result.vars }
        ensures offset { result.offset < 2 ^ result.block }
    {
        let of = column_shape(shape, table, column);
        let vars = vars_on(rows, of);
        let (kind, source, block, offset) = match &of.kind {
            ColumnKind::Virtual(
                ShapeForm::Shl {
                    column,
                    block,
                    offset,
                },
            ) => (ShiftKind::Shl, *column, *block, *offset),
            ColumnKind::Virtual(
                ShapeForm::Shr {
                    column,
                    block,
                    offset,
                },
            ) => (ShiftKind::Shr, *column, *block, *offset),
            ColumnKind::Virtual(
                ShapeForm::Rol {
                    column,
                    block,
                    offset,
                },
            ) => (ShiftKind::Rol, *column, *block, *offset),
            _ => unreachable!(),
        };
        Shifting {
            table,
            column,
            vars,
            source,
            kind,
            block,
            offset,
        }
    }
}

//! Packed columns.

ghost use Rattle.std.specs.Prelude.{◌≡◌, ◌<◌, ◌≤◌, ◌+◌, ◌*◌, ◌^◌, IsSome, Some, length};
ghost use Rattle.eval_reduce.specs.Pack.{pack_value, packing_of};

use crate::virtual_column::{column_shape, vars_on};
use table_shape::{ColumnKind, Shape, ShapeForm};
use tower_field::{B128, Tower};

/// A column of `2 ^ vars` values, each made of `2 ^ log` values of its source, which has that level.
#[derive(Clone, Copy)]
pub struct Packing {
    pub table: u32,
    pub column: u32,
    pub vars: u32,
    pub source: u32,
    pub level: u32,
    pub log: u32,
}

impl Packing {
    /// That of a packed column on a number of rows.
    pub(crate) fn of(shape: &Shape, table: u32, column: u32, rows: u32) -> Packing
        requires { IsSome (packing_of shape.now.tables rows table column) }
        ensures value { packing_of shape.now.tables rows table column ≡ Some result }
        ensures small { result.level + result.log ≤ 7 }
    {
        let of = column_shape(shape, table, column);
        let vars = vars_on(rows, of);
        match &of.kind {
            ColumnKind::Virtual(
                ShapeForm::Pack {
                    column: source,
                    log,
                },
            ) => Packing {
                table,
                column,
                vars,
                source: *source,
                level: column_shape(shape, table, *source).level,
                log: *log,
            },
            _ => unreachable!(),
        }
    }

    /// `2 ^ log` values as one: the sum of 2 ^ (u · 2 ^ level) times value u.
    pub(crate) fn value(&self, values: &[B128]) -> B128
        requires small { self.now.level + self.now.log ≤ 7 }
        requires whole { length values.now ≡ 2 ^ self.now.log }
        ensures { result ≡ pack_value self.now.level self.now.log values.now }
    {
        let mut sum = B128::ZERO;
        for u in 0..values.len() {
            sum = sum + basis(self.level, u) * values[u];
        }
        sum
    }
}

/// 2 ^ (u · 2 ^ level).
fn basis(level: u32, u: usize) -> B128
    requires small { level ≤ 7 }
    requires fits { u * 2 ^ level < 128 }
    ensures { result ≡ 2 ^ (u * 2 ^ level) }
{
    match B128::from_number(1 << (u << level)) {
        Some(basis) => basis,
        None => unreachable!(),
    }
}

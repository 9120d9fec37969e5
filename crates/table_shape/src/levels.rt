//! The levels of numbers, of columns and of their sums.

ghost use Rattle.std.specs.Prelude.{◌≡◌, ◌≤◌};
ghost use Rattle.tower_laws.specs.Tower.{level};
ghost use Rattle.table_text.specs.Limits.{max_level};
ghost use Rattle.table_shape.specs.Fits.{AreSized};
ghost use Rattle.table_shape.specs.Forms.{level_at, linear_level};

use crate::shape::{ColumnShape, ShapeTerm};
use sqlite_items::at;
use tower_field::{B128, Tower};

/// The least level that holds an element.
#[tactic(auto, using(crate::proofs::LeastLevel::level_is_suc))]
fn level_of(element: B128) -> u32
    ensures value { result ≡ level element }
    ensures bound { result ≤ max_level }
{
    match element.number() {
        0..=0x1 => 0,
        0x2..=0x3 => 1,
        0x4..=0xf => 2,
        0x10..=0xff => 3,
        0x100..=0xffff => 4,
        0x1_0000..=0xffff_ffff => 5,
        0x1_0000_0000..=0xffff_ffff_ffff_ffff => 6,
        _ => 7,
    }
}

/// The level of a column, and 0 where there is no such column.
pub(crate) fn level_at(columns: &[ColumnShape], column: u32) -> u32
    requires { AreSized columns.now }
    ensures value { result ≡ level_at columns.now column }
    ensures bound { result ≤ max_level }
{
    match at(columns, column as usize) {
        Some(column) => column.level,
        None => 0,
    }
}

/// The greatest level of a constant, of coefficients and of the columns that they multiply.
pub(crate) fn linear_level(columns: &[ColumnShape], constant: B128, terms: &[ShapeTerm]) -> u32
    requires { AreSized columns.now }
    ensures value { result ≡ linear_level columns.now constant terms.now }
    ensures bound { result ≤ max_level }
{
    let mut level = level_of(constant);
    for term in terms {
        let own = level_of(term.coefficient).max(level_at(columns, term.column));
        level = level.max(own);
    }
    level
}

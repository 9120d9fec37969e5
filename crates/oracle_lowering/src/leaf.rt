//! The factor of a flush at a row.

ghost use Rattle.std.specs.Prelude.{◌≡◌, ℕ, bit_xor, ltb, slice_index};
ghost use Rattle.tower_laws.specs.Tower.{mul};
ghost use Rattle.shift_laws.specs.Shifts.{flag};
ghost use Rattle.multiset_laws.specs.Fingerprint.{fingerprint};
ghost use Rattle.table_shape.specs.Channels.{tuple_at};
ghost use Rattle.table_shape.specs.Lowering.{leaf_at, selector_at, step};
ghost use Rattle.column_store.specs.Column.{list_of, lists};

use column_store::Column;
use table_shape::FlushShape;
use tower_field::{B128, Tower};

pub(crate) fn element(n: u128) -> B128
    ensures { result ≡ n }
{
    match B128::from_number(n) {
        Some(element) => element,
        None => unreachable!(),
    }
}

/// The value of a column of one value per row, and 0 where there is none.
fn value_at(columns: &[Column], column: u32, row: u32) -> B128
    ensures { result ≡ slice_index (list_of (lists columns.now) column) row }
{
    match columns.get(column as usize) {
        Some(column) => element(column.get(row as usize)),
        None => B128::ZERO,
    }
}

/// 1 at each of `rows` rows, and 0 at those that fill them up.
pub(crate) fn step_at(rows: u32, row: u32) -> B128
    ensures { result ≡ step rows row }
{
    if row < rows { B128::ONE } else { B128::ZERO }
}

/// The value of a flush's selector at a row, and 1 where it has none.
fn selector_at(columns: &[Column], selector: Option<u32>, row: u32) -> B128
    ensures { result ≡ selector_at (list_of (lists columns.now)) selector row }
{
    match selector {
        Some(selector) => value_at(columns, selector, row),
        None => B128::ONE,
    }
}

/// The tuple of a flush at a row as one number.
fn fingerprint_at(
    columns: &[Column],
    flush: &FlushShape,
    row: u32,
    alpha: B128,
    gamma: B128,
) -> B128
    ensures { result ≡ fingerprint alpha gamma (tuple_at (list_of (lists columns.now)) flush.now row) }
{
    let mut sum = gamma;
    let mut power = B128::ONE;
    for column in flush.columns.as_slice() {
        sum = sum + power * value_at(columns, *column, row);
        power = power * alpha;
    }
    sum
}

/// The leaf of a flush at a row: the tuple's fingerprint where the row is one of `rows` and the
/// flush takes it, and 1 elsewhere.
pub(crate) fn leaf_at(
    columns: &[Column],
    rows: u32,
    flush: &FlushShape,
    row: u32,
    alpha: B128,
    gamma: B128,
) -> B128
    ensures { result ≡ leaf_at alpha gamma (list_of (lists columns.now)) rows flush.now row }
{
    let taken = step_at(rows, row) * selector_at(columns, flush.selector, row);
    let tuple = fingerprint_at(columns, flush, row, alpha, gamma);
    taken * (tuple + B128::ONE) + B128::ONE
}

//! The product of one side of a channel.

ghost use Rattle.std.specs.Prelude.{◌≡◌, ◌<◌, ◌≤◌, ◌&&◌, ◌==◌, length, slice_index, slice_get, Some};
ghost use Rattle.std.specs.List.{filter};
ghost use Rattle.counting_laws.specs.Multiset.{product_by};
ghost use Rattle.multiset_laws.specs.Fingerprint.{fingerprint};
ghost use Rattle.poly_laws.specs.Polynomial.{horner};
ghost use Rattle.table_shape.specs.Channels.{is_boundary_of, is_flush_of, same_side};
ghost use Rattle.table_shape.specs.Filling.{values_of};
ghost use Rattle.table_shape.specs.Limits.{max_rows};
ghost use Rattle.table_shape.specs.Lowering.{boundaries_product, flush_product, side_product, tables_product};
ghost use Rattle.column_store.specs.Column.{list_of, lists};

use crate::leaf::leaf_at;
use column_store::{Column, Store};
use poly_forms::eval;
use table_shape::{BoundaryShape, FlushShape, TableShape, ceil_log};
use table_text::Side;
use tower_field::{B128, Tower};

/// Whether two sides are one.
fn is_side(one: Side, other: Side) -> bool
    ensures { result ≡ same_side one other }
{
    match (one, other) {
        (Side::Push, Side::Push) | (Side::Pull, Side::Pull) => true,
        (Side::Push, Side::Pull) | (Side::Pull, Side::Push) => false,
    }
}

/// Whether a flush is of this side of this channel.
fn is_flush_of(side: Side, channel: u32, flush: &FlushShape) -> bool
    ensures { result ≡ is_flush_of side channel flush.now }
{
    is_side(side, flush.side) && channel == flush.channel
}

fn is_boundary_of(side: Side, channel: u32, boundary: &BoundaryShape) -> bool
    ensures { result ≡ is_boundary_of side channel boundary.now }
{
    is_side(side, boundary.side) && channel == boundary.channel
}

/// The product of a flush's leaves on all rows of the table, filled up.
fn flush_product(
    columns: &[Column],
    rows: u32,
    flush: &FlushShape,
    alpha: B128,
    gamma: B128,
) -> B128
    requires { rows ≤ max_rows }
    ensures { result ≡ flush_product alpha gamma (list_of (lists columns.now)) rows flush.now }
{
    let mut product = B128::ONE;
    for row in 0..1u32 << ceil_log(u64::from(rows)) {
        product = product * leaf_at(columns, rows, flush, row, alpha, gamma);
    }
    product
}

/// The product of a table's flushes of one side of a channel.
fn flushes_product(
    columns: &[Column],
    rows: u32,
    flushes: &[FlushShape],
    side: Side,
    channel: u32,
    alpha: B128,
    gamma: B128,
) -> B128
    requires { rows ≤ max_rows }
    ensures { result ≡ product_by (flush_product alpha gamma (list_of (lists columns.now)) rows) (filter (is_flush_of side channel) flushes.now) }
{
    let mut product = B128::ONE;
    for flush in flushes {
        if is_flush_of(side, channel, flush) {
            product = product * flush_product(columns, rows, flush, alpha, gamma);
        }
    }
    product
}

/// The product of the boundaries of one side of a channel.
fn boundaries_product(
    boundaries: &[BoundaryShape],
    side: Side,
    channel: u32,
    alpha: B128,
    gamma: B128,
) -> B128
    ensures { result ≡ boundaries_product side channel alpha gamma boundaries.now }
{
    let mut product = B128::ONE;
    for boundary in boundaries {
        if is_boundary_of(side, channel, boundary) {
            product = product * (gamma + eval(boundary.values.as_slice(), alpha));
        }
    }
    product
}

/// The product of the flushes of all tables of one side of a channel.
fn tables_product(store: &Store, side: Side, channel: u32, alpha: B128, gamma: B128) -> B128
    ensures { result ≡ tables_product side channel alpha gamma store.now.filling store.now.rows 0 store.now.shape.tables }
{
    let rows = store.rows();
    let mut product = B128::ONE;
    for (t, table) in store.shape().tables().iter().enumerate() {
        let columns = store.columns(t as u32);
        let flushes = table.flushes.as_slice();
        product = product * flushes_product(columns, rows[t], flushes, side, channel, alpha, gamma);
    }
    product
}

/// The product of one side of a channel: of all leaves of its flushes, and of the fingerprints of
/// its boundaries.
pub(crate) fn side_product(
    store: &Store,
    side: Side,
    channel: u32,
    alpha: B128,
    gamma: B128,
) -> B128
    ensures { result ≡ side_product side store.now.shape store.now.rows store.now.filling alpha gamma channel }
{
    let tables = tables_product(store, side, channel, alpha, gamma);
    let boundaries = store.shape().boundaries();
    tables * boundaries_product(boundaries, side, channel, alpha, gamma)
}

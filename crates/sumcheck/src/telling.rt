//! A claim on each of several columns.

ghost use Rattle.std.specs.Prelude.{◌≡◌, ◌+◌, ◌≤◌, ◌++◌, length, vec_capacity};
ghost use Rattle.sumcheck.specs.Column.{column_claims};

use crate::column_claim::ColumnClaim;
use crate::points::Points;
use tower_field::B128;

/// Appends a claim on each column of a table, at one point.
pub fn push_claims(
    table: u32,
    columns: &[u32],
    point: &[B128],
    values: &[B128],
    points: &mut Points,
    claims: &mut Vec<ColumnClaim>,
)
    requires equal { length values.now ≡ length columns.now }
    requires many { length columns.now ≤ points.old.count }
    requires short { length point.now ≤ points.old.vars }
    requires space { length claims.old.items + length columns.now ≤ vec_capacity claims.old }
    ensures claims { claims.new.items ≡ claims.old.items ++ column_claims table point.now columns.now values.now }
    ensures vars { points.new.vars ≡ points.old.vars }
{
    for i in 0..values.len() {
        let claim = ColumnClaim {
            table,
            column: columns[i],
            point: points.copy(point),
            value: values[i],
        };
        if claims.push(claim).is_err() {
            unreachable!();
        }
    }
}

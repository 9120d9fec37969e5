//! A table of a shape.

ghost use Rattle.std.specs.Prelude.{◌≡◌, ◌<◌, ◌≤◌, length, slice_get, Some};
ghost use Rattle.table_shape.specs.Limits.{max_tables};
ghost use Rattle.proof_plan.specs.Small.{TableIsSmall};

use table_shape::{Shape, TableShape};

/// How many tables a shape has.
pub(crate) fn table_count(shape: &Shape) -> u32
    ensures count { result ≡ length shape.now.tables }
    ensures few { result ≤ max_tables }
{
    shape.tables().len() as u32
}

/// The table of that number.
pub(crate) fn table_at(shape: &Shape, t: u32) -> &TableShape
    requires { t < length shape.now.tables }
    ensures table { slice_get shape.now.tables t ≡ Some result.now }
    ensures small { TableIsSmall result.now }
{
    &shape.tables()[t as usize]
}

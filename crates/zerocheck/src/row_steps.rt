//! The table that is 1 at the positions of rows, and its extension.

ghost use Rattle.std.specs.Prelude.{◌≡◌, ◌≤◌, ◌<◌, ◌*◌, ◌^◌, drop, IfOk};
ghost use Rattle.shift_laws.specs.Shifts.{step_down};
ghost use Rattle.zerocheck.specs.Zero.{row_steps};

use crate::group::Group;
use crate::no_memory::NoMemory;
use cube_mle::step_down_at;
use std::alloc::Global;
use tower_field::{B128, Tower};

/// The coordinates after the first `low`.
fn high(point: &[B128], low: u32) -> &[B128]
    ensures { result.now ≡ drop low point.now }
{
    let low = low as usize;
    if low <= point.len() {
        &point[low..]
    } else {
        &point[point.len()..]
    }
}

/// The extension of the table that is 1 at the positions of rows, of `2 ^ log_values` positions each,
/// at a point of all variables.
pub fn row_steps_at(rows: u32, log_values: u32, point: &[B128]) -> B128
    ensures { result ≡ step_down rows (drop log_values point.now) }
{
    step_down_at(rows, high(point, log_values))
}

/// How many positions that many rows have.
fn positions(rows: u32, log_values: u32) -> u64
    requires { log_values ≤ 32 }
    ensures { result ≡ rows * 2 ^ log_values }
{
    u64::from(rows) << log_values
}

/// The table of a group that is 1 at the positions of rows, and 0 at the others.
pub fn row_steps_table(alloc: Global, group: &Group) -> Result<Vec<B128>, NoMemory>
    ensures { IfOk result (λ table. table.items ≡ row_steps group.now) }
{
    let on_rows = positions(group.rows, group.log_values);
    let size = 1u64 << group.vars;
    let mut table = Vec::with_capacity(alloc, size as usize)?;
    for p in 0..size {
        let step = if p < on_rows { B128::ONE } else { B128::ZERO };
        if table.push(step).is_err() {
            return Err(NoMemory);
        }
    }
    Ok(table)
}

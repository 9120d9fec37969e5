//! The extension of a table.

ghost use Rattle.std.specs.Prelude.{◌≡◌, ◌^◌, length, IfOk};
ghost use Rattle.cube_laws.specs.Extension.{extension};

use crate::fold::fold_low;
use crate::no_memory::NoMemory;
use std::alloc::Global;
use tower_field::B128;

/// The extension of a table at a point. It takes the memory of a copy of the table.
pub fn mle_at(alloc: Global, values: &[B128], point: &[B128]) -> Result<B128, NoMemory>
    requires { length values.now ≡ 2 ^ length point.now }
    ensures { IfOk result (λ value. value ≡ extension values.now point.now) }
{
    let mut table = Vec::from_slice(alloc, values)?;
    for x in point {
        fold_low(&mut table, *x);
    }
    Ok(table[0])
}

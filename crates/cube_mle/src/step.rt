//! The step that is 1 below a number of rows.

ghost use Rattle.std.specs.Prelude.{◌≡◌};
ghost use Rattle.shift_laws.specs.Shifts.{step_down};

use tower_field::{B128, Tower};

/// The extension at a point of the table that is 1 at the positions below `rows`. It takes no memory.
pub fn step_down_at(rows: u32, point: &[B128]) -> B128
    ensures { result ≡ step_down rows point.now }
{
    let mut rest = rows;
    let mut step = B128::ZERO;
    for x in point {
        step = if rest % 2 == 0 {
            (B128::ONE + *x) * step
        } else {
            B128::ONE + *x + *x * step
        };
        rest /= 2;
    }
    if rest == 0 { step } else { B128::ONE }
}

//! The lowest variable of a table.

ghost use Rattle.std.specs.Prelude.{◌≡◌, ◌%◌, ◌<◌, length, bit_xor};
ghost use Rattle.tower_laws.specs.Tower.{mul};
ghost use Rattle.cube_laws.specs.Extension.{fold_low};

use tower_field::B128;

/// The value at `r` of the line that is `low` at 0 and `high` at 1.
#[inline]
fn between(low: B128, high: B128, r: B128) -> B128
    ensures { result ≡ bit_xor low (mul r (bit_xor low high)) }
{
    low + r * (low + high)
}

/// Sets the lowest variable of a table to `r`, in place. It takes no memory.
pub fn fold_low(table: &mut Vec<B128>, r: B128)
    requires some { 0 < length table.old.items }
    requires even { length table.old.items % 2 ≡ 0 }
    ensures { table.new.items ≡ fold_low r table.old.items }
{
    let half = table.len() / 2;
    for i in 0..half {
        let low = table[2 * i];
        let high = table[2 * i + 1];
        table[i] = between(low, high, r);
    }
    table.truncate(half);
}

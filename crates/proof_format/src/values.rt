//! Values that bytes spell.

ghost use Rattle.std.specs.Prelude.{◌≡◌, ◌/◌, ◌%◌, length, IfOk};
ghost use Rattle.proof_format.specs.Values.{values_of};

use std::alloc::AllocError;
use tower_field::B128;

/// Sets `out` to the values that these bytes spell, 16 bytes each, the lowest first.
pub fn read_values(bytes: &[u8], out: &mut Vec<B128>) -> Result<(), AllocError>
    requires whole { length bytes.now % 16 ≡ 0 }
    ensures { IfOk result (λ _. out.new.items ≡ values_of (length bytes.now / 16) bytes.now) }
{
    out.clear();
    let count = bytes.len() / 16;
    let mut rest = bytes;
    for _ in 0..count {
        let (first, tail) = rest.split_at(16);
        let mut one = [0u8; 16];
        one.copy_from_slice(first);
        out.push(B128::from_bytes(one))?;
        rest = tail;
    }
    Ok(())
}

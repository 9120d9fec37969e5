//! Shifts within a block, as tables of two positions.

ghost use Rattle.std.specs.Prelude.{◌≡◌, ◌<◌, ◌^◌, length, true, false};
ghost use Rattle.shift_laws.specs.Shifts.{carried, pairs_at, shift_at};
ghost use Rattle.cube_mle.specs.Moving.{shift_of, HasAddedOne, HasAddedZero};

use tower_field::{B128, Tower};

/// Up, down or round by an offset within a block.
#[derive(Clone, Copy, PartialEq, Eq, Debug)]
pub enum ShiftKind {
    Shl,
    Shr,
    Rol,
}

/// Over the positions q and p with q = p + offset in the bits so far: the sums of eq of both points
/// and (q, p), without a carry out of these bits and with one.
#[derive(Clone, Copy)]
struct Carries {
    without: B128,
    with: B128,
}

impl Carries {
    /// The same with one more bit, at which the offset has `bit`.
    fn add_bit(self, bit: bool, y: B128, x: B128) -> Carries
        ensures at_zero { bit ≡ false → HasAddedZero y x self.without self.with result.without result.with }
        ensures at_one { bit ≡ true → HasAddedOne y x self.without self.with result.without result.with }
    {
        let kept = B128::ONE + x + y;
        let rising = (B128::ONE + x) * y;
        let falling = x * (B128::ONE + y);
        if bit {
            Carries {
                without: rising * self.without,
                with: falling * self.without + kept * self.with,
            }
        } else {
            Carries {
                without: kept * self.without + rising * self.with,
                with: falling * self.with,
            }
        }
    }
}

/// Both sums once all bits are added.
fn add_bits(offset: u32, y: &[B128], x: &[B128]) -> Carries
    requires equal { length y.now ≡ length x.now }
    requires within { offset < 2 ^ length x.now }
    ensures without { result.without ≡ pairs_at (length x.now) (carried (length x.now) offset 0 0) y.now x.now }
    ensures with { result.with ≡ pairs_at (length x.now) (carried (length x.now) offset 0 1) y.now x.now }
{
    let mut rest = offset;
    let mut carries = Carries {
        without: B128::ONE,
        with: B128::ZERO,
    };
    for k in 0..x.len() {
        carries = carries.add_bit(rest % 2 == 1, y[k], x[k]);
        rest /= 2;
    }
    carries
}

/// The extension at (y, x) of the table that is 1 where the value at x goes to y. It takes no memory.
pub fn shift_at(kind: ShiftKind, offset: u32, y: &[B128], x: &[B128]) -> B128
    requires equal { length y.now ≡ length x.now }
    requires within { offset < 2 ^ length x.now }
    ensures { result ≡ shift_at (shift_of kind) (length x.now) offset y.now x.now }
{
    match kind {
        ShiftKind::Shl => add_bits(offset, y, x).without,
        ShiftKind::Shr => add_bits(offset, x, y).without,
        ShiftKind::Rol => {
            let carries = add_bits(offset, y, x);
            carries.without + carries.with
        }
    }
}

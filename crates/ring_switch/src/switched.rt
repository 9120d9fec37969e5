//! What the sum is about.

use crate::no_memory::NoMemory;
use crate::packed_value::PackedValue;
use crate::tensor_eq::tensor_eq_at;
use poly_forms::{CheckKind, DrawKind};
use std::alloc::Global;
use std::marker::Model;
use sumcheck::{SumOf, SumTerms};
use tower_field::{B128, Tower};

/// The most coordinates of a high point, and so the most rounds.
pub(crate) const MOST: usize = 17;

/// The coordinates of the high point, and the draws that set the rows.
#[derive(Drop)]
pub struct Switched {
    high: Vec<B128>,
    combine: [B128; 7],
}

impl Model for Switched {
    ghost use Rattle.std.specs.Prelude.{◌≤◌, vec_capacity};
    ghost use Rattle.ring_switch.specs.Switching.{Switched};

    ghost Value = { Switched };

    ghost view = { λ t. record { high = t.high.items; combine = t.combine } };

    ghost invariant = { λ t. 17 ≤ vec_capacity t.high };
}

impl Switched {
    ghost use Rattle.std.specs.Prelude.{◌≡◌, ◌<◌, ◌≤◌, [], length, slice_set, take, IfOk};

    /// Before any point and draw.
    pub(crate) fn begin(alloc: Global) -> Result<Switched, NoMemory>
        ensures high { IfOk result (λ t. t.high ≡ []) }
        ensures seven { IfOk result (λ t. length t.combine ≡ 7) }
    {
        Ok(Switched {
            high: Vec::with_capacity(alloc, MOST)?,
            combine: [B128::ZERO; 7],
        })
    }

    /// Takes the high point.
    pub(crate) fn place(&mut self, high: &[B128])
        requires none { self.old.high ≡ [] }
        requires short { length high.now ≤ 17 }
        ensures { self.new ≡ record self.old { high = high.now } }
    {
        if self.high.extend_from_slice(high).is_err() {
            unreachable!();
        }
    }

    /// Draw `k`.
    pub(crate) fn set(&mut self, k: u32, c: B128)
        requires { k < 7 }
        ensures { self.new ≡ record self.old { combine = slice_set self.old.combine k c } }
    {
        self.combine[k as usize] = c;
    }

    pub(crate) fn high(&self) -> &[B128]
        ensures { result.now ≡ self.now.high }
    {
        self.high.as_slice()
    }

    /// The first draws, `count` of them.
    pub(crate) fn prefix(&self, count: u32) -> &[B128]
        requires { count ≤ 7 }
        ensures { result.now ≡ take count self.now.combine }
    {
        &self.combine[..count as usize]
    }
}

impl SumTerms for Switched {
    ghost use Rattle.ring_switch.specs.Switching.{switch_sum};

    type Closed = PackedValue;

    ghost summing = { switch_sum };

    fn check() -> CheckKind {
        CheckKind::Constant
    }

    fn kind() -> DrawKind {
        DrawKind::SwitchRound
    }

    fn count(&self) -> u32 {
        1
    }

    fn sum_of(&self) -> SumOf<'_> {
        SumOf::Switch {
            high: self.high.as_slice(),
            combine: &self.combine,
        }
    }

    fn left(&self, point: &[B128], values: &[B128]) -> B128 {
        tensor_eq_at(self.high.as_slice(), point, &self.combine) * values[0]
    }
}

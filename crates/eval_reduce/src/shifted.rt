//! What the sum of a shifted column is about.

use crate::shifting::Shifting;
use cube_mle::shift_at;
use poly_forms::{CheckKind, DrawKind};
use std::marker::Model;
use sumcheck::{ColumnClaim, SumOf, SumTerms};
use tower_field::{B128, Tower, Values};

/// A shifted column, and the point of a claim on it.
#[derive(Drop)]
pub struct Shifted {
    shifting: Shifting,
    point: Values,
}

impl Model for Shifted {
    ghost use Rattle.std.specs.Prelude.{◌≤◌, ◌<◌, ◌^◌, length};
    ghost use Rattle.eval_reduce.specs.Shift.{Shifted};

    ghost Value = { Shifted };

    ghost view = { λ t. record { shifting = t.shifting; point = t.point } };

    ghost invariant = { λ t. record { block : t.shifting.block ≤ length t.point; offset : t.shifting.offset < 2 ^ t.shifting.block } };
}

impl Shifted {
    ghost use Rattle.std.specs.Prelude.{◌≡◌, ◌≤◌, ◌<◌, ◌+◌, ◌^◌, [], length, vec_capacity};
    ghost use Rattle.eval_reduce.specs.Shift.{unshifted};

    pub(crate) fn new(shifting: Shifting, point: Values) -> Shifted
        requires block { shifting.block ≤ length point }
        requires offset { shifting.offset < 2 ^ shifting.block }
        ensures { result ≡ record { shifting = shifting; point = point } }
    {
        Shifted { shifting, point }
    }

    /// The claim on the source at the draws, in the memory of `room`.
    pub(crate) fn unshifted(&self, draws: &[B128], room: Vec<B128>, value: B128) -> ColumnClaim
        requires empty { room.items ≡ [] }
        requires space { length draws.now + length self.now.point ≤ vec_capacity room }
        ensures { result ≡ unshifted self.now draws.now value }
    {
        let mut point = room;
        if point.extend_from_slice(draws).is_err() {
            unreachable!();
        }
        let high = &self.point.as_slice()[self.shifting.block as usize..];
        if point.extend_from_slice(high).is_err() {
            unreachable!();
        }
        ColumnClaim {
            table: self.shifting.table,
            column: self.shifting.source,
            point: Values::from_vec(point),
            value,
        }
    }
}

impl SumTerms for Shifted {
    ghost use Rattle.eval_reduce.specs.Shift.{the_sum};

    type Closed = ColumnClaim;

    ghost summing = { the_sum };

    fn check() -> CheckKind {
        CheckKind::ShiftFinal
    }

    fn kind() -> DrawKind {
        DrawKind::ShiftRound
    }

    fn count(&self) -> u32 {
        1
    }

    fn sum_of(&self) -> SumOf<'_> {
        SumOf::Shift {
            table: self.shifting.table,
            column: self.shifting.column,
            point: self.point.as_slice(),
        }
    }

    fn left(&self, point: &[B128], values: &[B128]) -> B128 {
        let low = &self.point.as_slice()[..self.shifting.block as usize];
        if point.len() != low.len() {
            return B128::ZERO;
        }
        shift_at(self.shifting.kind, self.shifting.offset, low, point) * values[0]
    }
}

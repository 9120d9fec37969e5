//! What the sum of a merge is about.

use crate::batch::eq_of_batch;
use poly_forms::{CheckKind, DrawKind};
use std::marker::Model;
use sumcheck::{ColumnClaim, SumOf, SumTerms};
use tower_field::{B128, Values};

/// Claims on a column of `vars` variables, and the draw that joins them.
#[derive(Drop)]
pub struct Joined {
    pub table: u32,
    pub column: u32,
    pub vars: u32,
    pub claims: Vec<ColumnClaim>,
    pub mu: B128,
}

impl Model for Joined {
    ghost use Rattle.eval_reduce.specs.Merge.{Joined};

    ghost Value = { Joined };

    ghost view = { λ j. record { table = j.table; column = j.column; vars = j.vars; claims = j.claims.items; mu = j.mu } };
}

impl Joined {
    ghost use Rattle.std.specs.Prelude.{◌≡◌};
    ghost use Rattle.eval_reduce.specs.Merge.{merged};

    /// The claim on the column at another point.
    pub fn merged(&self, point: Vec<B128>, value: B128) -> ColumnClaim
        ensures { result ≡ merged self.now point.items value }
    {
        ColumnClaim {
            table: self.table,
            column: self.column,
            point: Values::from_vec(point),
            value,
        }
    }
}

impl SumTerms for Joined {
    ghost use Rattle.eval_reduce.specs.Merge.{merge_sum};

    type Closed = ColumnClaim;

    ghost summing = { merge_sum };

    fn check() -> CheckKind {
        CheckKind::MergeFinal
    }

    fn kind() -> DrawKind {
        DrawKind::MergeRound
    }

    fn count(&self) -> u32 {
        1
    }

    fn sum_of(&self) -> SumOf<'_> {
        SumOf::Merge {
            claims: self.claims.as_slice(),
            mu: self.mu,
        }
    }

    fn left(&self, point: &[B128], values: &[B128]) -> B128 {
        eq_of_batch(self.claims.as_slice(), self.mu, point) * values[0]
    }
}

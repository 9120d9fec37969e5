//! What the sum is about.

use cube_mle::eq_at;
use poly_forms::{CheckKind, DrawKind};
use sumcheck::{ColumnClaim, SumOf, SumTerms};
use tower_field::{B128, Tower};

/// The claim on a column that is moved.
#[derive(Drop)]
pub struct Moved {
    pub claim: ColumnClaim,
}

impl SumTerms for Moved {
    ghost use Rattle.walk_example.specs.Move.{the_sum};

    type Closed = ColumnClaim;

    ghost summing = { the_sum };

    fn check() -> CheckKind {
        CheckKind::MergeFinal
    }

    fn kind() -> DrawKind {
        DrawKind::MergeRound
    }

    fn count(&self) -> u32 {
        1
    }

    fn sum_of(&self) -> SumOf<'_> {
        SumOf::Merge {
            claims: std::slice::from_ref(&self.claim),
            mu: B128::ZERO,
        }
    }

    fn left(&self, point: &[B128], values: &[B128]) -> B128 {
        eq_at(self.claim.point.as_slice(), point) * values[0]
    }
}

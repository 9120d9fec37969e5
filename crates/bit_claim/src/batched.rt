//! What the sum of a batch of claims is about.

ghost use Rattle.std.specs.Prelude.{◌≡◌, [], map};
ghost use Rattle.std.specs.List.{AllByRecursion};
ghost use Rattle.poly_laws.specs.Polynomial.{horner};
ghost use Rattle.bit_claim.specs.Batching.{values};
ghost use Rattle.bit_claim.specs.Bits.{claim_at, IsPlaced};

use crate::bit_value::BitValue;
use crate::part::claim_at;
use crate::placement::Placement;
use poly_forms::{CheckKind, DrawKind};
use std::alloc::Global;
use std::marker::Model;
use sumcheck::{ColumnClaim, SumOf, SumTerms};
use tower_field::{B128, Tower, Values};

/// Claims on columns that have blocks, and the draw that joins them.
#[derive(Drop)]
pub struct Batched {
    placement: Placement,
    claims: Vec<ColumnClaim>,
    lambda: B128,
}

impl Model for Batched {
    ghost use Rattle.std.specs.List.{AllByRecursion};
    ghost use Rattle.bit_claim.specs.Batching.{Batched};
    ghost use Rattle.bit_claim.specs.Bits.{IsPlaced};

    ghost Value = { Batched };

    ghost view = { λ b. record { blocks = b.placement; claims = b.claims.items; lambda = b.lambda } };

    ghost invariant = { λ b. AllByRecursion (IsPlaced b.placement) b.claims.items };
}

impl Batched {
    /// Before any claim.
    pub fn none(alloc: Global, placement: Placement) -> Batched
        ensures { result ≡ record { blocks = placement; claims = []; lambda = 0 } }
    {
        Batched {
            placement,
            claims: Vec::new(alloc),
            lambda: B128::ZERO,
        }
    }

    /// States the claims.
    pub fn enter(&mut self, claims: Vec<ColumnClaim>)
        requires { AllByRecursion (IsPlaced self.old.blocks) claims.items }
        ensures { self.new ≡ record self.old { claims = claims.items } }
    {
        self.claims = claims;
    }

    /// Joins the claims by the powers of a challenge.
    pub fn join(&mut self, lambda: B128)
        ensures { self.new ≡ record self.old { lambda = lambda } }
    {
        self.lambda = lambda;
    }

    pub fn placement(&self) -> &Placement
        ensures { result.now ≡ self.now.blocks }
    {
        &self.placement
    }

    pub fn claims(&self) -> &[ColumnClaim]
        ensures claims { result.now ≡ self.now.claims }
        ensures placed { AllByRecursion (IsPlaced self.now.blocks) result.now }
    {
        self.claims.as_slice()
    }

    pub fn lambda(&self) -> B128
        ensures { result ≡ self.now.lambda }
    {
        self.lambda
    }

    /// The sum of lambda ^ j times value j.
    pub fn value(&self) -> B128
        ensures { result ≡ horner (values self.now.claims) self.now.lambda }
    {
        let mut sum = B128::ZERO;
        let mut i = self.claims.len();
        while i > 0 {
            i -= 1;
            sum = self.claims[i].value + self.lambda * sum;
        }
        sum
    }

    /// The claim on the bits, in the memory of the blocks.
    pub fn close(&mut self, alloc: Global, point: Vec<B128>, value: B128) -> BitValue
        ensures { result ≡ record { blocks = self.old.blocks; point = point.items; value = value } }
    {
        self.claims.clear();
        BitValue {
            placement: std::mem::replace(&mut self.placement, Placement::none(alloc)),
            point: Values::from_vec(point),
            value,
        }
    }
}

/// The sum of lambda ^ j times the extension of the table of claim j at a point.
fn batch_at(placement: &Placement, claims: &[ColumnClaim], lambda: B128, point: &[B128]) -> B128
    requires { AllByRecursion (IsPlaced placement.now) claims.now }
    ensures { result ≡ horner (map (claim_at placement.now point.now) claims.now) lambda }
{
    let mut sum = B128::ZERO;
    let mut i = claims.len();
    while i > 0 {
        i -= 1;
        sum = claim_at(placement, point, &claims[i]) + lambda * sum;
    }
    sum
}

impl SumTerms for Batched {
    ghost use Rattle.bit_claim.specs.Batching.{batch_sum};

    type Closed = BitValue;

    ghost summing = { batch_sum };

    fn check() -> CheckKind {
        CheckKind::BitFinal
    }

    fn kind() -> DrawKind {
        DrawKind::BitRound
    }

    fn count(&self) -> u32 {
        1
    }

    fn sum_of(&self) -> SumOf<'_> {
        SumOf::Bits {
            claims: self.claims.as_slice(),
            lambda: self.lambda,
        }
    }

    fn left(&self, point: &[B128], values: &[B128]) -> B128 {
        batch_at(&self.placement, self.claims.as_slice(), self.lambda, point) * values[0]
    }
}

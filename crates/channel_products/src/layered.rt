//! What a claim on a layer is about.

ghost use Rattle.std.specs.Prelude.{◌≡◌};

use crate::pointed::Pointed;
use cube_mle::eq_at;
use poly_forms::{CheckKind, DrawKind};
use std::marker::Model;
use sumcheck::{SumOf, SumTerms};
use tower_field::{B128, Values};

/// A claim on a layer of products, with so many layers below the next.
#[derive(Drop)]
pub struct Layered {
    pub(crate) at: Pointed,
    pub(crate) layer: u32,
    pub(crate) below: u32,
}

impl Model for Layered {
    ghost use Rattle.channel_products.specs.Descent.{Layered};

    ghost Value = { Layered };

    ghost view = { λ t. record { at = t.at; layer = t.layer; below = t.below } };
}

impl Layered {
    ghost use Rattle.std.specs.Prelude.{◌≡◌, ◌+◌, ◌<◌, ◌≤◌, ◌++◌, ◌∷◌, [], length};
    ghost use Rattle.channel_products.specs.Descent.{row_vars};

    /// The flush, alpha and gamma, and the point.
    pub(crate) fn at(&self) -> &Pointed
        ensures { result.now ≡ self.now.at }
    {
        &self.at
    }

    /// The two challenges.
    pub(crate) fn state(&mut self, alpha: B128, gamma: B128)
        ensures { self.new ≡ record self.old { at = record self.old.at { alpha = alpha; gamma = gamma } } }
    {
        self.at.state(alpha, gamma);
    }

    /// The point of the next claim: that of the draws, and one draw more.
    pub(crate) fn go(&mut self, draws: &[B128], c: B128)
        requires { length draws.now ≤ 32 }
        ensures { self.new ≡ record self.old { at = record self.old.at { point = draws.now ++ c ∷ [] } } }
    {
        self.at.go(draws, c);
    }

    /// The claim is on that layer, with so many layers below the next.
    pub(crate) fn set(&mut self, layer: u32, below: u32)
        ensures { self.new ≡ record self.old { layer = layer; below = below } }
    {
        self.layer = layer;
        self.below = below;
    }

    /// The number of the next layer.
    pub(crate) fn next(&self) -> u32
        requires { self.now.layer < row_vars self.now.at.flushed }
        ensures { result ≡ self.now.layer + 1 }
    {
        let _ = self.at.row_vars();
        self.layer + 1
    }

    pub(crate) fn layer(&self) -> u32
        ensures { result ≡ self.now.layer }
    {
        self.layer
    }

    pub(crate) fn below(&self) -> u32
        ensures { result ≡ self.now.below }
    {
        self.below
    }
}

/// Two values of the layer below, at a point with 0 and with 1 as its last coordinate.
#[derive(Drop)]
pub struct Paired {
    layered: Layered,
    point: Values,
    low: B128,
    high: B128,
}

impl Model for Paired {
    ghost use Rattle.channel_products.specs.Descent.{Paired};

    ghost Value = { Paired };

    ghost view = { λ p. record { layered = p.layered; point = p.point; low = p.low; high = p.high } };
}

impl SumTerms for Layered {
    ghost use Rattle.channel_products.specs.Descent.{layered_sum};

    type Closed = Paired;

    ghost summing = { layered_sum };

    fn check() -> CheckKind {
        CheckKind::LayerFinal
    }

    fn kind() -> DrawKind {
        DrawKind::LayerRound
    }

    fn count(&self) -> u32 {
        2
    }

    fn sum_of(&self) -> SumOf<'_> {
        SumOf::Layer {
            table: self.at.flushed.table,
            flush: self.at.flushed.number,
            alpha: self.at.alpha,
            gamma: self.at.gamma,
            layer: self.layer,
            point: self.at.point.as_slice(),
        }
    }

    fn left(&self, point: &[B128], values: &[B128]) -> B128 {
        eq_at(self.at.point.as_slice(), point) * (values[0] * values[1])
    }
}

//! What a claim on the leaves of a flush is about.

ghost use Rattle.std.specs.Prelude.{◌≡◌, ◌<◌, ◌≤◌, [], length, IfOk};
ghost use Rattle.table_shape.specs.Limits.{max_channel_width, max_rows};
ghost use Rattle.channel_products.specs.Descent.{leaf_columns, leaf_value, row_vars};

use crate::fingerprint::{collapse, leaf};
use crate::flushed::Flushed;
use crate::no_memory::NoMemory;
use cube_mle::{eq_at, step_down_at};
use poly_forms::{CheckKind, DrawKind};
use sqlite_items::Items;
use std::alloc::Global;
use std::marker::Model;
use sumcheck::{ColumnClaim, SumOf, SumTerms};
use table_shape::ceil_log;
use tower_field::{B128, Tower};

/// The most coordinates of a point: one more than a sum may have variables.
const MOST: usize = 33;

/// A flush, alpha and gamma, and the point of a claim on its leaves or on a layer above them.
#[derive(Drop)]
pub struct Pointed {
    pub(crate) flushed: Flushed,
    pub(crate) alpha: B128,
    pub(crate) gamma: B128,
    pub(crate) point: Vec<B128>,
}

impl Model for Pointed {
    ghost use Rattle.std.specs.Prelude.{◌≤◌, length, vec_capacity};
    ghost use Rattle.table_shape.specs.Limits.{max_channel_width, max_rows};
    ghost use Rattle.channel_products.specs.Descent.{Pointed};

    ghost Value = { Pointed };

    ghost view = { λ t. record { flushed = t.flushed; alpha = t.alpha; gamma = t.gamma; point = t.point.items } };

    ghost invariant = { λ t. record { rows : t.flushed.rows ≤ max_rows; width : length t.flushed.shape.columns ≤ max_channel_width; room : 33 ≤ vec_capacity t.point } };
}

impl Pointed {
    ghost use Rattle.std.specs.Prelude.{◌+◌, ◌++◌, ◌∷◌, ◌<◌};
    ghost use Rattle.table_shape.specs.Limits.{max_channel_width, max_rows};

    /// Before any claim.
    pub(crate) fn begin(alloc: Global, flushed: Flushed) -> Result<Pointed, NoMemory>
        requires rows { flushed.rows ≤ max_rows }
        requires width { length flushed.shape.columns ≤ max_channel_width }
        ensures { IfOk result (λ t. t ≡ record { flushed = flushed; alpha = 0; gamma = 0; point = [] }) }
    {
        Ok(Pointed {
            flushed,
            alpha: B128::ZERO,
            gamma: B128::ZERO,
            point: Vec::with_capacity(alloc, MOST)?,
        })
    }

    /// How many variables the rows have.
    pub(crate) fn row_vars(&self) -> u32
        ensures vars { result ≡ row_vars self.now.flushed }
        ensures few { result ≤ 20 }
    {
        let _ = &self.point;
        ceil_log(u64::from(self.flushed.rows))
    }

    /// The two challenges.
    pub(crate) fn state(&mut self, alpha: B128, gamma: B128)
        ensures { self.new ≡ record self.old { alpha = alpha; gamma = gamma } }
    {
        self.alpha = alpha;
        self.gamma = gamma;
    }

    /// The point of the next claim: that of the draws, and one draw more.
    pub(crate) fn go(&mut self, draws: &[B128], c: B128)
        requires { length draws.now ≤ 32 }
        ensures { self.new ≡ record self.old { point = draws.now ++ c ∷ [] } }
    {
        self.point.clear();
        if self.point.extend_from_slice(draws).is_err() || self.point.push(c).is_err() {
            unreachable!();
        }
    }

    /// One draw more.
    pub(crate) fn set(&mut self, c: B128)
        requires { length self.old.point ≤ row_vars self.old.flushed }
        ensures { self.new ≡ record self.old { point = self.old.point ++ c ∷ [] } }
    {
        let _ = self.row_vars();
        if self.point.push(c).is_err() {
            unreachable!();
        }
    }

    /// No draws yet.
    pub(crate) fn clear(&mut self)
        ensures { self.new ≡ record self.old { point = [] } }
    {
        self.point.clear();
    }

    /// The leaf of the values of a message, where the step has this value.
    fn leaf_of(&self, step: B128, values: &[B128]) -> B128
        requires { length values.now ≡ length (leaf_columns self.now.flushed) }
        ensures { result ≡ leaf_value self.now.alpha self.now.gamma step self.now.flushed.shape.selector values.now }
    {
        match self.flushed.shape.selector {
            None => leaf(step, B128::ONE, self.gamma, collapse(self.alpha, values)),
            Some(_) => {
                let tuple = &values[1..];
                leaf(step, values[0], self.gamma, collapse(self.alpha, tuple))
            }
        }
    }
}

impl SumTerms for Pointed {
    ghost use Rattle.channel_products.specs.Descent.{leaves_sum};

    type Closed = Items<ColumnClaim>;

    ghost summing = { leaves_sum };

    fn check() -> CheckKind {
        CheckKind::LeafFinal
    }

    fn kind() -> DrawKind {
        DrawKind::LeafRound
    }

    fn count(&self) -> u32 {
        let _ = &self.point;
        let tuple = self.flushed.shape.columns.len() as u32;
        match self.flushed.shape.selector {
            None => tuple,
            Some(_) => tuple + 1,
        }
    }

    fn sum_of(&self) -> SumOf<'_> {
        SumOf::Leaf {
            table: self.flushed.table,
            flush: self.flushed.number,
            alpha: self.alpha,
            gamma: self.gamma,
            point: self.point.as_slice(),
        }
    }

    fn left(&self, point: &[B128], values: &[B128]) -> B128 {
        let step = step_down_at(self.flushed.rows, point);
        eq_at(self.point.as_slice(), point) * self.leaf_of(step, values)
    }
}

//! What the sum of a group is about.

use crate::group::Group;
use crate::no_memory::NoMemory;
use crate::row_steps::row_steps_at;
use cube_mle::eq_at;
use poly_forms::{CheckKind, DrawKind};
use sqlite_items::Items;
use std::alloc::Global;
use std::marker::Model;
use sumcheck::{ColumnClaim, Points, SumOf, SumTerms, Summand};
use tower_field::{B128, Tower};

/// A group, the draw that joins its constraints, and the coordinates that were drawn.
#[derive(Drop)]
pub struct Zeroed {
    pub(crate) group: Group,
    pub(crate) beta: B128,
    pub(crate) point: Vec<B128>,
}

impl Model for Zeroed {
    ghost use Rattle.std.specs.Coded.{codes};
    ghost use Rattle.std.specs.Prelude.{◌≤◌, vec_capacity};
    ghost use Rattle.poly_forms.specs.contracts.form.Form as tree;
    ghost use Rattle.zerocheck.specs.Zero.{Zeroed};

    ghost Value = { Zeroed };

    ghost coded = { Prim.hlevel (codes, tree.the_row.coded) };

    ghost view = { λ t. record { group = t.group; beta = t.beta; point = t.point.items } };

    ghost invariant = { λ t. t.group.vars ≤ vec_capacity t.point };
}

impl Zeroed {
    ghost use Rattle.std.specs.Prelude.{◌≡◌, ◌<◌, ◌≤◌, ◌+◌, ◌^◌, ◌++◌, ◌∷◌, [], length, vec_capacity, IfOk};
    ghost use Rattle.sumcheck.specs.Column.{column_claims};

    /// Before any draw.
    pub(crate) fn begin(alloc: Global, group: Group) -> Result<Zeroed, NoMemory>
        ensures { IfOk result (λ t. t ≡ record { group = group; beta = 0; point = [] }) }
    {
        let point = Vec::with_capacity(alloc, group.vars as usize)?;
        Ok(Zeroed {
            group,
            beta: B128::ZERO,
            point,
        })
    }

    /// How many variables the group's positions have.
    pub(crate) fn vars(&self) -> u32
        ensures { result ≡ self.now.group.vars }
    {
        self.group.vars
    }

    /// The draw that joins the constraints.
    pub(crate) fn join(&mut self, c: B128)
        ensures { self.new ≡ record self.old { beta = c } }
    {
        self.beta = c;
    }

    /// One more coordinate.
    pub(crate) fn set(&mut self, c: B128)
        requires { length self.old.point < self.old.group.vars }
        ensures { self.new ≡ record self.old { point = self.old.point ++ c ∷ [] } }
    {
        if self.point.push(c).is_err() {
            unreachable!();
        }
    }

    /// Appends a claim on each column, at one point.
    pub(crate) fn tell(
        &self,
        point: &[B128],
        values: &[B128],
        points: &mut Points,
        claims: &mut Vec<ColumnClaim>,
    )
        requires equal { length values.now ≡ length self.now.group.columns }
        requires many { length self.now.group.columns ≤ points.old.count }
        requires short { length point.now ≤ points.old.vars }
        requires space { length claims.old.items + length self.now.group.columns ≤ vec_capacity claims.old }
        ensures claims { claims.new.items ≡ claims.old.items ++ column_claims self.now.group.table point.now self.now.group.columns values.now }
        ensures vars { points.new.vars ≡ points.old.vars }
        ensures few { length self.now.group.columns < 2 ^ 30 }
    {
        self.group.tell(point, values, points, claims);
    }
}

impl SumTerms for Zeroed {
    ghost use Rattle.zerocheck.specs.Zero.{zero_sum};

    type Closed = Items<ColumnClaim>;

    ghost summing = { zero_sum };

    fn check() -> CheckKind {
        CheckKind::ZeroFinal
    }

    fn kind() -> DrawKind {
        DrawKind::ZeroRound
    }

    fn count(&self) -> u32 {
        self.group.columns.len() as u32
    }

    fn sum_of(&self) -> SumOf<'_> {
        SumOf::Zero {
            table: self.group.table,
            log_values: self.group.log_values,
            beta: self.beta,
            point: self.point.as_slice(),
        }
    }

    fn left(&self, point: &[B128], values: &[B128]) -> B128 {
        let group = &self.group;
        let steps = row_steps_at(group.rows, group.log_values, point);
        eq_at(self.point.as_slice(), point) * (steps * group.batch_at(values, self.beta))
    }
}

impl Summand for Zeroed {
    ghost use Rattle.std.specs.Prelude.{◌≡◌, ◌+◌, length};
    ghost use Rattle.zerocheck.specs.Zero.{zero_form};

    ghost form = { zero_form };

    ghost suits = { λ t n. n ≡ length t.group.columns + 2 };

    fn value_at(&self, row: &[B128]) -> B128 {
        row[0] * (row[1] * self.group.batch_at(&row[2..], self.beta))
    }
}

//! The claims that a prover leaves.

ghost use Rattle.std.specs.Prelude.{◌≡◌, ◌<◌, ◌≤◌, ◌^◌, ◌++◌, ◌∷◌, [], length, slice_get, Some, IfOk};
ghost use Rattle.sumcheck.specs.Ending.{untold};
ghost use Rattle.sumcheck.specs.Column.{column_claims};

use crate::column_claim::ColumnClaim;
use crate::no_memory::NoMemory;
use crate::points::Points;
use crate::telling::push_claims;
use std::alloc::Global;
use std::marker::Model;
use tower_field::B128;

/// Columns of a table, the draws of rounds, and the claims once they are told. It takes all its
/// memory in `begin`.
#[derive(Drop)]
pub struct Ending {
    table: u32,
    vars: u32,
    columns: Vec<u32>,
    point: Vec<B128>,
    points: Points,
    claims: Vec<ColumnClaim>,
}

impl Model for Ending {
    ghost use Rattle.std.specs.Prelude.{◌≡◌, ◌≤◌, ◌<◌, ◌^◌, [], length, vec_capacity};
    ghost use Rattle.sumcheck.specs.Ending.{Ending};

    ghost Value = { Ending };

    ghost view = { λ e. record { table = e.table; vars = e.vars; columns = e.columns.items; point = e.point.items; claims = e.claims.items } };

    ghost invariant = { λ e. record { room : e.vars ≤ vec_capacity e.point; vars : e.points.vars ≡ e.vars; many : e.claims.items ≡ [] → length e.columns.items ≤ e.points.count; space : e.claims.items ≡ [] → length e.columns.items ≤ vec_capacity e.claims; short : length e.columns.items < 2 ^ 32; told : length e.claims.items ≤ length e.columns.items } };
}

impl Ending {
    /// For columns of a table and at most `vars` rounds, before any round.
    pub fn begin(alloc: Global, table: u32, columns: &[u32], vars: u32) -> Result<Ending, NoMemory>
        requires { length columns.now < 2 ^ 32 }
        ensures { IfOk result (λ ending. ending ≡ untold table columns.now vars []) }
    {
        let count = columns.len();
        Ok(Ending {
            table,
            vars,
            columns: Vec::from_slice(alloc, columns)?,
            point: Vec::with_capacity(alloc, vars as usize)?,
            points: Points::begin(alloc, vars, count as u32)?,
            claims: Vec::with_capacity(alloc, count)?,
        })
    }

    /// One more draw of a round.
    pub fn set(&mut self, c: B128)
        requires { length self.old.point < self.old.vars }
        ensures { self.new ≡ record self.old { point = self.old.point ++ c ∷ [] } }
    {
        if self.point.push(c).is_err() {
            unreachable!();
        }
    }

    /// Tells the claims: at the point of the draws, a value for each column.
    pub fn tell(&mut self, values: &[B128])
        requires untold { self.old.claims ≡ [] }
        requires equal { length values.now ≡ length self.old.columns }
        requires short { length self.old.point ≤ self.old.vars }
        ensures { self.new ≡ record self.old { claims = column_claims self.old.table self.old.point self.old.columns values.now } }
    {
        push_claims(
            self.table,
            self.columns.as_slice(),
            self.point.as_slice(),
            values,
            &mut self.points,
            &mut self.claims,
        );
    }

    /// How many claims were told.
    pub fn claim_count(&self) -> u32
        ensures { result ≡ length self.now.claims }
    {
        self.claims.len() as u32
    }

    /// A claim that was told.
    pub fn claim(&self, i: u32) -> &ColumnClaim
        requires { i < length self.now.claims }
        ensures { slice_get self.now.claims i ≡ Some result.now }
    {
        &self.claims[i as usize]
    }
}

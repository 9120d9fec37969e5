//! The prover of a projected column.

ghost use Rattle.std.specs.Prelude.{◌≡◌, ◌≤◌, ◌<◌, ◌+◌, ◌^◌, ◌++◌, [], length, vec_capacity, IfOk, IsSome, None, Some};
ghost use Rattle.cube_laws.specs.Extension.{bits_of, extension};
ghost use Rattle.sumcheck.specs.declared.column_claim.ColumnClaim.{ColumnClaim as Claim};
ghost use Rattle.eval_reduce.specs.declared.projection.Projection.{Projection as Form};
ghost use Rattle.sumcheck.specs.Column.{ColumnHolds};
ghost use Rattle.sumcheck.specs.Machine.{Filling};
ghost use Rattle.eval_reduce.specs.Project.{closed, projected_claim, projection_of};
ghost use Rattle.eval_reduce.specs.Provers.{true_claim, FollowsProject, IsNewProjector};
ghost use Rattle.eval_reduce.specs.Virtual.{table_of, IsThere};

use crate::no_memory::NoMemory;
use crate::project_step::{ProjectStep, append_bits};
use crate::projection::Projection;
use cube_mle::fold_low;
use std::alloc::Global;
use sumcheck::{ColumnClaim, ColumnTables};
use table_shape::Shape;
use tower_field::{B128, Values};

/// Sets all variables of a table, in place: its extension at the point.
fn fold_all(table: &mut Vec<B128>, point: &[B128]) -> B128
    requires { length table.old.items ≡ 2 ^ length point.now }
    ensures { result ≡ extension table.old.items point.now }
{
    for x in point {
        fold_low(table, *x);
    }
    table[0]
}

/// The prover of a projected column, who has no message to give: the claim that is left, with its true
/// value.
#[derive(Drop)]
pub struct ProjectProver {
    alloc: Global,
    projection: Projection,
    source: Vec<B128>,
    point: Vec<B128>,
    closed: Option<ColumnClaim>,
}

impl ProjectProver {
    /// The prover for a projected column on a number of rows, from the list of its source.
    pub fn begin(
        alloc: Global,
        shape: &Shape,
        table: u32,
        column: u32,
        rows: u32,
        tables: &ColumnTables,
    ) -> Result<ProjectProver, NoMemory>
        requires form { IsSome (projection_of shape.now.tables rows table column) }
        requires there { (p : Form) → projection_of shape.now.tables rows table column ≡ Some p → IsThere tables.now table p.source (2 ^ (p.log + p.vars)) }
        ensures form { IfOk result (λ prover. projection_of shape.now.tables rows table column ≡ Some prover.projection) }
        ensures source { IfOk result (λ prover. prover.source.items ≡ table_of tables.now table prover.projection.source) }
        ensures new { IfOk result (λ prover. IsNewProjector prover) }
    {
        let projection = Projection::of(shape, table, column, rows);
        ProjectProver::of(alloc, projection, tables)
    }

    /// The prover for a projected column, from the list of its source.
    pub(crate) fn of(
        alloc: Global,
        projection: Projection,
        tables: &ColumnTables,
    ) -> Result<ProjectProver, NoMemory>
        requires { IsThere tables.now projection.table projection.source (2 ^ (projection.log + projection.vars)) }
        ensures form { IfOk result (λ prover. prover.projection ≡ projection) }
        ensures source { IfOk result (λ prover. prover.source.items ≡ table_of tables.now projection.table projection.source) }
        ensures new { IfOk result (λ prover. IsNewProjector prover) }
    {
        let Some(source) = tables.get(projection.table, projection.source) else {
            unreachable!();
        };
        Ok(ProjectProver {
            alloc,
            projection,
            source: Vec::from_slice(alloc, source)?,
            point: Vec::with_capacity(alloc, projection.log as usize + projection.vars as usize)?,
            closed: None,
        })
    }

    /// Takes the point of the claim. What value is claimed makes no difference.
    pub fn enter(&mut self, claim: &ColumnClaim)
        requires new { IsNewProjector self.old }
        requires long { length claim.now.point ≡ self.old.projection.vars }
        ensures left { self.new.closed ≡ Some (true_claim self.old claim.now.point) }
        ensures follows { (F : Filling) (c : Claim) → c.point ≡ claim.now.point → F self.old.projection.table self.old.projection.source ≡ self.old.source.items → FollowsProject self.new F (closed (projected_claim self.old.projection c)) }
    {
        let mut point = std::mem::replace(&mut self.point, Vec::new(self.alloc));
        append_bits(&mut point, self.projection.log, self.projection.index);
        if point.extend_from_slice(claim.point.as_slice()).is_err() {
            unreachable!();
        }
        let value = fold_all(&mut self.source, point.as_slice());
        self.closed = Some(ColumnClaim {
            table: self.projection.table,
            column: self.projection.source,
            point: Values::from_vec(point),
            value,
        });
    }

    /// How many claims are left.
    pub fn claim_count(&self) -> u32
        requires { IsSome self.now.closed }
        ensures { result ≡ 1 }
    {
        1
    }

    /// The claim that is left, `i` being 0.
    pub fn claim(&self, i: u32) -> &ColumnClaim
        requires done { IsSome self.now.closed }
        requires first { i < 1 }
        ensures claim { self.now.closed ≡ Some result.now }
        ensures holds { (F : Filling) (c : Claim) → FollowsProject self.now F (closed c) → ColumnHolds F result.now }
    {
        match &self.closed {
            Some(claim) => claim,
            None => unreachable!(),
        }
    }
}

//! The step of a projected column.

ghost use Rattle.std.specs.Prelude.{◌≡◌, ◌+◌, ◌-◌, ◌<◌, ◌≤◌, ◌++◌, length, vec_capacity, IfOk, IsSome, Some, None, List, ℕ};
ghost use Rattle.cube_laws.specs.Extension.{bits_of};
ghost use Rattle.eval_reduce.specs.declared.projection.Projection.{Projection as Form};
ghost use Rattle.eval_reduce.specs.Project.{project, projection_of, projected_claim, waiting, closed, state_project, ProjectIsDone, ProjectTakes};

use crate::no_memory::NoMemory;
use crate::projection::Projection;
use std::alloc::Global;
use std::marker::Model;
use sumcheck::ColumnClaim;
use table_shape::Shape;
use tower_field::{B128, Tower, Values};

/// Appends the bits of an index, the lowest first.
pub(crate) fn append_bits(point: &mut Vec<B128>, log: u32, index: u32)
    requires { length point.old.items + log ≤ vec_capacity point.old }
    ensures bits { point.new.items ≡ point.old.items ++ bits_of log index }
    ensures capacity { vec_capacity point.old ≤ vec_capacity point.new }
{
    let mut rest = index;
    for _ in 0..log {
        let bit = if rest % 2 == 0 { B128::ZERO } else { B128::ONE };
        if point.push(bit).is_err() {
            unreachable!();
        }
        rest /= 2;
    }
}

/// A claim on a projected column, turned into one on its source. There is neither a message nor a draw.
/// It takes all its memory in `begin`.
#[derive(Drop)]
pub struct ProjectStep {
    alloc: Global,
    projection: Projection,
    point: Vec<B128>,
    closed: Option<ColumnClaim>,
}

impl Model for ProjectStep {
    ghost use Rattle.std.specs.Prelude.{◌≡◌, ◌≤◌, ◌+◌, [], vec_capacity, None};
    ghost use Rattle.eval_reduce.specs.Project.{Project, project_at};

    ghost Value = { Project };

    ghost view = { λ s. project_at s.projection s.closed };

    ghost invariant = { λ s. record { empty : s.closed ≡ None → s.point.items ≡ []; room : s.closed ≡ None → s.projection.log + s.projection.vars ≤ vec_capacity s.point } };
}

impl ProjectStep {
    /// A step for a projected column on a number of rows.
    pub fn begin(
        alloc: Global,
        shape: &Shape,
        table: u32,
        column: u32,
        rows: u32,
    ) -> Result<ProjectStep, NoMemory>
        requires { IsSome (projection_of shape.now.tables rows table column) }
        ensures { IfOk result (λ step. (p : Form) → projection_of shape.now.tables rows table column ≡ Some p → step ≡ waiting p) }
    {
        ProjectStep::of(alloc, Projection::of(shape, table, column, rows))
    }

    /// A step for a projected column.
    pub(crate) fn of(alloc: Global, projection: Projection) -> Result<ProjectStep, NoMemory>
        ensures { IfOk result (λ step. step ≡ waiting projection) }
    {
        Ok(ProjectStep {
            alloc,
            projection,
            point: Vec::with_capacity(alloc, projection.log as usize + projection.vars as usize)?,
            closed: None,
        })
    }

    /// States the claim, with which the step is done.
    pub fn enter(&mut self, claim: &ColumnClaim)
        requires { ProjectTakes claim.now self.old }
        ensures { self.new ≡ state_project claim.now self.old }
    {
        let mut point = std::mem::replace(&mut self.point, Vec::new(self.alloc));
        append_bits(&mut point, self.projection.log, self.projection.index);
        if point.extend_from_slice(claim.point.as_slice()).is_err() {
            unreachable!();
        }
        self.closed = Some(ColumnClaim {
            table: self.projection.table,
            column: self.projection.source,
            point: Values::from_vec(point),
            value: claim.value,
        });
    }

    /// States a claim in its own memory.
    pub fn enter_owned(&mut self, claim: ColumnClaim)
        requires { ProjectTakes claim self.old }
        ensures { self.new ≡ state_project claim self.old }
    {
        self.enter(&claim);
    }

    /// The table of the column that the step is of, and the column's number in it.
    pub fn column(&self) -> (u32, u32)
        ensures { (p : Form) → self.now ≡ waiting p → (result.0 ≡ p.table) × (result.1 ≡ p.column) }
    {
        (self.projection.table, self.projection.column)
    }

    /// How many claims are left at the end.
    pub fn claim_count(&self) -> u32
        requires { ProjectIsDone self.now }
        ensures { result ≡ length (project.pending self.now) }
    {
        1
    }

    /// The claim that is left at the end, `i` being 0.
    pub fn claim(&self, i: u32) -> &ColumnClaim
        requires done { ProjectIsDone self.now }
        requires first { i < 1 }
        ensures { self.now ≡ closed result.now }
    {
        match &self.closed {
            Some(claim) => claim,
            None => unreachable!(),
        }
    }

    /// The claim that is left at the end, in its memory.
    pub fn leave(self) -> ColumnClaim
        requires { ProjectIsDone self }
        ensures { self ≡ closed result }
    {
        let ProjectStep {
            alloc: _,
            projection: _,
            point: _,
            closed,
        } = self;
        match closed {
            Some(claim) => claim,
            None => unreachable!(),
        }
    }
}

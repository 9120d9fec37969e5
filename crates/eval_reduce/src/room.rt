//! Memory for claims.

ghost use Rattle.std.specs.Prelude.{◌≡◌, ◌+◌, ◌-◌, ◌<◌, ◌≤◌, ◌++◌, length, vec_capacity, IfOk};
ghost use Rattle.std.specs.List.{AllByRecursion};

use crate::no_memory::NoMemory;
use std::alloc::Global;
use std::marker::Model;
use sumcheck::ColumnClaim;
use tower_field::{B128, Values};

/// Memory for points. A contract sees for how many it is, and how many coordinates each may have.
#[derive(Drop)]
pub struct Points {
    vars: u32,
    points: Vec<Vec<B128>>,
}

impl Model for Points {
    ghost use Rattle.std.specs.Prelude.{◌≡◌, ◌≤◌, [], length, vec_capacity};
    ghost use Rattle.std.specs.List.{All};
    ghost use Rattle.eval_reduce.specs.Room.{Space};

    ghost Value = { Space };

    ghost view = { λ r. record { vars = r.vars; count = length r.points.items } };

    ghost invariant = { λ r. All (λ v. (v.items ≡ []) × (r.vars ≤ vec_capacity v)) r.points.items };
}

impl Points {
    /// Memory for that many points of at most `vars` coordinates.
    pub fn begin(alloc: Global, vars: u32, claims: u32) -> Result<Points, NoMemory>
        ensures { IfOk result (λ points. points ≡ record { vars = vars; count = claims }) }
    {
        let mut points = Vec::with_capacity(alloc, claims as usize)?;
        for _ in 0..claims {
            let point = Vec::with_capacity(alloc, vars as usize)?;
            if points.push(point).is_err() {
                return Err(NoMemory);
            }
        }
        Ok(Points { vars, points })
    }

    /// How many coordinates a point may have.
    fn vars(&self) -> u32
        ensures { result ≡ self.now.vars }
    {
        self.vars
    }

    /// A copy of a claim, its point in this memory.
    pub fn copy(&mut self, claim: &ColumnClaim) -> ColumnClaim
        requires more { 0 < self.old.count }
        requires short { length claim.now.point ≤ self.old.vars }
        ensures copy { result ≡ claim.now }
        ensures left { self.new ≡ record self.old { count = self.old.count - 1 } }
    {
        let Some(mut point) = self.points.pop() else {
            unreachable!();
        };
        if point.extend_from_slice(claim.point.as_slice()).is_err() {
            unreachable!();
        }
        ColumnClaim {
            table: claim.table,
            column: claim.column,
            point: Values::from_vec(point),
            value: claim.value,
        }
    }
}

/// Appends copies of claims.
fn copy_claims(claims: &[ColumnClaim], points: &mut Points, copies: &mut Vec<ColumnClaim>)
    requires many { length claims.now ≤ points.old.count }
    requires space { length copies.old.items + length claims.now ≤ vec_capacity copies.old }
    requires short { AllByRecursion (λ claim. length claim.point ≤ points.old.vars) claims.now }
    ensures { copies.new.items ≡ copies.old.items ++ claims.now }
{
    for i in 0..claims.len() {
        let copy = points.copy(&claims[i]);
        if copies.push(copy).is_err() {
            unreachable!();
        }
    }
}

/// Memory for claims that are copied later. A contract sees for how many it is, and how many
/// coordinates each point may have.
#[derive(Drop)]
pub struct Room {
    alloc: Global,
    points: Points,
    claims: Vec<ColumnClaim>,
}

impl Model for Room {
    ghost use Rattle.std.specs.Prelude.{◌≡◌, ◌≤◌, [], vec_capacity};
    ghost use Rattle.eval_reduce.specs.Room.{Space};

    ghost Value = { Space };

    ghost view = { λ r. r.points };

    ghost invariant = { λ r. record { space : r.points.count ≤ vec_capacity r.claims; empty : r.claims.items ≡ [] } };
}

impl Room {
    /// Memory for that many claims at points of at most `vars` coordinates.
    pub fn begin(alloc: Global, vars: u32, claims: u32) -> Result<Room, NoMemory>
        ensures { IfOk result (λ room. room ≡ record { vars = vars; count = claims }) }
    {
        let points = Points::begin(alloc, vars, claims)?;
        let claims = Vec::with_capacity(alloc, claims as usize)?;
        Ok(Room {
            alloc,
            points,
            claims,
        })
    }

    /// Copies of claims. There is no room left after it.
    pub fn fill(&mut self, claims: &[ColumnClaim]) -> Vec<ColumnClaim>
        requires many { length claims.now ≤ self.old.count }
        requires short { AllByRecursion (λ claim. length claim.point ≤ self.old.vars) claims.now }
        ensures copies { result.items ≡ claims.now }
        ensures none { self.new ≡ record self.old { count = 0 } }
    {
        let none = Points {
            vars: self.points.vars(),
            points: Vec::new(self.alloc),
        };
        let mut points = std::mem::replace(&mut self.points, none);
        let mut copies = std::mem::replace(&mut self.claims, Vec::new(self.alloc));
        copy_claims(claims, &mut points, &mut copies);
        copies
    }
}

//! Memory for claims.

ghost use Rattle.std.specs.Prelude.{◌≡◌, ◌+◌, ◌≤◌, ◌++◌, length, vec_capacity, IfOk};
ghost use Rattle.std.specs.List.{AllByRecursion};

use crate::no_memory::NoMemory;
use std::alloc::Global;
use std::marker::Model;
use sumcheck::{ColumnClaim, Points};

/// The most coordinates of a claim's point: no column has more than `2 ^ 24` values.
const MOST: u32 = 24;

/// Memory for claims that are copied later. A contract sees for how many it is.
#[derive(Drop)]
pub struct Room {
    free: u32,
    points: Points,
    claims: Vec<ColumnClaim>,
}

impl Model for Room {
    ghost use Rattle.std.specs.Prelude.{◌≡◌, ◌≤◌, [], ℕ, vec_capacity};

    ghost Value = { ℕ };

    ghost view = { λ r. r.free };

    ghost invariant = { λ r. record { vars : r.points.vars ≡ 24; points : r.free ≤ r.points.count; space : r.free ≤ vec_capacity r.claims; empty : r.claims.items ≡ [] } };
}

impl Room {
    /// Memory for that many claims.
    pub fn begin(alloc: Global, count: u32) -> Result<Room, NoMemory>
        ensures { IfOk result (λ room. room ≡ count) }
    {
        let points = Points::begin(alloc, MOST, count)?;
        let claims = Vec::with_capacity(alloc, count as usize)?;
        Ok(Room {
            free: count,
            points,
            claims,
        })
    }

    /// Copies of claims. There is no room left after it.
    pub fn fill(&mut self, alloc: Global, claims: &[ColumnClaim]) -> Vec<ColumnClaim>
        requires many { length claims.now ≤ self.old }
        requires short { AllByRecursion (λ claim. length claim.point ≤ 24) claims.now }
        ensures copies { result.items ≡ claims.now }
        ensures none { self.new ≡ 0 }
    {
        self.free = 0;
        let mut copies = std::mem::replace(&mut self.claims, Vec::new(alloc));
        copy_claims(claims, &mut self.points, &mut copies);
        copies
    }
}

/// Appends copies of claims.
fn copy_claims(claims: &[ColumnClaim], points: &mut Points, copies: &mut Vec<ColumnClaim>)
    requires many { length claims.now ≤ points.old.count }
    requires space { length copies.old.items + length claims.now ≤ vec_capacity copies.old }
    requires short { AllByRecursion (λ claim. length claim.point ≤ points.old.vars) claims.now }
    ensures copies { copies.new.items ≡ copies.old.items ++ claims.now }
    ensures vars { points.new.vars ≡ points.old.vars }
{
    for i in 0..claims.len() {
        let claim = &claims[i];
        let copy = ColumnClaim {
            table: claim.table,
            column: claim.column,
            point: points.copy(claim.point.as_slice()),
            value: claim.value,
        };
        if copies.push(copy).is_err() {
            unreachable!();
        }
    }
}

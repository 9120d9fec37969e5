//! Memory for points.

ghost use Rattle.std.specs.Prelude.{◌≡◌, ◌-◌, ◌<◌, ◌≤◌, length, IfOk};

use crate::no_memory::NoMemory;
use std::alloc::Global;
use std::marker::Model;
use tower_field::{B128, Values};

/// Memory for points. A contract sees for how many it is, and how many coordinates each may have.
#[derive(Drop)]
pub struct Points {
    vars: u32,
    points: Vec<Vec<B128>>,
}

impl Model for Points {
    ghost use Rattle.std.specs.Prelude.{◌≡◌, ◌≤◌, [], length, vec_capacity};
    ghost use Rattle.std.specs.List.{All};
    ghost use Rattle.sumcheck.specs.Room.{Space};

    ghost Value = { Space };

    ghost view = { λ r. record { vars = r.vars; count = length r.points.items } };

    ghost invariant = { λ r. All (λ v. (v.items ≡ []) × (r.vars ≤ vec_capacity v)) r.points.items };
}

impl Points {
    /// Memory for that many points of at most `vars` coordinates.
    pub fn begin(alloc: Global, vars: u32, count: u32) -> Result<Points, NoMemory>
        ensures { IfOk result (λ points. points ≡ record { vars = vars; count = count }) }
    {
        let mut points = Vec::with_capacity(alloc, count as usize)?;
        for _ in 0..count {
            let point = Vec::with_capacity(alloc, vars as usize)?;
            if points.push(point).is_err() {
                return Err(NoMemory);
            }
        }
        Ok(Points { vars, points })
    }

    /// A copy of a point in this memory.
    pub fn copy(&mut self, point: &[B128]) -> Values
        requires more { 0 < self.old.count }
        requires short { length point.now ≤ self.old.vars }
        ensures copy { result ≡ point.now }
        ensures left { self.new ≡ record self.old { count = self.old.count - 1 } }
    {
        let Some(mut copy) = self.points.pop() else {
            unreachable!();
        };
        if copy.extend_from_slice(point).is_err() {
            unreachable!();
        }
        Values::from_vec(copy)
    }
}

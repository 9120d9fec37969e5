//! What a prover leaves.

use crate::no_memory::NoMemory;
use crate::switched::MOST;
use std::alloc::Global;
use std::marker::Model;
use tower_field::{B128, Tower};

/// The draws of the rounds, and the value once it is told.
#[derive(Drop)]
pub struct Ending {
    point: Vec<B128>,
    value: B128,
}

impl Model for Ending {
    ghost use Rattle.std.specs.Prelude.{◌≤◌, vec_capacity};
    ghost use Rattle.ring_switch.specs.Switching.{PackedValue};

    ghost Value = { PackedValue };

    ghost view = { λ e. record { point = e.point.items; value = e.value } };

    ghost invariant = { λ e. 17 ≤ vec_capacity e.point };
}

impl Ending {
    ghost use Rattle.std.specs.Prelude.{◌≡◌, ◌<◌, ◌++◌, ◌∷◌, [], length, IfOk};

    /// Before any draw.
    pub fn begin(alloc: Global) -> Result<Ending, NoMemory>
        ensures { IfOk result (λ ending. ending.point ≡ []) }
    {
        Ok(Ending {
            point: Vec::with_capacity(alloc, MOST)?,
            value: B128::ZERO,
        })
    }

    /// One more draw.
    pub fn set(&mut self, c: B128)
        requires { length self.old.point < 17 }
        ensures { self.new ≡ record self.old { point = self.old.point ++ c ∷ [] } }
    {
        if self.point.push(c).is_err() {
            unreachable!();
        }
    }

    /// Tells the value at the draws.
    pub fn tell(&mut self, value: B128)
        ensures { self.new ≡ record self.old { value = value } }
    {
        self.value = value;
    }

    pub fn point(&self) -> &[B128]
        ensures { result.now ≡ self.now.point }
    {
        self.point.as_slice()
    }

    pub fn value(&self) -> B128
        ensures { result ≡ self.now.value }
    {
        self.value
    }
}

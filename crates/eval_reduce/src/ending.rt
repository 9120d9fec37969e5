//! The claim that a prover leaves.

ghost use Rattle.std.specs.Prelude.{◌≡◌, ◌+◌, ◌<◌, ◌≤◌, ◌++◌, ◌∷◌, [], length, IfOk, IsSome, None, Some};
ghost use Rattle.eval_reduce.specs.Ending.{told_claim, untold, CanTell};

use crate::no_memory::NoMemory;
use std::alloc::Global;
use std::marker::Model;
use sumcheck::ColumnClaim;
use tower_field::{B128, Values};

/// The draws, and the claim on a column once it is told. It takes all its memory in `begin`.
#[derive(Drop)]
pub struct Ending {
    alloc: Global,
    table: u32,
    column: u32,
    vars: usize,
    draws: Vec<B128>,
    claim: Option<ColumnClaim>,
}

impl Model for Ending {
    ghost use Rattle.std.specs.Prelude.{◌≡◌, ◌≤◌, vec_capacity, None};
    ghost use Rattle.eval_reduce.specs.Ending.{Ending};

    ghost Value = { Ending };

    ghost view = { λ e. record { table = e.table; column = e.column; vars = e.vars; draws = e.draws.items; claim = e.claim } };

    ghost invariant = { λ e. e.claim ≡ None → e.vars ≤ vec_capacity e.draws };
}

impl Ending {
    /// Before any draw, with room for a point of so many coordinates.
    pub fn begin(alloc: Global, table: u32, column: u32, vars: usize) -> Result<Ending, NoMemory>
        ensures { IfOk result (λ ending. ending ≡ untold table column vars) }
    {
        Ok(Ending {
            alloc,
            table,
            column,
            vars,
            draws: Vec::with_capacity(alloc, vars)?,
            claim: None,
        })
    }

    /// The claim will be on that column.
    pub fn aim(&mut self, table: u32, column: u32)
        ensures { self.new ≡ record self.old { table = table; column = column } }
    {
        self.table = table;
        self.column = column;
    }

    /// One more draw.
    pub fn set(&mut self, c: B128)
        requires untold { self.old.claim ≡ None }
        requires room { length self.old.draws < self.old.vars }
        ensures { self.new ≡ record self.old { draws = self.old.draws ++ c ∷ [] } }
    {
        if self.draws.push(c).is_err() {
            unreachable!();
        }
    }

    /// Tells the claim: that value, at the draws and then the rest of the point.
    pub fn tell(&mut self, rest: &[B128], value: B128)
        requires { CanTell self.old rest.now }
        ensures { self.new.claim ≡ Some (told_claim self.old rest.now value) }
    {
        let mut point = std::mem::replace(&mut self.draws, Vec::new(self.alloc));
        if point.extend_from_slice(rest).is_err() {
            unreachable!();
        }
        self.claim = Some(ColumnClaim {
            table: self.table,
            column: self.column,
            point: Values::from_vec(point),
            value,
        });
    }

    /// The claim that was told.
    pub fn claim(&self) -> &ColumnClaim
        requires { IsSome self.now.claim }
        ensures { self.now.claim ≡ Some result.now }
    {
        match &self.claim {
            Some(claim) => claim,
            None => unreachable!(),
        }
    }
}

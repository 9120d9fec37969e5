//! The walk of a shifted column.

ghost use Rattle.std.specs.Prelude.{◌≡◌, ◌<◌, ◌≤◌, ◌^◌, length, IfOk, IsSome, Some};
ghost use Rattle.sumcheck.specs.Summing.{closed};
ghost use Rattle.eval_reduce.specs.declared.shifting.Shifting.{Shifting as Form};
ghost use Rattle.eval_reduce.specs.Shift.{shift, shifting_of, waiting, summed, state_shift, ShiftIsDone, ShiftTakes};

use crate::no_memory::NoMemory;
use crate::room::Points;
use crate::shifted::Shifted;
use crate::shifting::Shifting;
use std::alloc::Global;
use std::marker::Model;
use sumcheck::{
    ColumnClaim, Entry, Pending, Refused, Steps, SumRounds, sum_due, sum_message, sum_pending,
};
use table_shape::Shape;
use tower_field::B128;

/// A claim on a shifted column, turned into a sum over a block of its source and at its end into a claim
/// on the source. It takes all its memory in `begin`.
#[derive(Drop)]
pub struct ShiftWalk {
    alloc: Global,
    shifting: Shifting,
    own: Points,
    shifted: Option<Shifted>,
    rounds: SumRounds,
    room: Vec<B128>,
    closed: Option<ColumnClaim>,
}

impl Model for ShiftWalk {
    ghost use Rattle.std.specs.Prelude.{◌≡◌, ◌≤◌, ◌<◌, ◌+◌, ◌^◌, [], vec_capacity, None};
    ghost use Rattle.sumcheck.specs.Rounds.{sum_claim, with_claim};
    ghost use Rattle.eval_reduce.specs.Shift.{Shift, shift_walk_of, PointIsShort};

    ghost Value = { Shift };

    ghost view = { λ w. shift_walk_of w.shifting w.shifted w.rounds w.closed };

    ghost invariant = { λ w. record { block : w.shifting.block ≤ w.shifting.vars; offset : w.shifting.offset < 2 ^ w.shifting.block; own_vars : w.own.vars ≡ w.shifting.vars; own : w.shifted ≡ None → 1 ≤ w.own.count; fresh : w.shifted ≡ None → with_claim 0 w.rounds ≡ sum_claim 2 w.shifting.block [] 0; short : PointIsShort w.shifting.vars w.shifted; empty : w.closed ≡ None → w.room.items ≡ []; room : w.closed ≡ None → 32 + w.shifting.vars ≤ vec_capacity w.room } };
}

impl ShiftWalk {
    /// A walk for a shifted column on a number of rows.
    pub fn begin(
        alloc: Global,
        shape: &Shape,
        table: u32,
        column: u32,
        rows: u32,
    ) -> Result<ShiftWalk, NoMemory>
        requires { IsSome (shifting_of shape.now.tables rows table column) }
        ensures { IfOk result (λ walk. (s : Form) → shifting_of shape.now.tables rows table column ≡ Some s → walk ≡ waiting s) }
    {
        ShiftWalk::of(alloc, Shifting::of(shape, table, column, rows))
    }

    /// A walk for a shifted column.
    pub(crate) fn of(alloc: Global, shifting: Shifting) -> Result<ShiftWalk, NoMemory>
        requires few { shifting.block ≤ 7 }
        requires within { shifting.block ≤ shifting.vars }
        requires offset { shifting.offset < 2 ^ shifting.block }
        ensures { IfOk result (λ walk. walk ≡ waiting shifting) }
    {
        Ok(ShiftWalk {
            alloc,
            shifting,
            own: Points::begin(alloc, shifting.vars, 1)?,
            shifted: None,
            rounds: SumRounds::begin(alloc, shifting.block, 2)?,
            room: Vec::with_capacity(alloc, 32 + shifting.vars as usize)?,
            closed: None,
        })
    }

    /// States the claim.
    pub fn enter(&mut self, claim: &ColumnClaim)
        requires { ShiftTakes claim.now self.old }
        ensures { self.new ≡ state_shift claim.now self.old }
    {
        let ColumnClaim {
            table: _,
            column: _,
            point,
            value,
        } = self.own.copy(claim);
        self.rounds.enter(value);
        self.shifted = Some(Shifted::new(self.shifting, point));
    }

    /// States a claim in its own memory.
    pub fn enter_owned(&mut self, claim: ColumnClaim)
        requires { ShiftTakes claim self.old }
        ensures { self.new ≡ state_shift claim self.old }
    {
        let ColumnClaim {
            table: _,
            column: _,
            point,
            value,
        } = claim;
        self.rounds.enter(value);
        self.shifted = Some(Shifted::new(self.shifting, point));
    }

    /// The table of the column that the walk is of, and the column's number in it.
    pub fn column(&self) -> (u32, u32)
        ensures { (s : Form) → self.now ≡ waiting s → (result.0 ≡ s.table) × (result.1 ≡ s.column) }
    {
        (self.shifting.table, self.shifting.column)
    }

    /// How many claims are left at the end.
    pub fn claim_count(&self) -> u32
        requires { ShiftIsDone self.now }
        ensures { result ≡ length (shift.pending self.now) }
    {
        1
    }

    /// The claim that is left at the end, `i` being 0.
    pub fn claim(&self, i: u32) -> &ColumnClaim
        requires done { ShiftIsDone self.now }
        requires first { i < 1 }
        ensures { self.now ≡ summed (closed result.now) }
    {
        match &self.closed {
            Some(claim) => claim,
            None => unreachable!(),
        }
    }

    /// The claim that is left at the end, in its memory.
    pub fn leave(self) -> ColumnClaim
        requires { ShiftIsDone self }
        ensures { self ≡ summed (closed result) }
    {
        let ShiftWalk {
            alloc: _,
            shifting: _,
            own: _,
            shifted: _,
            rounds: _,
            room: _,
            closed,
        } = self;
        match closed {
            Some(claim) => claim,
            None => unreachable!(),
        }
    }
}

impl Steps for ShiftWalk {
    ghost machine = { shift };

    fn is_lawful() {}

    fn due(&self) -> Option<Entry> {
        if self.closed.is_some() {
            return None;
        }
        match &self.shifted {
            Some(shifted) => Some(sum_due(shifted, &self.rounds)),
            None => None,
        }
    }

    fn message(&mut self, values: &[B128]) -> Result<(), Refused> {
        let Some(shifted) = &self.shifted else {
            unreachable!();
        };
        if sum_message(shifted, &mut self.rounds, values)? {
            let room = std::mem::replace(&mut self.room, Vec::new(self.alloc));
            let claim = shifted.unshifted(self.rounds.point(), room, values[0]);
            self.closed = Some(claim);
        }
        Ok(())
    }

    fn draw(&mut self, c: B128) {
        self.rounds.bind(c);
    }

    fn round_claim(&self) -> Option<B128> {
        if self.closed.is_some() || self.shifted.is_none() {
            return None;
        }
        self.rounds.round_claim()
    }

    fn pending_count(&self) -> u32 {
        if self.closed.is_some() || self.shifted.is_some() {
            1
        } else {
            0
        }
    }

    fn pending(&self, i: u32) -> Pending<'_> {
        if let Some(claim) = &self.closed {
            return Pending::Column { claim };
        }
        match &self.shifted {
            Some(shifted) => sum_pending(shifted, &self.rounds),
            None => unreachable!(),
        }
    }
}

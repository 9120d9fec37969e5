//! The walk of a merge.

ghost use Rattle.std.specs.Prelude.{◌≡◌, ℕ, ◌<◌, ◌≤◌, ◌^◌, length, IfOk};
ghost use Rattle.sumcheck.specs.Summing.{closed};
ghost use Rattle.eval_reduce.specs.Merge.{merge, waiting, summed, room_of, state_claims, IsDone, Takes};

use crate::batch::value_of_batch;
use crate::joined::Joined;
use crate::no_memory::NoMemory;
use crate::room::Room;
use poly_forms::DrawKind;
use std::alloc::Global;
use std::marker::Model;
use sumcheck::{
    ColumnClaim, Entry, Pending, Refused, Steps, SumRounds, sum_due, sum_message, sum_pending,
};
use tower_field::{B128, Tower};

#[derive(Clone, Copy)]
pub enum Stage {
    Waiting,
    Opening,
    Adding,
}

/// Claims on one column at several points, merged into one. It takes all its memory in `begin`.
#[derive(Drop)]
pub struct MergeWalk {
    stage: Stage,
    joined: Joined,
    rounds: SumRounds,
    closed: Option<ColumnClaim>,
    room: Room,
}

impl Model for MergeWalk {
    ghost use Rattle.eval_reduce.specs.Merge.{Merge, StageFits, merge_of};

    ghost Value = { Merge };

    ghost view = { λ w. merge_of w.stage w.joined w.rounds w.closed w.room };

    ghost invariant = { λ w. StageFits w.stage w.joined w.rounds w.closed w.room };
}

impl MergeWalk {
    /// A walk for a column of `vars` variables. `claims` is how many claims `enter` can take;
    /// `enter_owned` takes any number.
    pub fn begin(alloc: Global, vars: u32, claims: u32) -> Result<MergeWalk, NoMemory>
        requires { vars ≤ 32 }
        ensures { IfOk result (λ walk. walk ≡ waiting vars claims) }
    {
        Ok(MergeWalk {
            stage: Stage::Waiting,
            joined: Joined {
                table: 0,
                column: 0,
                vars,
                claims: Vec::new(alloc),
                mu: B128::ZERO,
            },
            rounds: SumRounds::begin(alloc, vars, 2)?,
            closed: None,
            room: Room::begin(alloc, vars, claims)?,
        })
    }

    /// States the claims, two or more on one column.
    pub fn enter(&mut self, claims: &[ColumnClaim])
        requires claims { (t : ℕ) × (k : ℕ) × Takes t k claims.now self.old }
        requires room { length claims.now ≤ room_of self.old }
        ensures { (t k : ℕ) → Takes t k claims.now self.old → self.new ≡ state_claims t k claims.now self.old }
    {
        let copies = self.room.fill(claims);
        self.enter_owned(copies);
    }

    /// States claims in their own memory, two or more on one column.
    pub fn enter_owned(&mut self, claims: Vec<ColumnClaim>)
        requires { (t : ℕ) × (k : ℕ) × Takes t k claims.items self.old }
        ensures { (t k : ℕ) → Takes t k claims.items self.old → self.new ≡ state_claims t k claims.items self.old }
    {
        let first = &claims[0];
        self.joined.table = first.table;
        self.joined.column = first.column;
        self.joined.claims = claims;
        self.stage = Stage::Opening;
    }

    /// How many claims are left at the end.
    pub fn claim_count(&self) -> u32
        requires { IsDone self.now }
        ensures { result ≡ length (merge.pending self.now) }
    {
        1
    }

    /// The claim that is left at the end, `i` being 0.
    pub fn claim(&self, i: u32) -> &ColumnClaim
        requires done { IsDone self.now }
        requires first { i < 1 }
        ensures { self.now ≡ summed (closed result.now) }
    {
        match &self.closed {
            Some(claim) => claim,
            None => unreachable!(),
        }
    }

    /// How many claims are pending. They are few, so that those of many walks can be counted together.
    pub fn count_pending(&self) -> u32
        ensures count { result ≡ length (merge.pending self.now) }
        ensures few { result ≤ 2 ^ 30 }
    {
        match self.stage {
            Stage::Waiting => 0,
            Stage::Opening => self.joined.claims.len() as u32,
            Stage::Adding => 1,
        }
    }

    /// The claim that is left at the end, in its memory.
    pub fn leave(self) -> ColumnClaim
        requires { IsDone self }
        ensures { self ≡ summed (closed result) }
    {
        let MergeWalk {
            stage: _,
            joined: _,
            rounds: _,
            closed,
            room: _,
        } = self;
        match closed {
            Some(claim) => claim,
            None => unreachable!(),
        }
    }
}

impl Steps for MergeWalk {
    ghost machine = { merge };

    fn is_lawful() {}

    fn due(&self) -> Option<Entry> {
        if self.closed.is_some() {
            return None;
        }
        match self.stage {
            Stage::Waiting => None,
            Stage::Opening => Some(Entry::Draw {
                kind: DrawKind::Merge,
                count: self.joined.claims.len() as u64 - 1,
            }),
            Stage::Adding => Some(sum_due(&self.joined, &self.rounds)),
        }
    }

    fn message(&mut self, values: &[B128]) -> Result<(), Refused> {
        let last = sum_message(&self.joined, &mut self.rounds, values)?;
        if last {
            let point = self.rounds.take_point();
            let claim = self.joined.merged(point, values[0]);
            self.closed = Some(claim);
        }
        Ok(())
    }

    fn draw(&mut self, c: B128) {
        match self.stage {
            Stage::Waiting => unreachable!(),
            Stage::Opening => {
                self.joined.mu = c;
                self.rounds
                    .enter(value_of_batch(self.joined.claims.as_slice(), c));
                self.stage = Stage::Adding;
            }
            Stage::Adding => self.rounds.bind(c),
        }
    }

    fn round_claim(&self) -> Option<B128> {
        if self.closed.is_some() {
            return None;
        }
        match self.stage {
            Stage::Waiting | Stage::Opening => None,
            Stage::Adding => self.rounds.round_claim(),
        }
    }

    fn pending_count(&self) -> u32 {
        self.count_pending()
    }

    fn pending(&self, i: u32) -> Pending<'_> {
        if let Some(claim) = &self.closed {
            return Pending::Column { claim };
        }
        match self.stage {
            Stage::Waiting => unreachable!(),
            Stage::Opening => Pending::Column {
                claim: &self.joined.claims[i as usize],
            },
            Stage::Adding => sum_pending(&self.joined, &self.rounds),
        }
    }
}

//! The walk of a batch of claims.

ghost use Rattle.std.specs.Prelude.{◌≡◌, ◌≤◌, ◌^◌, length, IfOk};
ghost use Rattle.sumcheck.specs.Summing.{closed};
ghost use Rattle.bit_claim.specs.Batching.{batching, waiting, summed, room_of, state_claims, BitValue as OnBits, IsDone, Takes};

use crate::batched::Batched;
use crate::bit_value::BitValue;
use crate::no_memory::NoMemory;
use crate::placement::Placement;
use crate::room::Room;
use poly_forms::DrawKind;
use std::alloc::Global;
use std::marker::Model;
use sumcheck::{
    ColumnClaim, Entry, Pending, Refused, Steps, SumRounds, sum_due, sum_message, sum_pending,
};
use tower_field::B128;

#[derive(Clone, Copy)]
pub enum Stage {
    Waiting,
    Opening,
    Adding,
}

/// Claims on committed columns, turned into one claim on the table of all their bits. It takes all its
/// memory in `begin`.
#[derive(Drop)]
pub struct BitWalk {
    alloc: Global,
    stage: Stage,
    batched: Batched,
    rounds: SumRounds,
    closed: Option<BitValue>,
    room: Room,
}

impl Model for BitWalk {
    ghost use Rattle.bit_claim.specs.Batching.{Batching};
    ghost use Rattle.bit_claim.specs.BitWalk.{StageFits, batching_of};

    ghost Value = { Batching };

    ghost view = { λ w. batching_of w.stage w.batched w.rounds w.closed w.room };

    ghost invariant = { λ w. StageFits w.stage w.batched w.rounds w.closed };
}

impl BitWalk {
    /// A walk for claims on the columns of these blocks. `claims` is how many claims `enter` can take;
    /// `enter_owned` takes any number.
    pub fn begin(alloc: Global, placement: &Placement, claims: u32) -> Result<BitWalk, NoMemory>
        ensures { IfOk result (λ walk. walk ≡ waiting placement.now claims) }
    {
        Ok(BitWalk {
            alloc,
            stage: Stage::Waiting,
            batched: Batched::none(alloc, placement.copy(alloc)?),
            rounds: SumRounds::begin(alloc, placement.vars(), 2)?,
            closed: None,
            room: Room::begin(alloc, claims)?,
        })
    }

    /// States the claims.
    pub fn enter(&mut self, claims: &[ColumnClaim])
        requires taken { Takes claims.now self.old }
        requires room { length claims.now ≤ room_of self.old }
        ensures { self.new ≡ state_claims claims.now self.old }
    {
        self.batched.placement().points_are_short(claims);
        let copies = self.room.fill(self.alloc, claims);
        self.enter_owned(copies);
    }

    /// States claims in their own memory.
    pub fn enter_owned(&mut self, claims: Vec<ColumnClaim>)
        requires { Takes claims.items self.old }
        ensures { self.new ≡ state_claims claims.items self.old }
    {
        self.batched.enter(claims);
        self.stage = Stage::Opening;
    }

    /// The point and the value of the claim at the end.
    pub fn result(&self) -> (&[B128], B128)
        requires { IsDone self.now }
        ensures { (b : OnBits) → self.now ≡ summed (closed b) → (result.0.now ≡ b.point) × (result.1 ≡ b.value) }
    {
        match &self.closed {
            Some(claim) => (claim.point.as_slice(), claim.value),
            None => unreachable!(),
        }
    }

    /// How many claims are pending. They are few, so that those of many walks can be counted together.
    pub fn count_pending(&self) -> u32
        ensures count { result ≡ length (batching.pending self.now) }
        ensures few { result ≤ 2 ^ 30 }
    {
        if self.closed.is_some() {
            return 1;
        }
        match self.stage {
            Stage::Waiting => 0,
            Stage::Opening => self.batched.claims().len() as u32,
            Stage::Adding => 1,
        }
    }

    /// The claim at the end.
    pub fn leave(self) -> BitValue
        requires { IsDone self }
        ensures { self ≡ summed (closed result) }
    {
        let BitWalk {
            alloc: _,
            stage: _,
            batched: _,
            rounds: _,
            closed,
            room: _,
        } = self;
        match closed {
            Some(claim) => claim,
            None => unreachable!(),
        }
    }
}

impl Steps for BitWalk {
    ghost machine = { batching };

    fn is_lawful() {}

    fn due(&self) -> Option<Entry> {
        if self.closed.is_some() {
            return None;
        }
        match self.stage {
            Stage::Waiting => None,
            Stage::Opening => Some(Entry::Draw {
                kind: DrawKind::BitBatch,
                count: (self.batched.claims().len() as u64).saturating_sub(1),
            }),
            Stage::Adding => Some(sum_due(&self.batched, &self.rounds)),
        }
    }

    fn message(&mut self, values: &[B128]) -> Result<(), Refused> {
        let last = sum_message(&self.batched, &mut self.rounds, values)?;
        if last {
            let point = self.rounds.take_point();
            let claim = self.batched.close(self.alloc, point, values[0]);
            self.closed = Some(claim);
        }
        Ok(())
    }

    fn draw(&mut self, c: B128) {
        match self.stage {
            Stage::Waiting => unreachable!(),
            Stage::Opening => {
                self.batched.join(c);
                self.rounds.enter(self.batched.value());
                self.stage = Stage::Adding;
            }
            Stage::Adding => self.rounds.bind(c),
        }
    }

    fn round_claim(&self) -> Option<B128> {
        if self.closed.is_some() {
            return None;
        }
        match self.stage {
            Stage::Waiting | Stage::Opening => None,
            Stage::Adding => self.rounds.round_claim(),
        }
    }

    fn pending_count(&self) -> u32 {
        self.count_pending()
    }

    fn pending(&self, i: u32) -> Pending<'_> {
        if let Some(claim) = &self.closed {
            return Pending::Bit {
                point: claim.point.as_slice(),
                value: claim.value,
            };
        }
        match self.stage {
            Stage::Waiting => unreachable!(),
            Stage::Opening => Pending::Column {
                claim: &self.batched.claims()[i as usize],
            },
            Stage::Adding => sum_pending(&self.batched, &self.rounds),
        }
    }
}

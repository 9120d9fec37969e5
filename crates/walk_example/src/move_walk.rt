//! The walk.

ghost use Rattle.std.specs.Prelude.{◌≡◌, ◌<◌, ◌≤◌, [], length, IfOk, IfSome, None};
ghost use Rattle.sumcheck.specs.Rounds.{sum_claim};
ghost use Rattle.sumcheck.specs.Column.{ColumnFits, ColumnHolds};
ghost use Rattle.sumcheck.specs.Machine.{Filling};
ghost use Rattle.sumcheck.specs.Summing.{adding, closed};
ghost use Rattle.walk_example.specs.Move.{move, IsAtDraws, IsDone, IsSameTruth};

use crate::moved::Moved;
use std::alloc::Global;
use std::marker::Model;
use sumcheck::{
    ColumnClaim, Entry, NoMemory, Pending, Refused, Steps, SumRounds, sum_due, sum_message,
    sum_pending,
};
use tower_field::{B128, Values};

/// A claim on a column, moved to the draws. It takes all its memory in `begin`.
#[derive(Drop)]
pub struct MoveWalk {
    moved: Moved,
    rounds: SumRounds,
    closed: Option<ColumnClaim>,
}

impl Model for MoveWalk {
    ghost use Rattle.walk_example.specs.Move.{Move, move_of};

    ghost Value = { Move };

    ghost view = { λ w. move_of w.moved w.rounds w.closed };
}

impl MoveWalk {
    /// The walk of a claim on a column of `vars` variables.
    pub fn begin(alloc: Global, vars: u32, claim: ColumnClaim) -> Result<MoveWalk, NoMemory>
        requires { vars ≤ 32 }
        ensures state { IfOk result (λ walk. walk ≡ adding (record { claim = claim }) (sum_claim 2 vars [] claim.value)) }
        ensures same { IfOk result (λ walk. (F : Filling) → length claim.point ≡ vars → ColumnFits F claim → move.fits F walk × IsSameTruth (ColumnHolds F claim) (move.holds F walk)) }
    {
        let mut rounds = SumRounds::begin(alloc, vars, 2)?;
        rounds.enter(claim.value);
        Ok(MoveWalk {
            moved: Moved { claim },
            rounds,
            closed: None,
        })
    }
}

impl MoveWalk {
    /// The claim that is left at the end.
    pub fn leave(self) -> ColumnClaim
        requires { IsDone self }
        ensures { self ≡ closed result }
    {
        let MoveWalk {
            moved: _,
            rounds: _,
            closed,
        } = self;
        match closed {
            Some(claim) => claim,
            None => unreachable!(),
        }
    }
}

/// The walk of the claim that a walk has left: where one is true the other is, for every filling.
pub fn move_again(alloc: Global, vars: u32, first: MoveWalk) -> Result<MoveWalk, NoMemory>
    requires few { vars ≤ 32 }
    requires done { IsDone first }
    ensures { IfOk result (λ second. (F : Filling) → IsAtDraws vars first → move.fits F first → move.fits F second × IsSameTruth (move.holds F first) (move.holds F second)) }
{
    MoveWalk::begin(alloc, vars, first.leave())
}

impl Steps for MoveWalk {
    ghost machine = { move };

    fn is_lawful() {}

    fn due(&self) -> Option<Entry> {
        if self.closed.is_some() {
            return None;
        }
        Some(sum_due(&self.moved, &self.rounds))
    }

    fn message(&mut self, values: &[B128]) -> Result<(), Refused> {
        if sum_message(&self.moved, &mut self.rounds, values)? {
            let claim = &self.moved.claim;
            self.closed = Some(ColumnClaim {
                table: claim.table,
                column: claim.column,
                point: Values::from_vec(self.rounds.take_point()),
                value: values[0],
            });
        }
        Ok(())
    }

    fn draw(&mut self, c: B128) {
        self.rounds.bind(c);
    }

    fn round_claim(&self) -> Option<B128> {
        if self.closed.is_some() {
            return None;
        }
        self.rounds.round_claim()
    }

    fn pending_count(&self) -> u32 {
        1
    }

    fn pending(&self, i: u32) -> Pending<'_> {
        match &self.closed {
            Some(claim) => Pending::Column { claim },
            None => sum_pending(&self.moved, &self.rounds),
        }
    }
}

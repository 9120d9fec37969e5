//! The walk of a group.

ghost use Rattle.std.specs.Prelude.{◌≡◌, ◌<◌, ◌≤◌, ◌-◌, ◌^◌, length, slice_get, IfOk, IsSome, List, Some, option_map};
ghost use Rattle.sumcheck.specs.Claim.{claim_of};
ghost use Rattle.sumcheck.specs.Summing.{closed};
ghost use Rattle.sumcheck.specs.declared.column_claim.ColumnClaim.{ColumnClaim as Claim};
ghost use Rattle.table_shape.specs.Limits.{max_rows};
ghost use Rattle.zerocheck.specs.Group.{Group as Constraints, group_of};
ghost use Rattle.zerocheck.specs.Zero.{zerocheck, unstated, waiting, summed, stage_at, state_zero, IsWaiting, ZeroIsDone};

use crate::group::Group;
use crate::no_memory::NoMemory;
use crate::zeroed::Zeroed;
use poly_forms::DrawKind;
use std::alloc::Global;
use std::marker::Model;
use sumcheck::{
    ColumnClaim, Entry, Pending, Points, Refused, Steps, SumRounds, sum_due, sum_message,
    sum_pending,
};
use table_shape::Shape;
use tower_field::{B128, Tower};

#[derive(Clone, Copy)]
pub enum Stage {
    Waiting,
    Stated,
    Drawing,
    Adding,
    Done,
}

/// The most coordinates of a point.
const MOST: u32 = 32;

/// The claim that the constraints of a group are 0 on the rows, turned into a sum, and at its end into
/// claims on columns. It takes all its memory in `begin`.
#[derive(Drop)]
pub struct ZeroWalk {
    stage: Stage,
    zeroed: Zeroed,
    left: u32,
    rounds: SumRounds,
    points: Points,
    claims: Vec<ColumnClaim>,
}

impl Model for ZeroWalk {
    ghost use Rattle.std.specs.Coded.{codes};
    ghost use Rattle.std.specs.Prelude.{◌≡◌, ◌≤◌, ◌<◌, ◌^◌, length, vec_capacity};
    ghost use Rattle.poly_forms.specs.contracts.form.Form as tree;
    ghost use Rattle.zerocheck.specs.Zero.{Zero, zero_of, IsOpen, StageFits};

    ghost Value = { Zero };

    ghost coded = { Prim.hlevel (codes, tree.the_row.coded) };

    ghost view = { λ w. zero_of w.stage w.zeroed w.left w.rounds w.claims.items };

    ghost invariant = { λ w. record { stage : StageFits w.stage w.zeroed w.left w.rounds w.claims.items; vars : w.points.vars ≡ 32; many : IsOpen w.stage → length w.zeroed.group.columns ≤ w.points.count; space : IsOpen w.stage → length w.zeroed.group.columns ≤ vec_capacity w.claims; told : length w.claims.items < 2 ^ 30 } };
}

impl ZeroWalk {
    /// A walk for a table's constraints of `2 ^ log_values` values per row, of which there has to be
    /// one, on a number of rows.
    pub fn begin(
        alloc: Global,
        shape: &Shape,
        table: u32,
        log_values: u32,
        rows: u32,
    ) -> Result<ZeroWalk, NoMemory>
        requires some { IsSome (group_of shape.now.tables rows table log_values) }
        requires few { rows ≤ max_rows }
        ensures { IfOk result (λ walk. (g : Constraints) → group_of shape.now.tables rows table log_values ≡ Some g → walk ≡ waiting g) }
    {
        ZeroWalk::of(alloc, Group::of(alloc, shape, table, log_values, rows)?)
    }

    /// A walk for a group.
    fn of(alloc: Global, group: Group) -> Result<ZeroWalk, NoMemory>
        ensures { IfOk result (λ walk. walk ≡ waiting group) }
    {
        let rounds = SumRounds::begin(alloc, group.vars, group.degree + 2)?;
        let points = Points::begin(alloc, MOST, group.columns.len() as u32)?;
        let claims = Vec::with_capacity(alloc, group.columns.len())?;
        Ok(ZeroWalk {
            stage: Stage::Waiting,
            zeroed: Zeroed::begin(alloc, group)?,
            left: 0,
            rounds,
            points,
            claims,
        })
    }

    /// States the claim.
    pub fn enter(&mut self)
        requires { IsWaiting self.old }
        ensures { self.new ≡ state_zero self.old }
    {
        self.stage = Stage::Stated;
    }

    /// How many claims are left at the end.
    pub fn claim_count(&self) -> u32
        requires { ZeroIsDone self.now }
        ensures { result ≡ length (zerocheck.pending self.now) }
    {
        self.claims.len() as u32
    }

    /// A claim that is left at the end, in the order of the columns.
    pub fn claim(&self, i: u32) -> &ColumnClaim
        requires done { ZeroIsDone self.now }
        requires within { i < length (zerocheck.pending self.now) }
        ensures { (claims : List Claim) → self.now ≡ summed (closed claims) → slice_get claims i ≡ Some result.now }
    {
        &self.claims[i as usize]
    }

    /// What is claimed while the claim isn't stated yet.
    pub fn unstated(&self) -> Option<Pending<'_>>
        ensures { option_map claim_of result ≡ unstated self.now }
    {
        match self.stage {
            Stage::Waiting => Some(Pending::Group {
                table: self.zeroed.group.table,
                log_values: self.zeroed.group.log_values,
            }),
            _ => None,
        }
    }

    /// How many claims are pending. They are few, so that those of many walks can be counted together.
    pub fn count_pending(&self) -> u32
        ensures count { result ≡ length (zerocheck.pending self.now) }
        ensures few { result ≤ 2 ^ 30 }
    {
        match self.stage {
            Stage::Waiting => 0,
            Stage::Stated | Stage::Drawing | Stage::Adding => 1,
            Stage::Done => self.claims.len() as u32,
        }
    }

    /// The claims that are left at the end, in their memory.
    pub fn leave(self) -> Vec<ColumnClaim>
        requires { ZeroIsDone self }
        ensures { self ≡ summed (closed result.items) }
    {
        let ZeroWalk {
            stage: _,
            zeroed: _,
            left: _,
            rounds: _,
            points: _,
            claims,
        } = self;
        claims
    }
}

/// The stage where so many coordinates are due, and how many are due after the next one.
fn due_after(coordinates: u32) -> (Stage, u32)
    ensures stage { result.0 ≡ stage_at coordinates }
    ensures left { result.1 ≡ coordinates - 1 }
{
    if coordinates == 0 {
        (Stage::Adding, 0)
    } else {
        (Stage::Drawing, coordinates - 1)
    }
}

impl Steps for ZeroWalk {
    ghost machine = { zerocheck };

    fn is_lawful() {}

    fn due(&self) -> Option<Entry> {
        match self.stage {
            Stage::Waiting | Stage::Done => None,
            Stage::Stated => Some(Entry::Draw {
                kind: DrawKind::ConstraintBatch,
                count: self.zeroed.group.constraints.len() as u64 - 1,
            }),
            Stage::Drawing => Some(Entry::Draw {
                kind: DrawKind::ZeroCoordinate,
                count: 1,
            }),
            Stage::Adding => Some(sum_due(&self.zeroed, &self.rounds)),
        }
    }

    fn message(&mut self, values: &[B128]) -> Result<(), Refused> {
        let last = sum_message(&self.zeroed, &mut self.rounds, values)?;
        if last {
            let point = self.rounds.point();
            self.zeroed
                .tell(point, values, &mut self.points, &mut self.claims);
            self.stage = Stage::Done;
        }
        Ok(())
    }

    fn draw(&mut self, c: B128) {
        match self.stage {
            Stage::Waiting | Stage::Done => unreachable!(),
            Stage::Stated => {
                self.zeroed.join(c);
                (self.stage, self.left) = due_after(self.zeroed.vars());
            }
            Stage::Drawing => {
                self.zeroed.set(c);
                (self.stage, self.left) = due_after(self.left);
            }
            Stage::Adding => self.rounds.bind(c),
        }
    }

    fn round_claim(&self) -> Option<B128> {
        match self.stage {
            Stage::Adding => self.rounds.round_claim(),
            _ => None,
        }
    }

    fn pending_count(&self) -> u32 {
        self.count_pending()
    }

    fn pending(&self, i: u32) -> Pending<'_> {
        let group = &self.zeroed.group;
        match self.stage {
            Stage::Waiting => unreachable!(),
            Stage::Stated => Pending::Group {
                table: group.table,
                log_values: group.log_values,
            },
            Stage::Drawing => Pending::ZeroVector {
                table: group.table,
                log_values: group.log_values,
                beta: self.zeroed.beta,
                prefix: self.zeroed.point.as_slice(),
            },
            Stage::Adding => sum_pending(&self.zeroed, &self.rounds),
            Stage::Done => Pending::Column {
                claim: &self.claims[i as usize],
            },
        }
    }
}

//! The prover of a shifted column.

ghost use Rattle.std.specs.Prelude.{◌≡◌, ℕ, ◌≤◌, ◌<◌, ◌+◌, ◌*◌, ◌^◌, ◌==◌, take, drop, length, vec_capacity, is_some, true, false, None, IfOk, IsSome, Some};
ghost use Rattle.cube_laws.specs.Extension.{extension};
ghost use Rattle.cube_laws.specs.Sums.{tabulate};
ghost use Rattle.shift_laws.specs.Shifts.{goes, flag, shift_sum};
ghost use Rattle.cube_mle.specs.Moving.{shift_of};
ghost use Rattle.sumcheck.specs.declared.column_claim.ColumnClaim.{ColumnClaim as Claim};
ghost use Rattle.sumcheck.specs.Column.{ColumnHolds};
ghost use Rattle.sumcheck.specs.Machine.{AwaitsSome, Filling};
ghost use Rattle.sumcheck.specs.Summing.{closed};
ghost use Rattle.eval_reduce.specs.declared.shifting.Shifting.{Shifting as Form};
ghost use Rattle.eval_reduce.specs.Shift.{shift_entries, shifting_of, source_of, stated_sum, summed, Shift};
ghost use Rattle.eval_reduce.specs.ShiftProver.{FollowsShift, IsNewShifter};
ghost use Rattle.eval_reduce.specs.Virtual.{table_of, IsThere};

use crate::ending::Ending;
use crate::giving::give;
use crate::no_memory::NoMemory;
use crate::pack_prover::append_corners;
use crate::shift_walk::ShiftWalk;
use crate::shifting::Shifting;
use cube_mle::{ShiftKind, eq_table};
use std::alloc::Global;
use sumcheck::{ColumnClaim, ColumnTables, Honest, Pair, SumProver, Tables128};
use table_shape::Shape;
use tower_field::{B128, Tower, Values};

/// Where the value at place `p` of a block goes, if it stays in the block.
fn target(shifting: &Shifting, p: usize) -> Option<usize>
    requires small { shifting.now.block ≤ 7 }
    requires within { p < 2 ^ shifting.now.block }
    requires offset { shifting.now.offset < 2 ^ shifting.now.block }
    ensures stays { (t : ℕ) → result ≡ Some t → (t < 2 ^ shifting.now.block) × ((q : ℕ) → q < 2 ^ shifting.now.block → goes (shift_of shifting.now.kind) shifting.now.block shifting.now.offset q p ≡ (q == t)) }
    ensures leaves { result ≡ None → (q : ℕ) → q < 2 ^ shifting.now.block → goes (shift_of shifting.now.kind) shifting.now.block shifting.now.offset q p ≡ false }
{
    let size = 1usize << shifting.block;
    let offset = shifting.offset as usize;
    match shifting.kind {
        ShiftKind::Shl => {
            if p + offset < size {
                Some(p + offset)
            } else {
                None
            }
        }
        ShiftKind::Shr => p.checked_sub(offset),
        ShiftKind::Rol => Some((p + offset) % size),
    }
}

/// The shift's table at a point: for each place of a block, eq of the point and the place to which its
/// value goes.
fn moved_table(alloc: Global, shifting: &Shifting, low: &[B128]) -> Result<Vec<B128>, NoMemory>
    requires small { shifting.now.block ≤ 7 }
    requires offset { shifting.now.offset < 2 ^ shifting.now.block }
    requires block { length low.now ≡ shifting.now.block }
    ensures { IfOk result (λ table. table.items ≡ tabulate (2 ^ shifting.now.block) (λ p. extension (tabulate (2 ^ shifting.now.block) (λ q. flag (goes (shift_of shifting.now.kind) shifting.now.block shifting.now.offset q p))) low.now)) }
{
    let weights = eq_table(alloc, low)?;
    let mut table = Vec::new(alloc);
    for p in 0..weights.len() {
        let value = match target(shifting, p) {
            Some(t) => weights[t],
            None => B128::ZERO,
        };
        if table.push(value).is_err() {
            return Err(NoMemory);
        }
    }
    Ok(table)
}

/// The prover of the sum, with its tables.
fn begin_sum(
    alloc: Global,
    shifting: &Shifting,
    point: &[B128],
    source: &[B128],
) -> Result<SumProver<Pair>, NoMemory>
    requires small { shifting.now.block ≤ 7 }
    requires offset { shifting.now.offset < 2 ^ shifting.now.block }
    requires block { shifting.now.block ≤ length point.now }
    requires long { length source.now ≡ 2 ^ length point.now }
    ensures { IfOk result (λ p. p ≡ record { summand = record {}; degree = 2; left = shifting.now.block; lists = (shift_sum (shift_of shifting.now.kind) shifting.now.block shifting.now.offset source.now (take shifting.now.block point.now) (drop shifting.now.block point.now)).lists }) }
{
    let (low, high) = point.split_at(shifting.block as usize);
    let moved = moved_table(alloc, shifting, low)?;
    let mut parts = Vec::new(alloc);
    append_corners(alloc, source, shifting.block, high, &mut parts)?;
    let mut tables = Tables128::new(alloc);
    tables.push(Values::from_vec(moved))?;
    tables.push(Values::from_vec(parts))?;
    let sum = SumProver::begin(alloc, Pair, 2, tables)?;
    Ok(sum)
}

/// The prover of a shifted column, who makes the tables of a block with the first message, and has at
/// the end the claim on the source with its true value.
#[derive(Drop)]
pub struct ShiftProver {
    alloc: Global,
    shifting: Shifting,
    source: Vec<B128>,
    point: Vec<B128>,
    sum: Option<SumProver<Pair>>,
    ending: Ending,
}

impl ShiftProver {
    /// The prover for a shifted column on a number of rows, from the list of its source.
    pub fn begin(
        alloc: Global,
        shape: &Shape,
        table: u32,
        column: u32,
        rows: u32,
        tables: &ColumnTables,
    ) -> Result<ShiftProver, NoMemory>
        requires form { IsSome (shifting_of shape.now.tables rows table column) }
        requires there { (s : Form) → shifting_of shape.now.tables rows table column ≡ Some s → IsThere tables.now table s.source (2 ^ s.vars) }
        ensures form { IfOk result (λ prover. shifting_of shape.now.tables rows table column ≡ Some prover.shifting) }
        ensures source { IfOk result (λ prover. prover.source.items ≡ table_of tables.now table prover.shifting.source) }
        ensures room { IfOk result (λ prover. prover.shifting.vars ≤ vec_capacity prover.point) }
        ensures new { IfOk result IsNewShifter }
        ensures small { IfOk result (λ prover. (prover.shifting.block ≤ 7) × ((prover.shifting.offset < 2 ^ prover.shifting.block) × (prover.shifting.block ≤ prover.shifting.vars))) }
    {
        ShiftProver::of(alloc, Shifting::of(shape, table, column, rows), tables)
    }

    /// The prover for a shifted column, from the list of its source.
    pub(crate) fn of(
        alloc: Global,
        shifting: Shifting,
        tables: &ColumnTables,
    ) -> Result<ShiftProver, NoMemory>
        requires { IsThere tables.now shifting.table shifting.source (2 ^ shifting.vars) }
        ensures form { IfOk result (λ prover. prover.shifting ≡ shifting) }
        ensures source { IfOk result (λ prover. prover.source.items ≡ table_of tables.now shifting.table shifting.source) }
        ensures room { IfOk result (λ prover. prover.shifting.vars ≤ vec_capacity prover.point) }
        ensures new { IfOk result IsNewShifter }
    {
        let Some(source) = tables.get(shifting.table, shifting.source) else {
            unreachable!();
        };
        Ok(ShiftProver {
            alloc,
            shifting,
            source: Vec::from_slice(alloc, source)?,
            point: Vec::with_capacity(alloc, shifting.vars as usize)?,
            sum: None,
            ending: Ending::begin(
                alloc,
                shifting.table,
                shifting.source,
                shifting.vars as usize,
            )?,
        })
    }

    /// Takes the point of the claim. What value is claimed makes no difference.
    pub fn enter(&mut self, claim: &ColumnClaim)
        requires new { IsNewShifter self.old }
        requires small { (self.old.shifting.block ≤ 7) × ((self.old.shifting.offset < 2 ^ self.old.shifting.block) × (self.old.shifting.block ≤ self.old.shifting.vars)) }
        requires long { length claim.now.point ≡ self.old.shifting.vars }
        requires room { self.old.shifting.vars ≤ vec_capacity self.old.point }
        ensures { (F : Filling) (c : Claim) → c.point ≡ claim.now.point → source_of F self.old.shifting ≡ self.old.source.items → length self.old.source.items ≡ 2 ^ self.old.shifting.vars → FollowsShift self.new F (stated_sum self.old.shifting c) }
    {
        if self
            .point
            .extend_from_slice(claim.point.as_slice())
            .is_err()
        {
            unreachable!();
        }
    }

    /// How many claims are left at the end.
    pub fn claim_count(&self) -> u32
        requires { (F : Filling) × (c : Claim) × FollowsShift self.now F (summed (closed c)) }
        ensures { result ≡ 1 }
    {
        1
    }

    /// The claim that is left at the end, `i` being 0. It is true, whatever the walk would have refused.
    pub fn claim(&self, i: u32) -> &ColumnClaim
        requires { (F : Filling) × (c : Claim) × (_ : FollowsShift self.now F (summed (closed c))) × (i < 1) }
        ensures claim { (F : Filling) (c : Claim) → FollowsShift self.now F (summed (closed c)) → result.now ≡ c }
        ensures holds { (F : Filling) (c : Claim) → FollowsShift self.now F (summed (closed c)) → ColumnHolds F result.now }
    {
        self.ending.claim()
    }

    /// Makes the tables, where there are none yet.
    fn start(&mut self) -> Result<(), NoMemory>
        requires { (F : Filling) × (s : Shift) × (_ : FollowsShift self.old F s) × AwaitsSome (shift_entries s) }
        ensures started { IfOk result (λ _. is_some self.new.sum ≡ true) }
        ensures follows { IfOk result (λ _. (F : Filling) (s : Shift) → FollowsShift self.old F s → AwaitsSome (shift_entries s) → FollowsShift self.new F s) }
    {
        if self.sum.is_some() {
            return Ok(());
        }
        let sum = begin_sum(
            self.alloc,
            &self.shifting,
            self.point.as_slice(),
            self.source.as_slice(),
        )?;
        self.sum = Some(sum);
        Ok(())
    }
}

impl Honest for ShiftProver {
    type Walk = ShiftWalk;

    ghost follows = { FollowsShift };

    fn message(&mut self, out: &mut Vec<B128>) -> Result<(), sumcheck::NoMemory> {
        let Ok(()) = self.start() else {
            return Err(sumcheck::NoMemory);
        };
        let Some(sum) = &self.sum else {
            unreachable!();
        };
        let (_, high) = self.point.split_at(self.shifting.block as usize);
        give(sum, &mut self.ending, high, out)?;
        Ok(())
    }

    fn draw(&mut self, c: B128) {
        match &mut self.sum {
            Some(sum) => {
                sum.bind(c);
                self.ending.set(c);
            }
            None => unreachable!(),
        }
    }
}

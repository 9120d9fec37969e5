//! The walk of a flush's product.

ghost use Rattle.std.specs.Prelude.{◌≡◌, ℕ, ◌+◌, ◌<◌, ◌≤◌, ◌^◌, ◌++◌, ◌∷◌, [], List, length, slice_get, IfOk, IsSome, OnOk, Some};
ghost use Rattle.sumcheck.specs.Claim.{Claim};
ghost use Rattle.sumcheck.specs.Rounds.{bound, sum_claim, with_claim, Rounds};
ghost use Rattle.sumcheck.specs.Summing.{closed};
ghost use Rattle.sumcheck.specs.declared.column_claim.ColumnClaim.{ColumnClaim as Told};
ghost use Rattle.table_shape.specs.Limits.{max_channel_width, max_rows};
ghost use Rattle.channel_products.specs.Descent.{descending, descent, leaf_columns, leaves, row_vars, state_product, waiting, DescentIsDone, IsWaiting};
ghost use Rattle.channel_products.specs.DescentFields.{descent_of, flush_in, stage_at, sums_from, StageFits};
ghost use Rattle.table_shape.specs.Fits.{ShapeFits};
ghost use Rattle.table_shape.specs.declared.shape.FlushShape.{FlushShape as Flush};

use crate::channels::copied_flush;
use crate::flushed::Flushed;
use crate::layered::Layered;
use crate::no_memory::NoMemory;
use crate::pointed::Pointed;
use poly_forms::DrawKind;
use std::alloc::Global;
use std::marker::Model;
use sumcheck::{
    ColumnClaim, Entry, Pending, Points, Refused, Steps, SumRounds, push_claims, sum_due,
    sum_message, sum_pending,
};
use table_shape::{FlushShape, Shape};
use tower_field::{B128, Tower};

#[derive(Clone, Copy)]
pub enum Stage {
    Waiting,
    Layers,
    Joining,
    Leaves,
    Done,
}

/// The most variables of a sum.
const MOST: u32 = 32;

/// The claim that the product of a flush's leaves is a value, turned layer by layer into claims on the
/// flush's columns. It takes all its memory in `begin`.
#[derive(Drop)]
pub struct ProductWalk {
    stage: Stage,
    layered: Layered,
    rounds: SumRounds,
    later: Vec<SumRounds>,
    low: B128,
    high: B128,
    columns: Vec<u32>,
    points: Points,
    claims: Vec<ColumnClaim>,
}

impl Model for ProductWalk {
    ghost use Rattle.std.specs.Prelude.{◌≡◌, ◌≤◌, ◌<◌, ◌^◌, length, vec_capacity};
    ghost use Rattle.channel_products.specs.Descent.{Descent, leaf_columns};
    ghost use Rattle.channel_products.specs.DescentFields.{descent_of, IsOpen, StageFits};

    ghost Value = { Descent };

    ghost view = { λ w. descent_of w.stage w.layered w.rounds w.low w.high w.claims.items };

    ghost invariant = { λ w. record { stage : StageFits w.stage w.layered w.later.items w.claims.items; columns : w.columns.items ≡ leaf_columns w.layered.at.flushed; vars : w.points.vars ≡ 32; few : length w.columns.items < 2 ^ 30; many : IsOpen w.stage → length w.columns.items ≤ w.points.count; space : IsOpen w.stage → length w.columns.items ≤ vec_capacity w.claims; told : length w.claims.items < 2 ^ 30 } };
}

/// The flush of that number.
pub(crate) fn flush_at(shape: &Shape, table: u32, flush: u32) -> &FlushShape
    requires { IsSome (flush_in shape.now.tables table flush) }
    ensures flush { flush_in shape.now.tables table flush ≡ Some result.now }
    ensures fits { ShapeFits shape.now }
{
    &shape.tables()[table as usize].flushes.as_slice()[flush as usize]
}

/// The columns that the leaves of a flush are made from.
pub(crate) fn columns_of(alloc: Global, flush: &Flushed) -> Result<Vec<u32>, NoMemory>
    ensures { IfOk result (λ columns. columns.items ≡ leaf_columns flush.now) }
{
    let mut columns = Vec::new(alloc);
    if let Some(selector) = flush.shape.selector {
        if columns.push(selector).is_err() {
            return Err(NoMemory);
        }
    }
    columns.extend_from_slice(flush.shape.columns.as_slice())?;
    Ok(columns)
}

/// Appends the rounds of a sum.
fn push_rounds(
    alloc: Global,
    vars: u32,
    degree: u32,
    all: &mut Vec<SumRounds>,
) -> Result<(), NoMemory>
    requires few { vars ≤ 32 }
    requires degree { (0 < degree) × (degree < 11) }
    ensures { OnOk result (all.new.items ≡ all.old.items ++ sum_claim degree vars [] 0 ∷ []) }
{
    let rounds = SumRounds::begin(alloc, vars, degree)?;
    if all.push(rounds).is_err() {
        return Err(NoMemory);
    }
    Ok(())
}

/// The rounds of all sums, those of the first layer last.
fn all_rounds(alloc: Global, vars: u32) -> Result<Vec<SumRounds>, NoMemory>
    requires { vars ≤ 32 }
    ensures { IfOk result (λ all. all.items ≡ sums_from vars 0 vars) }
{
    let mut all = Vec::new(alloc);
    push_rounds(alloc, vars, 4, &mut all)?;
    let mut layer = vars;
    while layer > 0 {
        layer -= 1;
        push_rounds(alloc, layer, 3, &mut all)?;
    }
    Ok(all)
}

/// The first number of a message of two.
fn both(values: &[B128]) -> (B128, B128)
    requires { length values.now ≡ 2 }
    ensures { values.now ≡ result.0 ∷ result.1 ∷ [] }
{
    (values[0], values[1])
}

/// The rounds of the next sum, of a value.
fn next_rounds(later: &mut Vec<SumRounds>, value: B128) -> SumRounds
    requires { 0 < length later.old.items }
    ensures { (before : List Rounds) (next : Rounds) → later.old.items ≡ before ++ next ∷ [] → (later.new.items ≡ before) × (result ≡ with_claim value next) }
{
    let Some(mut rounds) = later.pop() else {
        unreachable!();
    };
    rounds.enter(value);
    rounds
}

/// Takes up the sum of a layer, with so many layers down to the leaves: the stage then.
fn descend(
    layered: &mut Layered,
    rounds: &mut SumRounds,
    later: &mut Vec<SumRounds>,
    layer: u32,
    below: u32,
    value: B128,
) -> Stage
    requires vars { row_vars layered.old.at.flushed ≡ layer + below }
    requires later { later.old.items ≡ sums_from (row_vars layered.old.at.flushed) layer below }
    ensures at { layered.new.at ≡ layered.old.at }
    ensures stage { result ≡ stage_at below }
    ensures state { (low high : ℕ) (claims : List Told) → descent_of result layered.new rounds.new low high claims ≡ descending layered.old.at.flushed layered.old.at.alpha layered.old.at.gamma layer below layered.old.at.point value }
    ensures fits { (claims : List Told) → claims ≡ [] → StageFits result layered.new later.new.items claims }
{
    *rounds = next_rounds(later, value);
    if below == 0 {
        return Stage::Leaves;
    }
    layered.set(layer, below - 1);
    Stage::Layers
}

impl ProductWalk {
    /// A walk for a flush of a table on a number of rows.
    pub fn begin(
        alloc: Global,
        shape: &Shape,
        table: u32,
        flush: u32,
        rows: u32,
    ) -> Result<ProductWalk, NoMemory>
        requires some { IsSome (flush_in shape.now.tables table flush) }
        requires few { rows ≤ max_rows }
        ensures { IfOk result (λ walk. (f : Flush) → flush_in shape.now.tables table flush ≡ Some f → walk ≡ waiting (record { table = table; number = flush; rows = rows; shape = f })) }
    {
        let own = flush_at(shape, table, flush);
        let copy = copied_flush(alloc, own)?;
        ProductWalk::of(
            alloc,
            Flushed {
                table,
                number: flush,
                rows,
                shape: copy,
            },
        )
    }

    /// A walk for a flush.
    fn of(alloc: Global, flushed: Flushed) -> Result<ProductWalk, NoMemory>
        requires rows { flushed.rows ≤ max_rows }
        requires width { length flushed.shape.columns ≤ max_channel_width }
        ensures { IfOk result (λ walk. walk ≡ waiting flushed) }
    {
        let columns = columns_of(alloc, &flushed)?;
        let at = Pointed::begin(alloc, flushed)?;
        let later = all_rounds(alloc, at.row_vars())?;
        let points = Points::begin(alloc, MOST, columns.len() as u32)?;
        let claims = Vec::with_capacity(alloc, columns.len())?;
        Ok(ProductWalk {
            stage: Stage::Waiting,
            layered: Layered {
                at,
                layer: 0,
                below: 0,
            },
            rounds: SumRounds::begin(alloc, 0, 1)?,
            later,
            low: B128::ZERO,
            high: B128::ZERO,
            columns,
            points,
            claims,
        })
    }

    /// States the claim that the product of the leaves at alpha and gamma is a value.
    pub fn enter(&mut self, alpha: B128, gamma: B128, product: B128)
        requires { IsWaiting self.old }
        ensures { self.new ≡ state_product alpha gamma product self.old }
    {
        self.layered.state(alpha, gamma);
        let vars = self.layered.at().row_vars();
        self.stage = descend(
            &mut self.layered,
            &mut self.rounds,
            &mut self.later,
            0,
            vars,
            product,
        );
    }

    /// How many claims are left at the end.
    pub fn claim_count(&self) -> u32
        requires { DescentIsDone self.now }
        ensures { result ≡ length (descent.pending self.now) }
    {
        self.claims.len() as u32
    }

    /// A claim that is left at the end: on the selector where there is one, and on each column of the
    /// tuple.
    pub fn claim(&self, i: u32) -> &ColumnClaim
        requires done { DescentIsDone self.now }
        requires within { i < length (descent.pending self.now) }
        ensures { (claims : List Told) → self.now ≡ leaves (closed claims) → slice_get claims i ≡ Some result.now }
    {
        &self.claims[i as usize]
    }

    /// How many claims are pending. They are few, so that those of many walks can be counted together.
    pub fn count_pending(&self) -> u32
        ensures count { result ≡ length (descent.pending self.now) }
        ensures few { result ≤ 2 ^ 30 }
    {
        match self.stage {
            Stage::Waiting => 0,
            Stage::Layers | Stage::Joining | Stage::Leaves => 1,
            Stage::Done => self.claims.len() as u32,
        }
    }

    /// The claims that are left at the end, in their memory.
    pub fn leave(self) -> Vec<ColumnClaim>
        requires { DescentIsDone self }
        ensures { self ≡ leaves (closed result.items) }
    {
        let ProductWalk {
            stage: _,
            layered: _,
            rounds: _,
            later: _,
            low: _,
            high: _,
            columns: _,
            points: _,
            claims,
        } = self;
        claims
    }
}

impl Steps for ProductWalk {
    ghost machine = { descent };

    fn is_lawful() {}

    fn due(&self) -> Option<Entry> {
        match self.stage {
            Stage::Waiting | Stage::Done => None,
            Stage::Layers => Some(sum_due(&self.layered, &self.rounds)),
            Stage::Joining => Some(Entry::Draw {
                kind: DrawKind::LayerJoin,
                count: 1,
            }),
            Stage::Leaves => Some(sum_due(self.layered.at(), &self.rounds)),
        }
    }

    fn message(&mut self, values: &[B128]) -> Result<(), Refused> {
        match self.stage {
            Stage::Layers => {
                if sum_message(&self.layered, &mut self.rounds, values)? {
                    (self.low, self.high) = both(values);
                    self.stage = Stage::Joining;
                }
            }
            Stage::Leaves => {
                if sum_message(self.layered.at(), &mut self.rounds, values)? {
                    push_claims(
                        self.layered.at().flushed.table,
                        self.columns.as_slice(),
                        self.rounds.point(),
                        values,
                        &mut self.points,
                        &mut self.claims,
                    );
                    self.stage = Stage::Done;
                }
            }
            Stage::Waiting | Stage::Joining | Stage::Done => unreachable!(),
        }
        Ok(())
    }

    fn draw(&mut self, c: B128) {
        match self.stage {
            Stage::Joining => {
                let value = self.low * (B128::ONE + c) + self.high * c;
                self.layered.go(self.rounds.point(), c);
                let (next, below) = (self.layered.next(), self.layered.below());
                self.stage = descend(
                    &mut self.layered,
                    &mut self.rounds,
                    &mut self.later,
                    next,
                    below,
                    value,
                );
            }
            Stage::Layers => self.rounds.bind(c),
            Stage::Leaves => self.rounds.bind(c),
            Stage::Waiting | Stage::Done => unreachable!(),
        }
    }

    fn round_claim(&self) -> Option<B128> {
        match self.stage {
            Stage::Layers | Stage::Leaves => self.rounds.round_claim(),
            _ => None,
        }
    }

    fn pending_count(&self) -> u32 {
        self.count_pending()
    }

    fn pending(&self, i: u32) -> Pending<'_> {
        let at = self.layered.at();
        match self.stage {
            Stage::Waiting => unreachable!(),
            Stage::Layers => sum_pending(&self.layered, &self.rounds),
            Stage::Joining => Pending::LayerPair {
                table: at.flushed.table,
                flush: at.flushed.number,
                alpha: at.alpha,
                gamma: at.gamma,
                layer: self.layered.layer(),
                point: self.rounds.point(),
                low: self.low,
                high: self.high,
            },
            Stage::Leaves => sum_pending(at, &self.rounds),
            Stage::Done => Pending::Column {
                claim: &self.claims[i as usize],
            },
        }
    }
}

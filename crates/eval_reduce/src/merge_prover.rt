//! The prover of a merge.

ghost use Rattle.std.specs.Prelude.{◌≡◌, ℕ, ◌≤◌, ◌<◌, ◌^◌, ◌∷◌, [], length, map, is_some, true, List, IfOk};
ghost use Rattle.tower_laws.specs.Tower.{mul};
ghost use Rattle.tower_laws.specs.Lists.{sums};
ghost use Rattle.cube_laws.specs.Extension.{weights};
ghost use Rattle.cube_laws.specs.SumClaim.{AllLong};
ghost use Rattle.batch_laws.specs.Batch.{batched, zeros};
ghost use Rattle.sumcheck.specs.declared.column_claim.ColumnClaim.{ColumnClaim as Claim};
ghost use Rattle.sumcheck.specs.Column.{ColumnHolds};
ghost use Rattle.sumcheck.specs.Machine.{AwaitsSome, Filling};
ghost use Rattle.sumcheck.specs.Summing.{closed};
ghost use Rattle.eval_reduce.specs.Following.{Follows, IsNew};
ghost use Rattle.eval_reduce.specs.Merge.{AllOn, Merge, merge_entries, opening, points, summed};

use crate::ending::Ending;
use crate::giving::give;
use crate::merge_walk::MergeWalk;
use crate::no_memory::NoMemory;
use crate::room::Room;
use cube_mle::eq_table;
use std::alloc::Global;
use sumcheck::{ColumnClaim, Honest, Pair, SumProver, Tables128};
use tower_field::{B128, Tower, Values};

/// The prover of a merge, who makes the table of the claims' points with the first message, and has at
/// the end the one claim with its true value.
#[derive(Drop)]
pub struct MergeProver {
    alloc: Global,
    vars: u32,
    room: Room,
    claims: Vec<ColumnClaim>,
    mu: Option<B128>,
    column: Vec<B128>,
    sum: Option<SumProver<Pair>>,
    ending: Ending,
}

/// Each value times mu, plus that of the other table.
fn add_scaled(cells: &mut Vec<B128>, table: &[B128], mu: B128)
    requires { length table.now ≡ length cells.old.items }
    ensures { cells.new.items ≡ sums table.now (map (mul mu) cells.old.items) }
{
    for i in 0..table.len() {
        cells[i] = table[i] + mu * cells[i];
    }
}

fn zero_table(alloc: Global, size: usize) -> Result<Vec<B128>, NoMemory>
    ensures { IfOk result (λ cells. cells.items ≡ zeros size) }
{
    let mut cells = Vec::with_capacity(alloc, size)?;
    for _ in 0..size {
        if cells.push(B128::ZERO).is_err() {
            return Err(NoMemory);
        }
    }
    Ok(cells)
}

/// 2 ^ n.
fn power(n: u32) -> usize
    requires { n ≤ 32 }
    ensures { result ≡ 2 ^ n }
{
    1usize << n
}

/// The sum of mu ^ j times eq of point j and each position.
fn batch_table(
    alloc: Global,
    claims: &[ColumnClaim],
    mu: B128,
    vars: u32,
) -> Result<Vec<B128>, NoMemory>
    requires few { vars ≤ 32 }
    requires placed { AllLong vars (points claims.now) }
    ensures { IfOk result (λ cells. cells.items ≡ batched (2 ^ vars) mu (map weights (points claims.now))) }
{
    let mut cells = zero_table(alloc, power(vars))?;
    let mut i = claims.len();
    while i > 0 {
        i -= 1;
        let claim = &claims[i];
        let Ok(table) = eq_table(alloc, claim.point.as_slice()) else {
            return Err(NoMemory);
        };
        add_scaled(&mut cells, table.as_slice(), mu);
    }
    Ok(cells)
}

/// The prover of the sum, with its tables.
fn begin_sum(
    alloc: Global,
    claims: &[ColumnClaim],
    mu: B128,
    vars: u32,
    column: Vec<B128>,
) -> Result<SumProver<Pair>, NoMemory>
    requires few { vars ≤ 32 }
    requires placed { AllLong vars (points claims.now) }
    requires whole { length column.items ≡ 2 ^ vars }
    ensures { IfOk result (λ p. p ≡ record { summand = record {}; degree = 2; left = vars; lists = batched (2 ^ vars) mu (map weights (points claims.now)) ∷ column.items ∷ [] }) }
{
    let weights = batch_table(alloc, claims, mu, vars)?;
    let mut tables = Tables128::new(alloc);
    tables.push(Values::from_vec(weights))?;
    tables.push(Values::from_vec(column))?;
    let sum = SumProver::begin(alloc, Pair, 2, tables)?;
    Ok(sum)
}

/// The claim at the end is on the column of the claims.
fn aim(ending: &mut Ending, claims: &[ColumnClaim])
    ensures { (t k n : ℕ) → 0 < length claims.now → AllOn t k n claims.now → ending.new ≡ record ending.old { table = t; column = k } }
{
    if claims.is_empty() {
        return;
    }
    let first = &claims[0];
    ending.aim(first.table, first.column);
}

impl MergeProver {
    /// The prover for a column of `2 ^ vars` values. `claims` is how many claims `enter` can take.
    pub fn begin(
        alloc: Global,
        vars: u32,
        claims: u32,
        column: &[B128],
    ) -> Result<MergeProver, NoMemory>
        requires few { vars ≤ 32 }
        requires whole { length column.now ≡ 2 ^ vars }
        ensures new { IfOk result (λ prover. IsNew vars prover) }
        ensures room { IfOk result (λ prover. prover.room.count ≡ claims) }
        ensures column { IfOk result (λ prover. prover.column.items ≡ column.now) }
    {
        let column = Vec::from_slice(alloc, column)?;
        Ok(MergeProver {
            alloc,
            vars,
            room: Room::begin(alloc, vars, claims)?,
            claims: Vec::new(alloc),
            mu: None,
            column,
            sum: None,
            ending: Ending::begin(alloc, 0, 0, vars as usize)?,
        })
    }

    /// Takes the points of the claims. What values are claimed makes no difference.
    pub fn enter(&mut self, claims: &[ColumnClaim])
        requires new { IsNew self.old.vars self.old }
        requires placed { AllLong self.old.vars (points claims.now) }
        requires room { length claims.now ≤ self.old.room.count }
        ensures { (F : Filling) (t k : ℕ) (cs : List Claim) → 0 < length claims.now → AllOn t k self.old.vars claims.now → points cs ≡ points claims.now → F t k ≡ self.old.column.items → Follows self.new F (opening t k self.old.vars cs) }
    {
        aim(&mut self.ending, claims);
        let copies = self.room.fill(claims);
        self.claims = copies;
    }

    /// The same of claims in their own memory.
    pub fn enter_owned(&mut self, claims: Vec<ColumnClaim>)
        requires new { IsNew self.old.vars self.old }
        requires placed { AllLong self.old.vars (points claims.items) }
        ensures { (F : Filling) (t k : ℕ) (cs : List Claim) → 0 < length claims.items → AllOn t k self.old.vars claims.items → points cs ≡ points claims.items → F t k ≡ self.old.column.items → Follows self.new F (opening t k self.old.vars cs) }
    {
        aim(&mut self.ending, claims.as_slice());
        self.claims = claims;
    }

    /// How many claims are left at the end.
    pub fn claim_count(&self) -> u32
        requires { (F : Filling) × (c : Claim) × Follows self.now F (summed (closed c)) }
        ensures { result ≡ 1 }
    {
        1
    }

    /// The claim that is left at the end, `i` being 0. It is true, whatever the walk would have refused.
    pub fn claim(&self, i: u32) -> &ColumnClaim
        requires { (F : Filling) × (c : Claim) × (_ : Follows self.now F (summed (closed c))) × (i < 1) }
        ensures claim { (F : Filling) (c : Claim) → Follows self.now F (summed (closed c)) → result.now ≡ c }
        ensures holds { (F : Filling) (c : Claim) → Follows self.now F (summed (closed c)) → ColumnHolds F result.now }
    {
        self.ending.claim()
    }

    /// Makes the tables, where there are none yet.
    fn start(&mut self) -> Result<(), NoMemory>
        requires { (F : Filling) × (s : Merge) × (_ : Follows self.old F s) × AwaitsSome (merge_entries s) }
        ensures started { IfOk result (λ _. is_some self.new.sum ≡ true) }
        ensures follows { IfOk result (λ _. (F : Filling) (s : Merge) → Follows self.old F s → AwaitsSome (merge_entries s) → Follows self.new F s) }
    {
        if self.sum.is_some() {
            return Ok(());
        }
        let Some(mu) = self.mu else {
            unreachable!();
        };
        let column = std::mem::replace(&mut self.column, Vec::new(self.alloc));
        let sum = begin_sum(self.alloc, self.claims.as_slice(), mu, self.vars, column)?;
        self.sum = Some(sum);
        Ok(())
    }
}

impl Honest for MergeProver {
    type Walk = MergeWalk;

    ghost follows = { Follows };

    fn message(&mut self, out: &mut Vec<B128>) -> Result<(), sumcheck::NoMemory> {
        let Ok(()) = self.start() else {
            return Err(sumcheck::NoMemory);
        };
        let Some(sum) = &self.sum else {
            unreachable!();
        };
        give(sum, &mut self.ending, &[], out)?;
        Ok(())
    }

    fn draw(&mut self, c: B128) {
        match &mut self.sum {
            Some(sum) => {
                sum.bind(c);
                self.ending.set(c);
            }
            None => self.mu = Some(c),
        }
    }
}

//! The prover of a packed column.

ghost use Rattle.std.specs.Prelude.{◌≡◌, ◌≤◌, ◌<◌, ◌+◌, ◌*◌, ◌^◌, ◌++◌, ℕ, length, get_or, slice_index, IfOk, IsSome, Some};
ghost use Rattle.cube_laws.specs.Sums.{tabulate};
ghost use Rattle.sumcheck.specs.declared.column_claim.ColumnClaim.{ColumnClaim as Claim};
ghost use Rattle.sumcheck.specs.Column.{ColumnHolds};
ghost use Rattle.sumcheck.specs.Machine.{Filling};
ghost use Rattle.eval_reduce.specs.declared.packing.Packing.{Packing as Form};
ghost use Rattle.eval_reduce.specs.Ending.{told_claim, CanTell};
ghost use Rattle.eval_reduce.specs.Pack.{closed, corner_values, packing_of, stated};
ghost use Rattle.eval_reduce.specs.Provers.{FollowsPack, IsNewPacker};
ghost use Rattle.eval_reduce.specs.Virtual.{table_of, IsThere};

use crate::ending::Ending;
use crate::no_memory::NoMemory;
use crate::pack_walk::PackWalk;
use crate::packing::Packing;
use cube_mle::{fold_low, mle_at};
use std::alloc::Global;
use sumcheck::{ColumnClaim, ColumnTables, Honest};
use table_shape::Shape;
use tower_field::B128;

/// Of each `size` values the one of this index.
fn every(alloc: Global, values: &[B128], size: usize, index: usize) -> Result<Vec<B128>, NoMemory>
    requires within { index < size }
    requires small { size ≤ 2 ^ 32 }
    requires blocks { (n : ℕ) × (length values.now ≡ n * size) }
    ensures { IfOk result (λ part. (n : ℕ) → length values.now ≡ n * size → part.items ≡ tabulate n (λ x. get_or values.now (x * size + index) 0)) }
{
    let mut part = Vec::new(alloc);
    let mut p = index;
    while p < values.len() {
        if part.push(values[p]).is_err() {
            return Err(NoMemory);
        }
        p += size;
    }
    Ok(part)
}

/// Appends the extension of a column at each corner of its lowest variables, and then a point.
pub(crate) fn append_corners(
    alloc: Global,
    column: &[B128],
    log: u32,
    point: &[B128],
    out: &mut Vec<B128>,
) -> Result<(), NoMemory>
    requires small { log ≤ 7 }
    requires whole { length column.now ≡ 2 ^ (log + length point.now) }
    ensures { IfOk result (λ _. out.new.items ≡ out.old.items ++ corner_values column.now log point.now) }
{
    let size = 1usize << log;
    for u in 0..size {
        let part = every(alloc, column, size, u)?;
        let value = mle_at(alloc, part.as_slice(), point)?;
        if out.push(value).is_err() {
            return Err(NoMemory);
        }
    }
    Ok(())
}

/// Where one value is left, the claim is told.
fn tell_when_set(ending: &mut Ending, point: &[B128], values: &[B128])
    requires { length values.now ≡ 1 → CanTell ending.old point.now }
    ensures told { length values.now ≡ 1 → ending.new.claim ≡ Some (told_claim ending.old point.now (slice_index values.now 0)) }
    ensures kept { 1 < length values.now → ending.new ≡ ending.old }
{
    if values.len() == 1 {
        ending.tell(point, values[0]);
    }
}

/// The prover of a packed column, who gives the values of its source at the corners and the claim's
/// point, and has at the end the claim on the source with its true value.
#[derive(Drop)]
pub struct PackProver {
    alloc: Global,
    packing: Packing,
    source: Vec<B128>,
    point: Vec<B128>,
    values: Vec<B128>,
    ending: Ending,
}

impl PackProver {
    /// The prover for a packed column on a number of rows, from the list of its source.
    pub fn begin(
        alloc: Global,
        shape: &Shape,
        table: u32,
        column: u32,
        rows: u32,
        tables: &ColumnTables,
    ) -> Result<PackProver, NoMemory>
        requires form { IsSome (packing_of shape.now.tables rows table column) }
        requires there { (f : Form) → packing_of shape.now.tables rows table column ≡ Some f → IsThere tables.now table f.source (2 ^ (f.log + f.vars)) }
        ensures form { IfOk result (λ prover. packing_of shape.now.tables rows table column ≡ Some prover.packing) }
        ensures source { IfOk result (λ prover. prover.source.items ≡ table_of tables.now table prover.packing.source) }
        ensures new { IfOk result IsNewPacker }
    {
        PackProver::of(alloc, Packing::of(shape, table, column, rows), tables)
    }

    /// The prover for a packed column, from the list of its source.
    pub(crate) fn of(
        alloc: Global,
        packing: Packing,
        tables: &ColumnTables,
    ) -> Result<PackProver, NoMemory>
        requires small { packing.level + packing.log ≤ 7 }
        requires there { IsThere tables.now packing.table packing.source (2 ^ (packing.log + packing.vars)) }
        ensures form { IfOk result (λ prover. prover.packing ≡ packing) }
        ensures source { IfOk result (λ prover. prover.source.items ≡ table_of tables.now packing.table packing.source) }
        ensures new { IfOk result IsNewPacker }
    {
        let Some(source) = tables.get(packing.table, packing.source) else {
            unreachable!();
        };
        let vars = packing.log as usize + packing.vars as usize;
        Ok(PackProver {
            alloc,
            packing,
            source: Vec::from_slice(alloc, source)?,
            point: Vec::with_capacity(alloc, packing.vars as usize)?,
            values: Vec::new(alloc),
            ending: Ending::begin(alloc, packing.table, packing.source, vars)?,
        })
    }

    /// Takes the point of the claim. What value is claimed makes no difference.
    pub fn enter(&mut self, claim: &ColumnClaim)
        requires new { IsNewPacker self.old }
        requires long { length claim.now.point ≡ self.old.packing.vars }
        ensures { (F : Filling) (c : Claim) → c.point ≡ claim.now.point → F self.old.packing.table self.old.packing.source ≡ self.old.source.items → length self.old.source.items ≡ 2 ^ (self.old.packing.log + self.old.packing.vars) → FollowsPack self.new F (stated self.old.packing c) }
    {
        if self
            .point
            .extend_from_slice(claim.point.as_slice())
            .is_err()
        {
            unreachable!();
        }
    }

    /// How many claims are left at the end.
    pub fn claim_count(&self) -> u32
        requires { (F : Filling) × (c : Claim) × FollowsPack self.now F (closed c) }
        ensures { result ≡ 1 }
    {
        1
    }

    /// The claim that is left at the end, `i` being 0. It is true, whatever the walk would have refused.
    pub fn claim(&self, i: u32) -> &ColumnClaim
        requires { (F : Filling) × (c : Claim) × (_ : FollowsPack self.now F (closed c)) × (i < 1) }
        ensures claim { (F : Filling) (c : Claim) → FollowsPack self.now F (closed c) → result.now ≡ c }
        ensures holds { (F : Filling) (c : Claim) → FollowsPack self.now F (closed c) → ColumnHolds F result.now }
    {
        self.ending.claim()
    }
}

impl Honest for PackProver {
    type Walk = PackWalk;

    ghost follows = { FollowsPack };

    fn message(&mut self, out: &mut Vec<B128>) -> Result<(), sumcheck::NoMemory> {
        let mut values = Vec::new(self.alloc);
        let Ok(()) = append_corners(
            self.alloc,
            self.source.as_slice(),
            self.packing.log,
            self.point.as_slice(),
            &mut values,
        ) else {
            return Err(sumcheck::NoMemory);
        };
        out.extend_from_slice(values.as_slice())?;
        tell_when_set(&mut self.ending, self.point.as_slice(), values.as_slice());
        self.values = values;
        Ok(())
    }

    fn draw(&mut self, c: B128) {
        self.ending.set(c);
        fold_low(&mut self.values, c);
        tell_when_set(
            &mut self.ending,
            self.point.as_slice(),
            self.values.as_slice(),
        );
    }
}

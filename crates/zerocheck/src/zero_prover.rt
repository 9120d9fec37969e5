//! The prover of a group.

ghost use Rattle.std.specs.Prelude.{◌≡◌, ℕ, ◌≤◌, ◌<◌, ◌^◌, ◌++◌, List, length, is_some, true, slice_get, IfOk, IsSome, Some};
ghost use Rattle.sumcheck.specs.declared.column_claim.ColumnClaim.{ColumnClaim as Claim};
ghost use Rattle.sumcheck.specs.Column.{ColumnHolds};
ghost use Rattle.sumcheck.specs.Machine.{AwaitsSome, Filling};
ghost use Rattle.sumcheck.specs.Rounds.{Rounds};
ghost use Rattle.sumcheck.specs.Summing.{adding, closed, summed_entries, summed_honest, summed_message};
ghost use Rattle.table_shape.specs.Limits.{max_rows};
ghost use Rattle.zerocheck.specs.Given.{given_lists, AreThere};
ghost use Rattle.zerocheck.specs.Group.{Group as Constraints, group_of};
ghost use Rattle.zerocheck.specs.Zero.{columns_of, stated, summed, zero_entries, zero_sum, Zero, Zeroed as Sum};
ghost use Rattle.zerocheck.specs.ZeroProver.{FollowsEnd, FollowsZero, GoesOn, IsNew};

use crate::group::Group;
use crate::no_memory::NoMemory;
use crate::opening::Opening;
use crate::zero_walk::ZeroWalk;
use crate::zeroed::Zeroed;
use std::alloc::Global;
use sumcheck::{ColumnClaim, ColumnTables, Ending, Honest, SumProver};
use table_shape::Shape;
use tower_field::{B128, Values};

/// The prover of a group, who makes the tables of the sum with the first message, and gives at the end
/// the claims on the group's columns with their true values.
#[derive(Drop)]
pub struct ZeroProver {
    alloc: Global,
    opening: Option<Opening>,
    sum: Option<SumProver<Zeroed>>,
    ending: Ending,
}

/// Copies of the lists of columns.
fn copied_lists(
    alloc: Global,
    table: u32,
    columns: &[u32],
    tables: &ColumnTables,
    vars: u32,
) -> Result<Vec<Values>, NoMemory>
    requires { AreThere tables.now table (2 ^ vars) columns.now }
    ensures { IfOk result (λ lists. lists.items ≡ given_lists tables.now table columns.now) }
{
    let mut lists = Vec::new(alloc);
    for column in columns {
        let Some(list) = tables.get(table, *column) else {
            unreachable!();
        };
        let copy = Vec::from_slice(alloc, list)?;
        if lists.push(Values::from_vec(copy)).is_err() {
            return Err(NoMemory);
        }
    }
    Ok(lists)
}

/// A round, or the last message, after which the claims are told.
fn give(
    sum: &mut SumProver<Zeroed>,
    ending: &mut Ending,
    out: &mut Vec<B128>,
) -> Result<(), sumcheck::NoMemory>
    requires { (F : Filling) × (t : Sum) × (r : Rounds) × (_ : GoesOn sum.old ending.old F t r) × AwaitsSome (summed_entries zero_sum (adding t r)) }
    ensures { IfOk result (λ _. (F : Filling) (t : Sum) (r : Rounds) → GoesOn sum.old ending.old F t r → AwaitsSome (summed_entries zero_sum (adding t r)) → (out.new.items ≡ out.old.items ++ summed_honest zero_sum F (adding t r)) × FollowsEnd sum.new ending.new F (summed_message zero_sum (adding t r) (summed_honest zero_sum F (adding t r)))) }
{
    if sum.left() > 0 {
        sum.round(out)?;
        return Ok(());
    }
    let finals = sum.finals();
    let values = &finals[2..];
    out.extend_from_slice(values)?;
    ending.tell(values);
    Ok(())
}

impl ZeroProver {
    /// The prover for a table's constraints of `2 ^ log_values` values per row, of which there has to be
    /// one, on a number of rows, from the lists of the columns that they name.
    pub fn begin(
        alloc: Global,
        shape: &Shape,
        table: u32,
        log_values: u32,
        rows: u32,
        tables: &ColumnTables,
    ) -> Result<ZeroProver, NoMemory>
        requires some { IsSome (group_of shape.now.tables rows table log_values) }
        requires few { rows ≤ max_rows }
        requires there { (g : Constraints) → group_of shape.now.tables rows table log_values ≡ Some g → AreThere tables.now g.table (2 ^ g.vars) g.columns }
        ensures { IfOk result (λ prover. (g : Constraints) → group_of shape.now.tables rows table log_values ≡ Some g → IsNew prover g (given_lists tables.now g.table g.columns)) }
    {
        let group = Group::of(alloc, shape, table, log_values, rows)?;
        ZeroProver::of(alloc, group, tables)
    }

    /// The prover for a group, from the lists of its columns.
    fn of(alloc: Global, group: Group, tables: &ColumnTables) -> Result<ZeroProver, NoMemory>
        requires { AreThere tables.now group.table (2 ^ group.vars) group.columns }
        ensures { IfOk result (λ prover. IsNew prover group (given_lists tables.now group.table group.columns)) }
    {
        let lists = copied_lists(
            alloc,
            group.table,
            group.columns.as_slice(),
            tables,
            group.vars,
        )?;
        let ending = Ending::begin(alloc, group.table, group.columns.as_slice(), group.vars)?;
        Ok(ZeroProver {
            alloc,
            opening: Some(Opening::begin(alloc, group, lists)?),
            sum: None,
            ending,
        })
    }

    /// The claim is stated.
    pub fn enter(&mut self)
        requires { (g : Constraints) × (lists : List (List ℕ)) × IsNew self.old g lists }
        ensures { (F : Filling) (g : Constraints) → IsNew self.old g (columns_of F g) → FollowsZero self.new F (stated g) }
    {
        match &mut self.opening {
            Some(opening) => opening.enter(),
            None => unreachable!(),
        }
    }

    /// How many claims are left at the end.
    pub fn claim_count(&self) -> u32
        requires { (F : Filling) × (claims : List Claim) × FollowsZero self.now F (summed (closed claims)) }
        ensures { (F : Filling) (claims : List Claim) → FollowsZero self.now F (summed (closed claims)) → result ≡ length claims }
    {
        self.ending.claim_count()
    }

    /// A claim that is left at the end, in the order of the columns. It is true, whatever the walk
    /// would have refused.
    pub fn claim(&self, i: u32) -> &ColumnClaim
        requires { (F : Filling) × (claims : List Claim) × (_ : FollowsZero self.now F (summed (closed claims))) × (i < length claims) }
        ensures claim { (F : Filling) (claims : List Claim) → FollowsZero self.now F (summed (closed claims)) → slice_get claims i ≡ Some result.now }
        ensures holds { (F : Filling) (claims : List Claim) → FollowsZero self.now F (summed (closed claims)) → ColumnHolds F result.now }
    {
        self.ending.claim(i)
    }

    /// Makes the tables, where there are none yet.
    fn start(&mut self) -> Result<(), NoMemory>
        requires { (F : Filling) × (s : Zero) × (_ : FollowsZero self.old F s) × AwaitsSome (zero_entries s) }
        ensures started { IfOk result (λ _. is_some self.new.sum ≡ true) }
        ensures follows { IfOk result (λ _. (F : Filling) (s : Zero) → FollowsZero self.old F s → AwaitsSome (zero_entries s) → FollowsZero self.new F s) }
    {
        if self.sum.is_some() {
            return Ok(());
        }
        let Some(opening) = self.opening.take() else {
            unreachable!();
        };
        self.sum = Some(opening.into_sum(self.alloc)?);
        Ok(())
    }
}

impl Honest for ZeroProver {
    type Walk = ZeroWalk;

    ghost follows = { FollowsZero };

    fn message(&mut self, out: &mut Vec<B128>) -> Result<(), sumcheck::NoMemory> {
        if self.start().is_err() {
            return Err(sumcheck::NoMemory);
        }
        match &mut self.sum {
            Some(sum) => give(sum, &mut self.ending, out),
            None => unreachable!(),
        }
    }

    fn draw(&mut self, c: B128) {
        match &mut self.sum {
            Some(sum) => {
                sum.bind(c);
                self.ending.set(c);
            }
            None => match &mut self.opening {
                Some(opening) => opening.draw(c),
                None => unreachable!(),
            },
        }
    }
}

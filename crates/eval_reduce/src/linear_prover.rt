//! The prover of a linear column.

ghost use Rattle.std.specs.Prelude.{◌≡◌, ◌≤◌, ◌+◌, ◌^◌, ◌<◌, ◌++◌, List, map, length, slice_get, IfOk, IsSome, Some};
ghost use Rattle.cube_laws.specs.Extension.{extension};
ghost use Rattle.cube_laws.specs.SumClaim.{AllLong};
ghost use Rattle.sumcheck.specs.declared.column_claim.ColumnClaim.{ColumnClaim as Claim};
ghost use Rattle.sumcheck.specs.Column.{ColumnHolds};
ghost use Rattle.sumcheck.specs.Machine.{AwaitsSome, Filling};
ghost use Rattle.eval_reduce.specs.Linear.{combination_of, linear_step, stated, term_lists, told, Combination as Form, Linear};
ghost use Rattle.eval_reduce.specs.Provers.{given_lists, FollowsLinear, IsNewTeller, TermsAreThere};

use crate::combination::Combination;
use crate::no_memory::NoMemory;
use crate::room::Points;
use cube_mle::mle_at;
use std::alloc::Global;
use sumcheck::{ColumnClaim, ColumnTables};
use table_shape::{Shape, ShapeTerm};
use tower_field::{B128, Values};

/// Copies of the lists of the terms' columns.
fn copied_lists(
    alloc: Global,
    table: u32,
    terms: &[ShapeTerm],
    tables: &ColumnTables,
    vars: u32,
) -> Result<Vec<Values>, NoMemory>
    requires { TermsAreThere tables.now table (2 ^ vars) terms.now }
    ensures { IfOk result (λ lists. lists.items ≡ given_lists tables.now table terms.now) }
{
    let mut lists = Vec::new(alloc);
    for term in terms {
        let Some(list) = tables.get(table, term.column) else {
            unreachable!();
        };
        let copy = Vec::from_slice(alloc, list)?;
        if lists.push(Values::from_vec(copy)).is_err() {
            return Err(NoMemory);
        }
    }
    Ok(lists)
}

/// Appends the extensions of lists at a point.
fn append_extensions(
    alloc: Global,
    lists: &[Values],
    point: &[B128],
    out: &mut Vec<B128>,
) -> Result<(), NoMemory>
    requires { AllLong (2 ^ length point.now) lists.now }
    ensures { IfOk result (λ _. out.new.items ≡ out.old.items ++ map (λ c. extension c point.now) lists.now) }
{
    for list in lists {
        let value = mle_at(alloc, list.as_slice(), point)?;
        if out.push(value).is_err() {
            return Err(NoMemory);
        }
    }
    Ok(())
}

/// The prover of a linear column, who gives the values of the terms' columns at the claim's point, and
/// then has the claims on these columns with their true values.
#[derive(Drop)]
pub struct LinearProver {
    alloc: Global,
    combination: Combination,
    lists: Vec<Values>,
    own: Points,
    points: Points,
    claim: Option<ColumnClaim>,
    claims: Vec<ColumnClaim>,
}

impl LinearProver {
    /// The prover for a linear column on a number of rows, from the lists of the columns of its terms.
    pub fn begin(
        alloc: Global,
        shape: &Shape,
        table: u32,
        column: u32,
        rows: u32,
        tables: &ColumnTables,
    ) -> Result<LinearProver, NoMemory>
        requires form { IsSome (combination_of shape.now.tables rows table column) }
        requires there { (f : Form) → combination_of shape.now.tables rows table column ≡ Some f → TermsAreThere tables.now table (2 ^ f.vars) f.terms }
        ensures form { IfOk result (λ prover. combination_of shape.now.tables rows table column ≡ Some prover.combination) }
        ensures lists { IfOk result (λ prover. prover.lists.items ≡ given_lists tables.now table prover.combination.terms) }
        ensures new { IfOk result IsNewTeller }
    {
        let combination = Combination::of(alloc, shape, table, column, rows)?;
        LinearProver::of(alloc, combination, tables)
    }

    /// The prover for a linear column, from the lists of the columns of its terms.
    pub(crate) fn of(
        alloc: Global,
        combination: Combination,
        tables: &ColumnTables,
    ) -> Result<LinearProver, NoMemory>
        requires few { length combination.terms ≤ 64 }
        requires there { TermsAreThere tables.now combination.table (2 ^ combination.vars) combination.terms }
        ensures form { IfOk result (λ prover. prover.combination ≡ combination) }
        ensures lists { IfOk result (λ prover. prover.lists.items ≡ given_lists tables.now combination.table combination.terms) }
        ensures new { IfOk result IsNewTeller }
    {
        let vars = combination.vars;
        let terms = combination.terms.len();
        let lists = copied_lists(
            alloc,
            combination.table,
            combination.terms.as_slice(),
            tables,
            vars,
        )?;
        Ok(LinearProver {
            alloc,
            combination,
            lists,
            own: Points::begin(alloc, vars, 1)?,
            points: Points::begin(alloc, vars, terms as u32)?,
            claim: None,
            claims: Vec::with_capacity(alloc, terms)?,
        })
    }

    /// Takes the point of the claim. What value is claimed makes no difference.
    pub fn enter(&mut self, claim: &ColumnClaim)
        requires new { IsNewTeller self.old }
        requires long { length claim.now.point ≡ self.old.combination.vars }
        ensures { (F : Filling) (c : Claim) → c.table ≡ self.old.combination.table → c.point ≡ claim.now.point → term_lists F self.old.combination.table self.old.combination.terms ≡ self.old.lists.items → AllLong (2 ^ length claim.now.point) self.old.lists.items → FollowsLinear self.new F (stated self.old.combination c) }
    {
        let mut copy = self.own.copy(claim);
        copy.table = self.combination.table;
        self.claim = Some(copy);
    }

    /// How many claims are left at the end.
    pub fn claim_count(&self) -> u32
        requires { (F : Filling) × (claims : List Claim) × FollowsLinear self.now F (told claims) }
        ensures { (F : Filling) (claims : List Claim) → FollowsLinear self.now F (told claims) → result ≡ length claims }
    {
        self.claims.len() as u32
    }

    /// A claim that is left at the end, in the order of the terms. It is true, whatever the step would
    /// have refused.
    pub fn claim(&self, i: u32) -> &ColumnClaim
        requires { (F : Filling) × (claims : List Claim) × (_ : FollowsLinear self.now F (told claims)) × (i < length claims) }
        ensures claim { (F : Filling) (claims : List Claim) → FollowsLinear self.now F (told claims) → slice_get claims i ≡ Some result.now }
        ensures holds { (F : Filling) (claims : List Claim) → FollowsLinear self.now F (told claims) → ColumnHolds F result.now }
    {
        &self.claims[i as usize]
    }

    /// Appends the true values of the terms' columns.
    pub fn message(&mut self, out: &mut Vec<B128>) -> Result<(), NoMemory>
        requires { (F : Filling) × (s : Linear) × (_ : FollowsLinear self.old F s) × AwaitsSome (linear_step.entries s) }
        ensures values { IfOk result (λ _. (F : Filling) (s : Linear) → FollowsLinear self.old F s → AwaitsSome (linear_step.entries s) → out.new.items ≡ out.old.items ++ linear_step.honest F s) }
        ensures state { IfOk result (λ _. (F : Filling) (s : Linear) → FollowsLinear self.old F s → AwaitsSome (linear_step.entries s) → FollowsLinear self.new F (linear_step.after_message s (linear_step.honest F s))) }
    {
        let Some(claim) = &self.claim else {
            unreachable!();
        };
        let mut values = Vec::new(self.alloc);
        append_extensions(
            self.alloc,
            self.lists.as_slice(),
            claim.point.as_slice(),
            &mut values,
        )?;
        out.extend_from_slice(values.as_slice())?;
        self.combination.tell(claim, values.as_slice(), &mut self.points, &mut self.claims);
        Ok(())
    }
}

//! The step of a linear column.

ghost use Rattle.std.specs.Prelude.{◌≡◌, ◌<◌, ◌≤◌, ◌^◌, List, length, slice_get, IfErr, IfOk, IsSome, MatchResult, None, Some};
ghost use Rattle.sumcheck.specs.Claim.{claim_of};
ghost use Rattle.sumcheck.specs.Machine.{first_entry, AwaitsMessage};
ghost use Rattle.sumcheck.specs.declared.column_claim.ColumnClaim.{ColumnClaim as Claim};
ghost use Rattle.eval_reduce.specs.Linear.{combination_of, linear_step, waiting, told, state_linear, Combination as Form, LinearIsDone, LinearTakes};

use crate::combination::Combination;
use crate::no_memory::NoMemory;
use crate::room::Points;
use poly_forms::CheckKind;
use std::alloc::Global;
use std::marker::Model;
use sumcheck::{ColumnClaim, Entry, Pending, Refused};
use table_shape::Shape;
use tower_field::B128;

/// A claim on a linear column, turned into one for each term. It takes all its memory in `begin`.
#[derive(Drop)]
pub struct LinearStep {
    combination: Combination,
    own: Points,
    points: Points,
    claim: Option<ColumnClaim>,
    claims: Vec<ColumnClaim>,
    told: bool,
}

impl Model for LinearStep {
    ghost use Rattle.std.specs.Prelude.{◌≡◌, ◌≤◌, ◌<◌, ◌^◌, [], false, length, vec_capacity, None};
    ghost use Rattle.eval_reduce.specs.Linear.{Linear, linear_of, ClaimIsShort};

    ghost Value = { Linear };

    ghost view = { λ s. linear_of s.told s.combination s.claim s.claims.items };

    ghost invariant = { λ s. record { few : length s.combination.terms < 2 ^ 30; own_vars : s.own.vars ≡ s.combination.vars; vars : s.points.vars ≡ s.combination.vars; own : s.claim ≡ None → 1 ≤ s.own.count; many : s.told ≡ false → length s.combination.terms ≤ s.points.count; space : s.told ≡ false → length s.combination.terms ≤ vec_capacity s.claims; none : s.told ≡ false → s.claims.items ≡ []; told : length s.claims.items < 2 ^ 30; short : ClaimIsShort s.combination.vars s.claim } };
}

impl LinearStep {
    /// A step for a linear column on a number of rows.
    pub fn begin(
        alloc: Global,
        shape: &Shape,
        table: u32,
        column: u32,
        rows: u32,
    ) -> Result<LinearStep, NoMemory>
        requires { IsSome (combination_of shape.now.tables rows table column) }
        ensures { IfOk result (λ step. (f : Form) → combination_of shape.now.tables rows table column ≡ Some f → step ≡ waiting f) }
    {
        LinearStep::of(alloc, Combination::of(alloc, shape, table, column, rows)?)
    }

    /// A step for a linear column.
    pub(crate) fn of(alloc: Global, combination: Combination) -> Result<LinearStep, NoMemory>
        requires { length combination.terms ≤ 64 }
        ensures { IfOk result (λ step. step ≡ waiting combination) }
    {
        let vars = combination.vars;
        let terms = combination.terms.len();
        Ok(LinearStep {
            combination,
            own: Points::begin(alloc, vars, 1)?,
            points: Points::begin(alloc, vars, terms as u32)?,
            claim: None,
            claims: Vec::with_capacity(alloc, terms)?,
            told: false,
        })
    }

    /// States the claim.
    pub fn enter(&mut self, claim: &ColumnClaim)
        requires { LinearTakes claim.now self.old }
        ensures { self.new ≡ state_linear claim.now self.old }
    {
        let copy = self.own.copy(claim);
        self.claim = Some(copy);
    }

    /// States a claim in its own memory.
    pub fn enter_owned(&mut self, claim: ColumnClaim)
        requires { LinearTakes claim self.old }
        ensures { self.new ≡ state_linear claim self.old }
    {
        self.claim = Some(claim);
    }

    /// The table of the column that the step is of, and the column's number in it.
    pub fn column(&self) -> (u32, u32)
        ensures { (f : Form) → self.now ≡ waiting f → (result.0 ≡ f.table) × (result.1 ≡ f.column) }
    {
        (self.combination.table, self.combination.column)
    }

    /// How many claims are left at the end.
    pub fn claim_count(&self) -> u32
        requires { LinearIsDone self.now }
        ensures { result ≡ length (linear_step.pending self.now) }
    {
        self.claims.len() as u32
    }

    /// A claim that is left at the end, in the order of the terms.
    pub fn claim(&self, i: u32) -> &ColumnClaim
        requires done { LinearIsDone self.now }
        requires within { i < length (linear_step.pending self.now) }
        ensures { (cs : List Claim) → self.now ≡ told cs → slice_get cs i ≡ Some result.now }
    {
        &self.claims[i as usize]
    }

    /// The claims that are left at the end, in their memory.
    pub fn leave(self) -> Vec<ColumnClaim>
        requires { LinearIsDone self }
        ensures { self ≡ told result.items }
    {
        let LinearStep {
            combination: _,
            own: _,
            points: _,
            claim: _,
            claims,
            told: _,
        } = self;
        claims
    }

    /// The message that is due.
    pub fn due(&self) -> Option<Entry>
        ensures { result ≡ first_entry (linear_step.entries self.now) }
    {
        if self.told || self.claim.is_none() {
            return None;
        }
        Some(Entry::Message {
            check: CheckKind::Linear,
            length: self.combination.terms.len() as u32,
        })
    }

    /// Takes the values of the terms' columns. A refused message leaves the step as it was.
    pub fn message(&mut self, values: &[B128]) -> Result<(), Refused>
        requires { AwaitsMessage (length values.now) (linear_step.entries self.old) }
        ensures answer { MatchResult result (λ _. linear_step.refusal self.old values.now ≡ None) (λ e. linear_step.refusal self.old values.now ≡ Some e) }
        ensures state { IfOk result (λ _. self.new ≡ linear_step.after_message self.old values.now) }
        ensures kept { IfErr result (λ _. self.new ≡ self.old) }
    {
        let Some(claim) = &self.claim else {
            unreachable!();
        };
        let left = self.combination.value(values);
        let right = claim.value;
        if left != right {
            return Err(Refused {
                check: CheckKind::Linear,
                left,
                right,
            });
        }
        self.combination
            .tell(claim, values, &mut self.points, &mut self.claims);
        self.told = true;
        Ok(())
    }

    /// How many claims are pending.
    pub fn pending_count(&self) -> u32
        ensures count { result ≡ length (linear_step.pending self.now) }
        ensures few { result ≤ 2 ^ 30 }
    {
        if self.told {
            return self.claims.len() as u32;
        }
        if self.claim.is_some() { 1 } else { 0 }
    }

    /// A claim that is pending.
    pub fn pending(&self, i: u32) -> Pending<'_>
        requires { i < length (linear_step.pending self.now) }
        ensures { slice_get (linear_step.pending self.now) i ≡ Some (claim_of result) }
    {
        if self.told {
            return Pending::Column {
                claim: &self.claims[i as usize],
            };
        }
        match &self.claim {
            Some(claim) => Pending::Column { claim },
            None => unreachable!(),
        }
    }
}

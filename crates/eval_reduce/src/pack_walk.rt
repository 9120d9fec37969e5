//! The walk of a packed column.

ghost use Rattle.std.specs.Prelude.{◌≡◌, ◌+◌, ◌<◌, ◌≤◌, ◌++◌, length, vec_capacity, IfOk, IsSome, Some};
ghost use Rattle.eval_reduce.specs.declared.packing.Packing.{Packing as Form};
ghost use Rattle.eval_reduce.specs.Pack.{pack, packing_of, waiting, closed, state_pack, PackIsDone, PackTakes};

use crate::no_memory::NoMemory;
use crate::packing::Packing;
use crate::room::Points;
use cube_mle::fold_low;
use poly_forms::{CheckKind, DrawKind};
use std::alloc::Global;
use std::marker::Model;
use sumcheck::{ColumnClaim, Entry, Pending, Refused, Steps};
use table_shape::Shape;
use tower_field::{B128, Values};

/// The claim on the source: at the draws, and then the point.
fn source_claim(packing: &Packing, draws: Vec<B128>, point: &[B128], value: B128) -> ColumnClaim
    requires { length draws.items + length point.now ≤ vec_capacity draws }
    ensures { result ≡ record { table = packing.now.table; column = packing.now.source; point = draws.items ++ point.now; value = value } }
{
    let mut at = draws;
    if at.extend_from_slice(point).is_err() {
        unreachable!();
    }
    ColumnClaim {
        table: packing.table,
        column: packing.source,
        point: Values::from_vec(at),
        value,
    }
}

/// A claim on a packed column, turned into a list of values of its source, and by draws into a claim on
/// the source. It takes all its memory in `begin`.
#[derive(Drop)]
pub struct PackWalk {
    alloc: Global,
    packing: Packing,
    own: Points,
    claim: Option<ColumnClaim>,
    listed: bool,
    draws: Vec<B128>,
    values: Vec<B128>,
    left: u32,
    closed: Option<ColumnClaim>,
}

impl Model for PackWalk {
    ghost use Rattle.std.specs.Prelude.{◌≡◌, ◌≤◌, ◌+◌, ◌^◌, [], false, length, vec_capacity, None};
    ghost use Rattle.eval_reduce.specs.Linear.{ClaimIsShort};
    ghost use Rattle.eval_reduce.specs.Pack.{Pack, pack_of, PackStage};

    ghost Value = { Pack };

    ghost view = { λ w. pack_of w.packing w.claim w.listed w.draws.items w.values.items w.left w.closed };

    ghost invariant = { λ w. record { small : w.packing.level + w.packing.log ≤ 7; own_vars : w.own.vars ≡ w.packing.vars; own : w.claim ≡ None → 1 ≤ w.own.count; short : ClaimIsShort w.packing.vars w.claim; room : w.closed ≡ None → w.packing.log + w.packing.vars ≤ vec_capacity w.draws; wide : w.listed ≡ false → 2 ^ w.packing.log ≤ vec_capacity w.values; stage : PackStage w.packing w.claim w.listed w.draws.items w.values.items w.left w.closed } };
}

impl PackWalk {
    /// A walk for a packed column on a number of rows.
    pub fn begin(
        alloc: Global,
        shape: &Shape,
        table: u32,
        column: u32,
        rows: u32,
    ) -> Result<PackWalk, NoMemory>
        requires { IsSome (packing_of shape.now.tables rows table column) }
        ensures { IfOk result (λ walk. (f : Form) → packing_of shape.now.tables rows table column ≡ Some f → walk ≡ waiting f) }
    {
        PackWalk::of(alloc, Packing::of(shape, table, column, rows))
    }

    /// A walk for a packed column.
    pub(crate) fn of(alloc: Global, packing: Packing) -> Result<PackWalk, NoMemory>
        requires { packing.level + packing.log ≤ 7 }
        ensures { IfOk result (λ walk. walk ≡ waiting packing) }
    {
        Ok(PackWalk {
            alloc,
            packing,
            own: Points::begin(alloc, packing.vars, 1)?,
            claim: None,
            listed: false,
            draws: Vec::with_capacity(alloc, packing.log as usize + packing.vars as usize)?,
            values: Vec::with_capacity(alloc, 1usize << packing.log)?,
            left: 0,
            closed: None,
        })
    }

    /// States the claim.
    pub fn enter(&mut self, claim: &ColumnClaim)
        requires { PackTakes claim.now self.old }
        ensures { self.new ≡ state_pack claim.now self.old }
    {
        let copy = self.own.copy(claim);
        self.claim = Some(copy);
    }

    /// States a claim in its own memory.
    pub fn enter_owned(&mut self, claim: ColumnClaim)
        requires { PackTakes claim self.old }
        ensures { self.new ≡ state_pack claim self.old }
    {
        self.claim = Some(claim);
    }

    /// The table of the column that the walk is of, and the column's number in it.
    pub fn column(&self) -> (u32, u32)
        ensures { (f : Form) → self.now ≡ waiting f → (result.0 ≡ f.table) × (result.1 ≡ f.column) }
    {
        (self.packing.table, self.packing.column)
    }

    /// How many claims are left at the end.
    pub fn claim_count(&self) -> u32
        requires { PackIsDone self.now }
        ensures { result ≡ length (pack.pending self.now) }
    {
        1
    }

    /// The claim that is left at the end, `i` being 0.
    pub fn claim(&self, i: u32) -> &ColumnClaim
        requires done { PackIsDone self.now }
        requires first { i < 1 }
        ensures { self.now ≡ closed result.now }
    {
        match &self.closed {
            Some(claim) => claim,
            None => unreachable!(),
        }
    }

    /// The claim that is left at the end, in its memory.
    pub fn leave(self) -> ColumnClaim
        requires { PackIsDone self }
        ensures { self ≡ closed result }
    {
        let PackWalk {
            alloc: _,
            packing: _,
            own: _,
            claim: _,
            listed: _,
            draws: _,
            values: _,
            left: _,
            closed,
        } = self;
        match closed {
            Some(claim) => claim,
            None => unreachable!(),
        }
    }
}

impl Steps for PackWalk {
    ghost machine = { pack };

    fn is_lawful() {}

    fn due(&self) -> Option<Entry> {
        if self.closed.is_some() || self.claim.is_none() {
            return None;
        }
        if self.listed {
            return Some(Entry::Draw {
                kind: DrawKind::PackCoordinate,
                count: 1,
            });
        }
        Some(Entry::Message {
            check: CheckKind::Pack,
            length: 1 << self.packing.log,
        })
    }

    fn message(&mut self, values: &[B128]) -> Result<(), Refused> {
        let Some(claim) = &self.claim else {
            unreachable!();
        };
        let left = self.packing.value(values);
        let right = claim.value;
        if left != right {
            return Err(Refused {
                check: CheckKind::Pack,
                left,
                right,
            });
        }
        if self.packing.log == 0 {
            let draws = std::mem::replace(&mut self.draws, Vec::new(self.alloc));
            let closed = source_claim(&self.packing, draws, claim.point.as_slice(), values[0]);
            self.closed = Some(closed);
            return Ok(());
        }
        if self.values.extend_from_slice(values).is_err() {
            unreachable!();
        }
        self.left = self.packing.log - 1;
        self.listed = true;
        Ok(())
    }

    fn draw(&mut self, c: B128) {
        let Some(claim) = &self.claim else {
            unreachable!();
        };
        if self.draws.push(c).is_err() {
            unreachable!();
        }
        fold_low(&mut self.values, c);
        if self.left > 0 {
            self.left -= 1;
            return;
        }
        let draws = std::mem::replace(&mut self.draws, Vec::new(self.alloc));
        let closed = source_claim(&self.packing, draws, claim.point.as_slice(), self.values[0]);
        self.closed = Some(closed);
    }

    fn round_claim(&self) -> Option<B128> {
        None
    }

    fn pending_count(&self) -> u32 {
        if self.claim.is_some() { 1 } else { 0 }
    }

    fn pending(&self, i: u32) -> Pending<'_> {
        if let Some(claim) = &self.closed {
            return Pending::Column { claim };
        }
        let Some(claim) = &self.claim else {
            unreachable!();
        };
        if self.listed {
            return Pending::ColumnList {
                table: self.packing.table,
                column: self.packing.source,
                point: claim.point.as_slice(),
                prefix: self.draws.as_slice(),
                values: self.values.as_slice(),
            };
        }
        Pending::Column { claim }
    }
}

//! A store, lowered.

ghost use Rattle.std.specs.Prelude.{◌≡◌, ℕ, ◌+◌, ◌*◌, ◌^◌, ◌<◌, ◌-◌, IfOk, IsSome, Some, length, slice_index};
ghost use Rattle.table_shape.specs.declared.shape.FlushShape.{FlushShape as Flush};
ghost use Rattle.table_shape.specs.Filling.{values_of};
ghost use Rattle.table_shape.specs.Lowering.{leaf_at, step};
ghost use Rattle.shift_laws.specs.Shifts.{flag};
ghost use Rattle.table_shape.specs.Oracle.{bit_table, packed_table};
ghost use Rattle.table_shape.specs.Placement.{blocks, places_log};
ghost use Rattle.column_store.specs.Draft.{IsPlace, position_of};
ghost use Rattle.m3_judge.specs.Sources.{flush_at};

use crate::bits::{bit_at, word_at};
use crate::leaf::{element, leaf_at, step_at};
use bit_claim::{Placement, place};
use column_store::Store;
use std::alloc::Global;
use std::marker::Model;
use table_shape::{NoMemory, SizeStop};
use tower_field::B128;

/// A store beside what lowering adds to it: the step of each table, leaves, and the bits of its
/// committed columns in one table. Contracts see the store.
#[derive(Drop)]
pub struct Lowered<'a> {
    store: &'a Store,
    placement: Placement,
}

impl<'a> Model for Lowered<'a> {
    ghost use Rattle.column_store.specs.Draft.{Stored};
    ghost use Rattle.std.specs.Coded.{codes};
    ghost use Rattle.table_shape.specs.contracts.shape.ShapeExpr as expr;

    ghost Value = { Stored };

    ghost coded = { Prim.hlevel (codes, expr.the_row.coded) };

    ghost use Rattle.std.specs.Prelude.{◌≡◌};
    ghost use Rattle.table_shape.specs.Placement.{blocks};

    ghost view = { λ l. l.store.now };

    ghost invariant = { λ l. l.placement ≡ blocks l.store.now.shape.tables l.store.now.rows };
}

/// The values of a store, lowered.
pub fn lower<'a>(alloc: Global, store: &'a Store) -> Result<Lowered<'a>, NoMemory>
    ensures { IfOk result (λ lowered. lowered ≡ store.now) }
{
    match place(alloc, store.shape(), store.rows()) {
        Ok(placement) => Ok(Lowered { store, placement }),
        Err(SizeStop::NoMemory) => Err(NoMemory),
        Err(SizeStop::TooLarge { .. }) => unreachable!(),
    }
}

impl<'a> Lowered<'a> {
    /// The store that was lowered.
    pub fn store(&self) -> &Store
        ensures { result.now ≡ self.now }
    {
        self.store
    }

    /// Where the bits of the committed columns stand.
    pub fn placement(&self) -> &Placement
        ensures { result.now ≡ blocks self.now.shape.tables self.now.rows }
    {
        &self.placement
    }

    /// The value of a column at a row, filled up, and an index.
    pub fn value(&self, table: u32, column: u32, row: u32, index: u32) -> B128
        requires { IsPlace self.now.shape.tables self.now.rows table column row index }
        ensures { result ≡ slice_index (values_of self.now.filling table column) (position_of self.now.shape.tables table column row index) }
    {
        self.store.value(table, column, row, index)
    }

    /// 1 at each row of a table, and 0 at those that fill it up.
    pub fn step(&self, table: u32, row: u32) -> B128
        requires { table < length self.now.shape.tables }
        ensures { result ≡ step (slice_index self.now.rows table) row }
    {
        step_at(self.store.rows()[table as usize], row)
    }

    /// The leaf of a flush of a table at a row, filled up.
    pub fn leaf(&self, table: u32, flush: u32, row: u32, alpha: B128, gamma: B128) -> B128
        requires { IsSome (flush_at self.now.shape.tables table flush) }
        ensures { (own : Flush) → flush_at self.now.shape.tables table flush ≡ Some own
            → result ≡ leaf_at alpha gamma (values_of self.now.filling table) (slice_index self.now.rows table) own row }
    {
        let rows = self.store.rows()[table as usize];
        let own = &self.store.shape().tables()[table as usize];
        let flush = &own.flushes.as_slice()[flush as usize];
        leaf_at(self.store.columns(table), rows, flush, row, alpha, gamma)
    }

    /// The bit at a place of the table of bits.
    pub fn bit(&self, place: u64) -> bool
        requires { place < 2 ^ places_log (blocks self.now.shape.tables self.now.rows) }
        ensures { flag result ≡ slice_index (bit_table self.now.shape.tables self.now.rows self.now.filling) place }
    {
        bit_at(self.store, &self.placement, place)
    }

    /// The number of the 128 bits of a word of the packed table.
    pub fn packed(&self, place: u64) -> B128
        requires { place < 2 ^ (places_log (blocks self.now.shape.tables self.now.rows) - 7) }
        ensures { result ≡ slice_index (packed_table self.now.shape.tables self.now.rows self.now.filling) place }
    {
        element(word_at(self.store, &self.placement, place))
    }
}

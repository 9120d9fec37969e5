//! The claims that wait while the reductions of a proof go on.

ghost use Rattle.std.specs.Prelude.{◌≡◌, ◌+◌, ◌<◌, ◌≤◌, ◌^◌, ◌++◌, ◌∷◌, [], length, slice_get, vec_capacity, IfOk, IsSome, Some};
ghost use Rattle.claim_lists.specs.ByColumn.{by_column};
ghost use Rattle.claim_lists.specs.OnColumn.{but_first_on, first_on, off_column, on_column};
ghost use Rattle.sumcheck.specs.Claim.{claim_of};
ghost use Rattle.bit_claim.specs.Batching as batch;
ghost use Rattle.eval_reduce.specs.Merge as merge;
ghost use Rattle.m3_walk.specs.Kept as kept;
ghost use Rattle.m3_walk.specs.Kept.{kept_claims, max_room, none_wait};
ghost use Rattle.m3_walk.specs.Linking.{but_first, products_with};
ghost use Rattle.m3_walk.specs.Taking.{BatchTakes, MergeTakes};

use crate::no_memory::NoMemory;
use crate::packed::Packed;
use crate::product::Product;
use bit_claim::{BitValue, BitWalk};
use channel_products::ToldProducts;
use claim_lists::{move_all, order_into, take_first};
use eval_reduce::MergeWalk;
use std::alloc::Global;
use std::marker::Model;
use sumcheck::{ColumnClaim, Pending};

/// The claims that wait: those on the products of flushes to come, those on columns, and those on
/// the table of bits and on the packed table. All its memory is taken in `begin`.
#[derive(Drop)]
pub struct Kept {
    room: u32,
    products: Vec<Product>,
    columns: Vec<ColumnClaim>,
    taken: Vec<ColumnClaim>,
    bits: Option<BitValue>,
    packed: Option<Packed>,
}

impl Model for Kept {
    ghost use Rattle.std.specs.Prelude.{◌≡◌, ◌≤◌, [], length, option_to_list, vec_capacity};
    ghost use Rattle.m3_walk.specs.Kept.{Kept, max_room};

    ghost Value = { Kept };

    ghost view = { λ k. record { products = k.products.items; columns = k.columns.items; bits = option_to_list k.bits; packed = option_to_list k.packed; room = k.room } };

    ghost invariant = { λ k. record { small : k.room ≤ max_room; few_products : length k.products.items ≤ k.room; few_columns : length k.columns.items ≤ k.room; products : k.room ≤ vec_capacity k.products; columns : k.room ≤ vec_capacity k.columns; taken : k.room ≤ vec_capacity k.taken; none : k.taken.items ≡ [] } };
}

impl Kept {
    /// Nothing waits. There is memory for so many claims on columns, and for so many products.
    pub fn begin(alloc: Global, room: u32) -> Result<Kept, NoMemory>
        requires { room ≤ max_room }
        ensures { IfOk result (λ kept. kept ≡ none_wait room) }
    {
        Ok(Kept {
            room,
            products: Vec::with_capacity(alloc, room as usize)?,
            columns: Vec::with_capacity(alloc, room as usize)?,
            taken: Vec::with_capacity(alloc, room as usize)?,
            bits: None,
            packed: None,
        })
    }

    /// The products of flushes now wait.
    pub(crate) fn add_products(&mut self, told: ToldProducts)
        requires few { length told.values.items ≤ length told.flushes }
        requires room { length self.old.products + length told.values.items ≤ self.old.room }
        ensures { self.new ≡ record self.old { products = self.old.products ++ products_with told.alpha told.gamma told.flushes told.values.items } }
    {
        push_products(told, &mut self.products);
    }

    /// Takes the product that has waited the longest.
    pub(crate) fn take_product(&mut self) -> Product
        requires { 0 < length self.old.products }
        ensures product { self.old.products ≡ result ∷ self.new.products }
        ensures others { self.new ≡ record self.old { products = but_first self.old.products } }
    {
        self.products.remove(0)
    }

    /// Claims on columns now wait.
    pub(crate) fn add_claims(&mut self, claims: Vec<ColumnClaim>)
        requires { length self.old.columns + length claims.items ≤ self.old.room }
        ensures { self.new ≡ record self.old { columns = self.old.columns ++ claims.items } }
    {
        let mut claims = claims;
        if self.columns.append(&mut claims).is_err() {
            unreachable!();
        }
    }

    /// A claim on a column now waits.
    pub(crate) fn add_claim(&mut self, claim: ColumnClaim)
        requires { length self.old.columns + 1 ≤ self.old.room }
        ensures { self.new ≡ record self.old { columns = self.old.columns ++ claim ∷ [] } }
    {
        if self.columns.push(claim).is_err() {
            unreachable!();
        }
    }

    /// Takes the first claim on a column.
    pub(crate) fn take_claim(&mut self, table: u32, column: u32) -> ColumnClaim
        requires { IsSome (first_on table column self.old.columns) }
        ensures claim { first_on table column self.old.columns ≡ Some result }
        ensures others { self.new ≡ record self.old { columns = but_first_on table column self.old.columns } }
    {
        match take_first(&mut self.columns, table, column) {
            Some(claim) => claim,
            None => unreachable!(),
        }
    }

    /// States all claims on a column as those of a merge.
    pub(crate) fn merge(&mut self, table: u32, column: u32, walk: &mut MergeWalk)
        requires { MergeTakes table column (on_column table column self.old.columns) walk.old }
        ensures walk { walk.new ≡ merge.state_claims table column (on_column table column self.old.columns) walk.old }
        ensures others { self.new ≡ record self.old { columns = off_column table column self.old.columns } }
    {
        move_all(&mut self.columns, table, column, &mut self.taken);
        walk.enter(self.taken.as_slice());
        self.taken.clear();
    }

    /// States all claims on columns, in the order of the columns, as those of a batch.
    pub(crate) fn batch(&mut self, walk: &mut BitWalk)
        requires { BatchTakes self.old.columns walk.old }
        ensures walk { walk.new ≡ batch.state_claims (by_column self.old.columns) walk.old }
        ensures none { self.new ≡ record self.old { columns = [] } }
    {
        order_into(&mut self.columns, &mut self.taken);
        walk.enter(self.taken.as_slice());
        self.taken.clear();
    }

    /// The claim on the table of bits now waits.
    pub(crate) fn add_bits(&mut self, claim: BitValue)
        requires { self.old.bits ≡ [] }
        ensures { self.new ≡ record self.old { bits = claim ∷ [] } }
    {
        self.bits = Some(claim);
    }

    /// Takes the claim on the table of bits.
    pub(crate) fn take_bits(&mut self) -> BitValue
        requires { 0 < length self.old.bits }
        ensures claim { self.old.bits ≡ result ∷ [] }
        ensures others { self.new ≡ record self.old { bits = [] } }
    {
        match self.bits.take() {
            Some(claim) => claim,
            None => unreachable!(),
        }
    }

    /// The claim on the packed table now waits.
    pub(crate) fn add_packed(&mut self, claim: Packed)
        requires { self.old.packed ≡ [] }
        ensures { self.new ≡ record self.old { packed = claim ∷ [] } }
    {
        self.packed = Some(claim);
    }

    /// How many claims wait.
    pub fn count(&self) -> u32
        ensures count { result ≡ length (kept_claims self.now) }
        ensures few { result ≤ 2 ^ 30 }
    {
        let bits = if self.bits.is_some() { 1 } else { 0 };
        let packed = if self.packed.is_some() { 1 } else { 0 };
        self.products.len() as u32 + self.columns.len() as u32 + bits + packed
    }

    /// A claim that waits.
    pub fn pending(&self, i: u32) -> Pending<'_>
        requires { i < length (kept_claims self.now) }
        ensures { slice_get (kept_claims self.now) i ≡ Some (claim_of result) }
    {
        let products = self.products.len();
        let columns = self.columns.len();
        let i = i as usize;
        if i < products {
            return product_claim(&self.products[i]);
        }
        if i < products + columns {
            return Pending::Column {
                claim: &self.columns[i - products],
            };
        }
        if i == products + columns
            && let Some(claim) = &self.bits
        {
            return Pending::Bit {
                point: claim.point.as_slice(),
                value: claim.value,
            };
        }
        match &self.packed {
            Some(claim) => Pending::Packed {
                point: claim.point.as_slice(),
                value: claim.value,
            },
            None => unreachable!(),
        }
    }
}

/// Appends the products of flushes.
fn push_products(told: ToldProducts, products: &mut Vec<Product>)
    requires few { length told.values.items ≤ length told.flushes }
    requires room { length products.old.items + length told.values.items ≤ vec_capacity products.old }
    ensures items { products.new.items ≡ products.old.items ++ products_with told.alpha told.gamma told.flushes told.values.items }
    ensures capacity { vec_capacity products.old ≤ vec_capacity products.new }
{
    let ToldProducts {
        mut flushes,
        alpha,
        gamma,
        values,
    } = told;
    for i in 0..values.len() {
        let product = Product {
            flushed: flushes.remove(0),
            alpha,
            gamma,
            value: values[i],
        };
        if products.push(product).is_err() {
            unreachable!();
        }
    }
}

/// The claim on the product of a flush.
fn product_claim(product: &Product) -> Pending<'_>
    ensures { claim_of result ≡ kept.product_claim product.now }
{
    Pending::FlushProduct {
        table: product.flushed.table,
        flush: product.flushed.number,
        alpha: product.alpha,
        gamma: product.gamma,
        value: product.value,
    }
}

//! The products of all channels, and whether the lowered statement holds.

ghost use Rattle.std.specs.Prelude.{◌≡◌, ◌↔◌, ℕ, ◌<◌, IsTrue, IfOk, length, slice_get, Some};
ghost use Rattle.table_shape.specs.Lowering.{LoweredHolds};
ghost use Rattle.table_shape.specs.Satisfies.{AreAllZero, Satisfies};
ghost use Rattle.oracle_lowering.specs.Products.{AreEqual, ArePairs};

use crate::lowered::Lowered;
use crate::side::side_product;
use column_store::Store;
use m3_judge::first_nonzero;
use sqlite_items::Items;
use std::alloc::{AllocError, Global};
use table_shape::NoMemory;
use table_text::Side;
use tower_field::B128;

/// The products of the two sides of a channel.
#[derive(Clone, Copy, Debug, PartialEq, Eq)]
pub struct Pair {
    pub push: B128,
    pub pull: B128,
}

pub type Pairs = Items<Pair>;

/// The products of each channel, and whether the lowered statement holds: whether the two products
/// of each channel are equal, and each constraint is 0.
#[derive(Debug, Drop)]
pub struct Products {
    pub pairs: Pairs,
    pub holds: bool,
}

/// The products at alpha and gamma.
pub fn products_at(
    alloc: Global,
    lowered: &Lowered,
    alpha: B128,
    gamma: B128,
) -> Result<Products, NoMemory>
    ensures pairs { IfOk result (λ products. ArePairs lowered.now.shape lowered.now.rows lowered.now.filling alpha gamma products.pairs) }
    ensures holds { IfOk result (λ products. IsTrue products.holds ↔ LoweredHolds lowered.now.shape lowered.now.rows lowered.now.filling alpha gamma) }
    ensures satisfied { IfOk result (λ products. Satisfies lowered.now.shape lowered.now.rows lowered.now.filling → IsTrue products.holds) }
{
    let store = lowered.store();
    follows_from_the_tables(store, alpha, gamma);
    let pairs = pairs_at(alloc, store, alpha, gamma)?;
    let zero = are_zero(store);
    let equal = are_equal(pairs.as_slice());
    let holds = zero && equal;
    Ok(Products { pairs, holds })
}

/// The values of a store satisfy the lowered statement where they satisfy its tables.
fn follows_from_the_tables(store: &Store, alpha: B128, gamma: B128)
    ensures { Satisfies store.now.shape store.now.rows store.now.filling → LoweredHolds store.now.shape store.now.rows store.now.filling alpha gamma }
{
    let _rows = store.rows();
    let _tables = store.shape().tables();
}

/// Whether each constraint is 0 on the rows of its table.
fn are_zero(store: &Store) -> bool
    ensures { IsTrue result ↔ AreAllZero store.now.shape.tables store.now.rows store.now.filling }
{
    match first_nonzero(store) {
        Some(_) => false,
        None => true,
    }
}

/// The products of each channel.
fn pairs_at(alloc: Global, store: &Store, alpha: B128, gamma: B128) -> Result<Pairs, AllocError>
    ensures { IfOk result (ArePairs store.now.shape store.now.rows store.now.filling alpha gamma) }
{
    let mut pairs = Items::new(alloc);
    for channel in 0..store.shape().channels().len() as u32 {
        pairs.push(Pair {
            push: side_product(store, Side::Push, channel, alpha, gamma),
            pull: side_product(store, Side::Pull, channel, alpha, gamma),
        })?;
    }
    Ok(pairs)
}

/// Whether the products of each pair are equal.
fn are_equal(pairs: &[Pair]) -> bool
    ensures { IsTrue result ↔ AreEqual pairs.now }
{
    for pair in pairs {
        if pair.push != pair.pull {
            return false;
        }
    }
    true
}

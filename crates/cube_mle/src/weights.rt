//! The table of eq of a point.

ghost use Rattle.std.specs.Prelude.{◌≡◌, ◌++◌, ◌∷◌, ◌^◌, ◌<◌, [], length, map, slice_index, slice_set, bit_xor, IfOk};
ghost use Rattle.tower_laws.specs.Tower.{mul};
ghost use Rattle.cube_laws.specs.Sums.{tabulate};
ghost use Rattle.cube_laws.specs.Extension.{eq};

use crate::no_memory::NoMemory;
use packed_words::Multiples;
use std::alloc::Global;
use tower_field::{B128, Tower};

/// From as many products with one element on, a table of its multiples is quicker.
const MANY: usize = 512;

/// Takes the product with x off a value, and puts it at the end.
#[inline]
fn put_apart(table: &mut Vec<B128>, i: usize, high: B128) -> Result<(), NoMemory>
    requires { i < length table.old.items }
    ensures { IfOk result (λ _. table.new.items ≡ slice_set table.old.items i (bit_xor (slice_index table.old.items i) high) ++ high ∷ []) }
{
    table[i] = table[i] + high;
    if table.push(high).is_err() {
        return Err(NoMemory);
    }
    Ok(())
}

/// Each value times 1 + x, and after these each value times x, product by product.
fn double_few(table: &mut Vec<B128>, x: B128) -> Result<(), NoMemory>
    ensures { IfOk result (λ _. table.new.items ≡ map (λ t. mul t (bit_xor 1 x)) table.old.items ++ map (λ t. mul t x) table.old.items) }
{
    for i in 0..table.len() {
        let high = table[i] * x;
        put_apart(table, i, high)?;
    }
    Ok(())
}

/// The same by a table of the multiples of x.
fn double_many(table: &mut Vec<B128>, x: &Multiples) -> Result<(), NoMemory>
    ensures { IfOk result (λ _. table.new.items ≡ map (λ t. mul t (bit_xor 1 x.now)) table.old.items ++ map (λ t. mul t x.now) table.old.items) }
{
    for i in 0..table.len() {
        let high = x.times(table[i]);
        put_apart(table, i, high)?;
    }
    Ok(())
}

/// Each value times 1 + x, and after these each value times x.
fn double(alloc: Global, table: &mut Vec<B128>, x: B128) -> Result<(), NoMemory>
    ensures { IfOk result (λ _. table.new.items ≡ map (λ t. mul t (bit_xor 1 x)) table.old.items ++ map (λ t. mul t x) table.old.items) }
{
    if table.len() < MANY {
        return double_few(table, x);
    }
    match Multiples::new(alloc, x) {
        Ok(multiples) => double_many(table, &multiples),
        Err(_) => Err(NoMemory),
    }
}

/// eq of a point and each corner, by doubling: the table of `2 ^ point.len()` values whose extension
/// at any point is eq of both.
pub fn eq_table(alloc: Global, point: &[B128]) -> Result<Vec<B128>, NoMemory>
    ensures { IfOk result (λ table. table.items ≡ tabulate (2 ^ length point.now) (eq point.now)) }
{
    let mut table = Vec::new(alloc);
    if table.push(B128::ONE).is_err() {
        return Err(NoMemory);
    }
    for x in point {
        double(alloc, &mut table, *x)?;
    }
    Ok(table)
}

//! Tables of elements, and what is added to their cells.

ghost use Rattle.std.specs.Prelude.{◌≡◌, ℕ, ◌+◌, ◌*◌, ◌/◌, ◌%◌, ◌^◌, ◌<◌, ◌≤◌, bit_xor, length, map, slice_index, IfOk};
ghost use Rattle.tower_laws.specs.Tower.{mul};
ghost use Rattle.batch_laws.specs.Batch.{zeros};

use crate::no_memory::NoMemory;
use std::alloc::Global;
use tower_field::{B128, Tower};

/// So many zeros.
pub fn zero_table(alloc: Global, size: usize) -> Result<Vec<B128>, NoMemory>
    ensures { IfOk result (λ cells. cells.items ≡ zeros size) }
{
    let mut cells = Vec::with_capacity(alloc, size)?;
    for _ in 0..size {
        if cells.push(B128::ZERO).is_err() {
            return Err(NoMemory);
        }
    }
    Ok(cells)
}

/// Each value times a factor.
pub fn scale(values: &mut Vec<B128>, factor: B128)
    ensures { values.new.items ≡ map (mul factor) values.old.items }
{
    for i in 0..values.len() {
        values[i] = factor * values[i];
    }
}

/// Adds to the cells from the first on the products of each weight with 2 ^ 0, 2 ^ 1, .., one for each
/// bit of a value.
pub fn add_values(cells: &mut Vec<B128>, first: usize, level: u32, weights: &[B128])
    requires low { level ≤ 7 }
    requires within { first + length weights.now * 2 ^ level ≤ length cells.old.items }
    ensures long { length cells.new.items ≡ length cells.old.items }
    ensures here { (k : ℕ) → k < length weights.now * 2 ^ level → slice_index cells.new.items (first + k) ≡ bit_xor (slice_index cells.old.items (first + k)) (mul (2 ^ (k % 2 ^ level)) (slice_index weights.now (k / 2 ^ level))) }
    ensures before { (p : ℕ) → p < first → slice_index cells.new.items p ≡ slice_index cells.old.items p }
    ensures after { (p : ℕ) → first + length weights.now * 2 ^ level ≤ p → slice_index cells.new.items p ≡ slice_index cells.old.items p }
{
    let values = 1usize << level;
    for k in 0..weights.len() * values {
        cells[first + k] = cells[first + k] + times_power(weights[k / values], k % values);
    }
}

/// 2 ^ u times a value.
fn times_power(value: B128, u: usize) -> B128
    requires { u < 128 }
    ensures { result ≡ mul (2 ^ u) value }
{
    if u == 0 {
        return value;
    }
    match B128::from_number(1u128 << u) {
        Some(power) => power * value,
        None => unreachable!(),
    }
}

//! The table of a claim in two factors, for the place in a word and for the word.

ghost use Rattle.std.specs.Prelude.{◌≡◌, ℕ, ◌+◌, ◌-◌, ◌*◌, ◌/◌, ◌^◌, ◌<◌, ◌≤◌, bit_xor, drop, length, map, slice_index, IfOk};
ghost use Rattle.tower_laws.specs.Tower.{mul};
ghost use Rattle.cube_laws.specs.Extension.{weights};
ghost use Rattle.cube_laws.specs.Sums.{tabulate};
ghost use Rattle.tensor_laws.specs.Tensor.{column};
ghost use Rattle.bit_claim.specs.Words.{high_part, low_part, rest_of, word_bits};

use crate::cells::{add_values, scale, zero_table};
use crate::no_memory::NoMemory;
use crate::part::{Part, split};
use cube_mle::eq_table;
use packed_words::Buckets;
use std::alloc::Global;
use tower_field::B128;

/// eq of a point and each corner.
pub fn corner_weights(alloc: Global, point: &[B128]) -> Result<Vec<B128>, NoMemory>
    ensures { IfOk result (λ made. made.items ≡ weights point.now) }
{
    Ok(eq_table(alloc, point)?)
}

/// How many of the lowest `log` variables tell the part of the table.
fn rest_of(log: u32, level: u32, point: &[B128]) -> u32
    requires low { level ≤ log }
    requires few { log ≤ 7 }
    ensures { result ≡ rest_of log level point.now }
{
    (log - level).saturating_sub(point.len().min(7) as u32)
}

/// The factor for the place in a word of `2 ^ log` places, times a number.
pub fn low_table(
    alloc: Global,
    log: u32,
    part: Part,
    point: &[B128],
    factor: B128,
) -> Result<Vec<B128>, NoMemory>
    requires low { part.level ≤ log }
    requires few { log ≤ 7 }
    ensures { IfOk result (λ cells. cells.items ≡ map (mul factor) (low_part log part.level point.now part.index)) }
{
    let (within, _) = split(point, (log - part.level) as usize);
    let mut scaled = corner_weights(alloc, within)?;
    scale(&mut scaled, factor);
    let weights = scaled.as_slice();
    let place = part.index % (1u64 << rest_of(log, part.level, point));
    let mut cells = zero_table(alloc, 1usize << log)?;
    let first = place as usize * (weights.len() << part.level);
    add_values(&mut cells, first, part.level, weights);
    Ok(cells)
}

/// Where the words of a claim's column begin, and the weights that they have.
fn high_weights(
    alloc: Global,
    log: u32,
    part: Part,
    point: &[B128],
) -> Result<(usize, Vec<B128>), NoMemory>
    requires low { part.level ≤ log }
    requires few { log ≤ 7 }
    requires small { part.index / 2 ^ rest_of log part.level point.now * 2 ^ length (drop (log - part.level) point.now) < 2 ^ 64 }
    ensures first { IfOk result (λ made. made.0 ≡ part.index / 2 ^ rest_of log part.level point.now * 2 ^ length (drop (log - part.level) point.now)) }
    ensures weights { IfOk result (λ made. made.1.items ≡ weights (drop (log - part.level) point.now)) }
{
    let (_, above) = split(point, (log - part.level) as usize);
    let made = corner_weights(alloc, above)?;
    let first = (part.index >> rest_of(log, part.level, point)) as usize * made.len();
    Ok((first, made))
}

/// For each bit of a word the sum of the weights whose word has it.
fn sums_of_bits(
    alloc: Global,
    buckets: &mut Buckets,
    weights: &[B128],
    words: &[B128],
) -> Result<Vec<B128>, NoMemory>
    ensures { IfOk result (λ sums. sums.items ≡ tabulate word_bits (column weights.now words.now)) }
{
    let sums = buckets.columns(weights, words);
    Ok(Vec::from_slice(alloc, &sums)?)
}

/// For each bit of a word the sum of the numbers of the factor for the word whose words have it.
pub fn word_sums(
    alloc: Global,
    log: u32,
    part: Part,
    point: &[B128],
    words: &[B128],
    buckets: &mut Buckets,
) -> Result<Vec<B128>, NoMemory>
    requires low { part.level ≤ log }
    requires few { log ≤ 7 }
    requires wide { log ≤ part.level + length point.now + part.above }
    requires small { part.index * 2 ^ (part.level + length point.now) < 2 ^ 64 }
    requires part { part.index < 2 ^ part.above }
    requires whole { length words.now ≡ 2 ^ (part.level + length point.now + part.above - log) }
    ensures { IfOk result (λ sums. sums.items ≡ tabulate word_bits (column (high_part log part.level point.now part.above part.index) words.now)) }
{
    let (first, made) = high_weights(alloc, log, part, point)?;
    let weights = made.as_slice();
    let (_, rest) = split(words, first);
    let (own, _) = split(rest, weights.len());
    sums_of_bits(alloc, buckets, weights, own)
}

/// Adds the factor for the word, times a number, to a table with a cell for each word.
pub fn add_high(
    alloc: Global,
    log: u32,
    part: Part,
    point: &[B128],
    factor: B128,
    cells: &mut Vec<B128>,
) -> Result<(), NoMemory>
    requires low { part.level ≤ log }
    requires few { log ≤ 7 }
    requires wide { log ≤ part.level + length point.now + part.above }
    requires small { part.index * 2 ^ (part.level + length point.now) < 2 ^ 64 }
    requires part { part.index < 2 ^ part.above }
    requires whole { length cells.old.items ≡ 2 ^ (part.level + length point.now + part.above - log) }
    ensures long { IfOk result (λ _. length cells.new.items ≡ length cells.old.items) }
    ensures added { IfOk result (λ _. (p : ℕ) → slice_index cells.new.items p ≡ bit_xor (slice_index cells.old.items p) (mul factor (slice_index (high_part log part.level point.now part.above part.index) p))) }
{
    let (first, mut weights) = high_weights(alloc, log, part, point)?;
    scale(&mut weights, factor);
    add_values(cells, first, 0, weights.as_slice());
    Ok(())
}

//! The tables of a batch on packed words.

ghost use Rattle.std.specs.Prelude.{◌≡◌, ℕ, ◌*◌, ◌^◌, ◌++◌, ◌∷◌, [], bit_xor, length, map, slice_index, IfOk};
ghost use Rattle.tower_laws.specs.Tower.{mul};
ghost use Rattle.cube_laws.specs.Extension.{fold_all};
ghost use Rattle.cube_laws.specs.Sums.{tabulate};
ghost use Rattle.table_shape.specs.Placement.{places_log};
ghost use Rattle.tensor_laws.specs.Tensor.{bits_of_table, column};
ghost use Rattle.bit_claim.specs.Bits.{IsPlaced};
ghost use Rattle.bit_claim.specs.PackedSum.{high_of, high_sum, low_of, tables_of};
ghost use Rattle.bit_claim.specs.Words.{word_bits};

use crate::batched::Batched;
use crate::cells::zero_table;
use crate::no_memory::NoMemory;
use crate::part::Part;
use crate::placement::Placement;
use crate::word_parts::{add_high, corner_weights, low_table, word_sums};
use packed_words::Buckets;
use ring_switch::BitWeights;
use std::alloc::Global;
use sumcheck::{ColumnClaim, Tables128};
use tower_field::{B128, Tower, Values};

/// Appends the two tables of a claim: its factor for the place in a word, times a number, and the sums
/// over the words of its column.
fn push_parts(
    alloc: Global,
    placement: &Placement,
    claim: &ColumnClaim,
    factor: B128,
    words: &[B128],
    buckets: &mut Buckets,
    tables: &mut Tables128,
) -> Result<(), NoMemory>
    requires placed { IsPlaced placement.now claim.now }
    requires whole { 128 * length words.now ≡ 2 ^ places_log placement.now }
    ensures { IfOk result (λ _. tables.new ≡ tables.old ++ map (mul factor) (low_of placement.now claim.now) ∷ tabulate word_bits (column (high_of placement.now claim.now) words.now) ∷ []) }
{
    let part = Part::of(placement, claim);
    let point = claim.point.as_slice();
    let low = low_table(alloc, 7, part, point, factor)?;
    let sums = word_sums(alloc, 7, part, point, words, buckets)?;
    tables.push(Values::from_vec(low))?;
    tables.push(Values::from_vec(sums))?;
    Ok(())
}

/// For each claim its factor for the place in a word, times the power of lambda, and the sums over the
/// words of its column.
pub fn part_tables(alloc: Global, batch: &Batched, words: &[B128]) -> Result<Tables128, NoMemory>
    requires { 128 * length words.now ≡ 2 ^ places_log batch.now.blocks }
    ensures { IfOk result (λ tables. tables ≡ tables_of batch.now words.now) }
{
    let placement = batch.placement();
    let claims = batch.claims();
    let mut buckets = Buckets::new(alloc)?;
    let mut tables = Tables128::new(alloc);
    let mut factor = B128::ONE;
    for i in 0..claims.len() {
        push_parts(
            alloc,
            placement,
            &claims[i],
            factor,
            words,
            &mut buckets,
            &mut tables,
        )?;
        factor = factor * batch.lambda();
    }
    Ok(tables)
}

/// Adds a claim's factor for the word, times a number.
fn add_claim_high(
    alloc: Global,
    placement: &Placement,
    claim: &ColumnClaim,
    factor: B128,
    cells: &mut Vec<B128>,
) -> Result<(), NoMemory>
    requires placed { IsPlaced placement.now claim.now }
    requires whole { 128 * length cells.old.items ≡ 2 ^ places_log placement.now }
    ensures long { IfOk result (λ _. length cells.new.items ≡ length cells.old.items) }
    ensures added { IfOk result (λ _. (p : ℕ) → slice_index cells.new.items p ≡ bit_xor (slice_index cells.old.items p) (mul factor (slice_index (high_of placement.now claim.now) p))) }
{
    let part = Part::of(placement, claim);
    add_high(alloc, 7, part, claim.point.as_slice(), factor, cells)?;
    Ok(())
}

/// The sum of the claims' factors for each of so many words, each times every other number of a list.
pub fn high_table(
    alloc: Global,
    batch: &Batched,
    finals: &[B128],
    count: usize,
) -> Result<Vec<B128>, NoMemory>
    requires whole { 128 * count ≡ 2 ^ places_log batch.now.blocks }
    requires finals { length finals.now ≡ 2 * length batch.now.claims }
    ensures long { IfOk result (λ cells. length cells.items ≡ count) }
    ensures cells { IfOk result (λ cells. (p : ℕ) → slice_index cells.items p ≡ high_sum (high_of batch.now.blocks) p batch.now.claims finals.now) }
{
    let placement = batch.placement();
    let claims = batch.claims();
    let mut cells = zero_table(alloc, count)?;
    for i in 0..claims.len() {
        add_claim_high(alloc, placement, &claims[i], finals[2 * i], &mut cells)?;
    }
    Ok(cells)
}

/// The table of the bits of words, with the variables of the place in a word set to seven draws.
pub fn fold_words(alloc: Global, draws: &[B128], words: &[B128]) -> Result<Vec<B128>, NoMemory>
    requires { length draws.now ≡ 7 }
    ensures { IfOk result (λ made. made.items ≡ fold_all draws.now (bits_of_table word_bits words.now)) }
{
    let weights = BitWeights::new(alloc, corner_weights(alloc, draws)?)?;
    let mut made = Vec::with_capacity(alloc, words.len())?;
    for word in words {
        let set = weights.sum(*word);
        if made.push(set).is_err() {
            return Err(NoMemory);
        }
    }
    Ok(made)
}

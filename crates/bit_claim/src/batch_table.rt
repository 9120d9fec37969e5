//! The table of a batch of claims.

ghost use Rattle.std.specs.Prelude.{◌≡◌, ℕ, ◌^◌, ◌≤◌, bit_xor, length, map, slice_index, IfOk};
ghost use Rattle.tower_laws.specs.Tower.{mul};
ghost use Rattle.batch_laws.specs.Batch.{batched};
ghost use Rattle.table_shape.specs.Placement.{places_log};
ghost use Rattle.bit_claim.specs.Bits.{claim_table, IsPlaced};

use crate::batched::Batched;
use crate::cells::{add_values, scale, zero_table};
use crate::no_memory::NoMemory;
use crate::part::Part;
use crate::placement::Placement;
use cube_mle::eq_table;
use std::alloc::Global;
use sumcheck::ColumnClaim;
use tower_field::{B128, Tower};

/// The sum of lambda ^ j times the table of claim j. For each claim only its part of the table is
/// visited.
pub fn batch_table(alloc: Global, batch: &Batched) -> Result<Vec<B128>, NoMemory>
    ensures few { IfOk result (λ _. places_log batch.now.blocks ≤ 32) }
    ensures long { IfOk result (λ cells. length cells.items ≡ 2 ^ places_log batch.now.blocks) }
    ensures table { IfOk result (λ cells. cells.items ≡ batched (2 ^ places_log batch.now.blocks) batch.now.lambda (map (claim_table batch.now.blocks) batch.now.claims)) }
{
    let placement = batch.placement();
    let claims = batch.claims();
    let mut cells = zero_table(alloc, 1usize << placement.vars())?;
    let mut factor = B128::ONE;
    for i in 0..claims.len() {
        add_claim(alloc, placement, &claims[i], factor, &mut cells)?;
        factor = factor * batch.lambda();
    }
    Ok(cells)
}

/// Adds the table of a claim times a factor.
fn add_claim(
    alloc: Global,
    placement: &Placement,
    claim: &ColumnClaim,
    factor: B128,
    cells: &mut Vec<B128>,
) -> Result<(), NoMemory>
    requires placed { IsPlaced placement.now claim.now }
    requires whole { length cells.old.items ≡ 2 ^ places_log placement.now }
    ensures long { IfOk result (λ _. length cells.new.items ≡ length cells.old.items) }
    ensures added { IfOk result (λ _. (p : ℕ) → slice_index cells.new.items p ≡ bit_xor (slice_index cells.old.items p) (mul factor (slice_index (claim_table placement.now claim.now) p))) }
{
    let part = Part::of(placement, claim);
    let mut scaled = eq_table(alloc, claim.point.as_slice())?;
    scale(&mut scaled, factor);
    let weights = scaled.as_slice();
    let first = part.index as usize * (weights.len() << part.level);
    add_values(cells, first, part.level, weights);
    Ok(())
}

//! All reductions of a proof.

ghost use Rattle.std.specs.Prelude.{◌≡◌, ℕ, ◌≤◌, ◌++◌, ◌∷◌, [], length, reverse, slice_index, IfOk, OnOk};
ghost use Rattle.table_shape.specs.Limits.{max_rows, max_size_log};
ghost use Rattle.table_shape.specs.Placement.{blocks, places_log};
ghost use Rattle.table_shape.specs.Size.{size_log};
ghost use Rattle.table_shape.specs.SizeStop.{AnswersSize};
ghost use Rattle.bit_claim.specs.Batching as batch;
ghost use Rattle.ring_switch.specs.Switching as switch;
ghost use Rattle.m3_walk.specs.declared.stage.Stage.TheVariants as stage;
ghost use Rattle.m3_walk.specs.Course.{course};

use crate::appending::push_stage;
use crate::channels::push_channels;
use crate::columns::push_tables;
use crate::constraints::push_constraints;
use crate::no_memory::NoMemory;
use crate::stage::Stage;
use bit_claim::{BitWalk, Placement, place};
use ring_switch::SwitchWalk;
use std::alloc::Global;
use table_shape::{Shape, SizeStop};

/// So many claims on committed columns, and the ring switch.
fn push_bits(
    alloc: Global,
    placement: &Placement,
    claims: u32,
    stages: &mut Vec<Stage>,
) -> Result<(), NoMemory>
    requires { places_log placement.now ≤ max_size_log }
    ensures { OnOk result (stages.new.items ≡ stages.old.items ++ stage.Bits (batch.waiting placement.now claims) ∷ stage.Words (switch.waiting (places_log placement.now)) ∷ []) }
{
    let bits = BitWalk::begin(alloc, placement, claims)?;
    push_stage(Stage::Bits(bits), stages)?;
    let words = SwitchWalk::begin(alloc, placement.log_bits())?;
    push_stage(Stage::Words(words), stages)
}

/// The reductions of bits at these places, the first one first.
fn ordered(
    alloc: Global,
    shape: &Shape,
    rows: &[u32],
    placement: &Placement,
) -> Result<Vec<Stage>, NoMemory>
    requires counts { length rows.now ≡ length shape.now.tables }
    requires few { (t : ℕ) → slice_index rows.now t ≤ max_rows }
    requires places { placement.now ≡ blocks shape.now.tables rows.now }
    requires low { places_log placement.now ≤ max_size_log }
    ensures { IfOk result (λ stages. stages.items ≡ course shape.now rows.now) }
{
    let mut stages = Vec::new(alloc);
    push_channels(alloc, shape, rows, &mut stages)?;
    push_constraints(alloc, shape, rows, &mut stages)?;
    let claims = push_tables(alloc, shape, rows, &mut stages)?;
    push_bits(alloc, placement, claims, &mut stages)?;
    Ok(stages)
}

/// The reductions of a shape's tables on these numbers of rows, the first one last. Too large exactly
/// where the columns take more than 2^24 bits.
pub fn course(alloc: Global, shape: &Shape, rows: &[u32]) -> Result<Vec<Stage>, SizeStop>
    requires counts { length rows.now ≡ length shape.now.tables }
    requires few { (t : ℕ) → slice_index rows.now t ≤ max_rows }
    ensures stages { IfOk result (λ stages. stages.items ≡ reverse (course shape.now rows.now)) }
    ensures size { AnswersSize result (size_log shape.now.tables rows.now) }
{
    let placement = place(alloc, shape, rows)?;
    let mut stages = ordered(alloc, shape, rows, &placement)?;
    stages.reverse();
    Ok(stages)
}

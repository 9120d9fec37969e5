//! The claim of bits: where the bits of the committed columns stand in one table, and claims on the
//! columns as one claim on that table.
#![tactic(auto)]

mod batch_table;
mod batched;
mod bit_prover;
mod bit_sum;
mod bit_table;
mod bit_value;
mod bit_walk;
mod cells;
mod laws;
mod no_memory;
mod packed_sum;
mod packed_tables;
mod pairs;
mod part;
mod placement;
mod room;
mod sum_form;
mod word_parts;

pub use bit_prover::BitProver;
pub use bit_value::BitValue;
pub use bit_walk::BitWalk;
pub use laws::{batches_keep_truth, blocks_stand_apart};
pub use no_memory::NoMemory;
pub use placement::{Block, Placement, place};

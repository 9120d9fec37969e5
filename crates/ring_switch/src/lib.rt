//! A value of a table of bits, turned into a value of the table of its words.

#![tactic(auto)]

mod bit_weights;
mod combining;
mod ending;
mod laws;
mod no_memory;
mod packed_value;
mod switch_prover;
mod switch_walk;
mod switched;
mod tensor;
mod tensor_eq;
mod weighing;

pub use bit_weights::BitWeights;
pub use laws::switchings_keep_truth;
pub use no_memory::NoMemory;
pub use packed_value::PackedValue;
pub use switch_prover::SwitchProver;
pub use switch_walk::SwitchWalk;
pub use switched::Switched;
pub use tensor::Tensor;
pub use tensor_eq::tensor_eq_at;

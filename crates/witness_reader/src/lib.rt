//! The reader of a witness file.
#![tactic(auto)]

mod fault;
#[cfg(test)]
mod tests;
mod witness;

pub use fault::{WitnessFault, WitnessKind, WitnessPlace, WitnessStop};
pub use witness::{read_where_given, read_witness};

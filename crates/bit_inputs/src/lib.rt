//! What tests of claims on committed columns are given.
#![tactic(auto)]

mod committed;
mod packed;

pub use committed::{Claimed, Column, claims_on, lists_of, table_of_bits};
pub use packed::{prover_of, words_of};

//! The constraints of a table that have one number of values per row are 0 on its rows: this claim,
//! reduced to claims on columns.

#![tactic(auto)]

mod expressions;
mod given;
mod group;
mod laws;
mod no_memory;
mod opening;
mod row_steps;
mod zero_prover;
mod zero_walk;
mod zeroed;

pub use expressions::names;
pub use given::has_lists;
pub use group::{Group, has_group};
pub use laws::zeros_keep_truth;
pub use no_memory::NoMemory;
pub use zero_prover::ZeroProver;
pub use zero_walk::ZeroWalk;
pub use zeroed::Zeroed;

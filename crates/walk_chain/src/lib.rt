//! Reductions one after another, as one reduction.
//!
//! Each walk takes some of the claims that wait, and leaves others once it is done.

#![tactic(auto)]

mod chain_prover;
mod chain_walk;
mod hand_over;
mod linked;
mod linked_prover;
mod settle_prover;
mod waiting;

pub use chain_prover::ChainProver;
pub use chain_walk::ChainWalk;
pub use hand_over::settle;
pub use linked::Linked;
pub use linked_prover::LinkedProver;
pub use settle_prover::settle_provers;
pub use waiting::{count_waiting, waiting_at};

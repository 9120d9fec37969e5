//! Sum claims, their rounds and the message that ends them; and what every reduction shares.

#![tactic(auto)]

mod column_claim;
mod column_tables;
mod ending;
mod entry;
mod honest;
mod laws;
mod no_memory;
mod pending;
mod points;
mod reduction;
mod refused;
mod rounds;
mod rows;
mod steps;
mod sum_prover;
mod sum_terms;
mod sum_walk;
mod summand;
mod tables128;
mod telling;

pub use column_claim::ColumnClaim;
pub use column_tables::ColumnTables;
pub use ending::Ending;
pub use entry::Entry;
pub use honest::Honest;
pub use laws::sums_keep_truth;
pub use no_memory::NoMemory;
pub use pending::{Pending, SumOf};
pub use points::Points;
pub use reduction::{Next, Reduction, Stopping};
pub use refused::Refused;
pub use rounds::SumRounds;
pub use steps::Steps;
pub use sum_prover::SumProver;
pub use sum_terms::{SumTerms, sum_due, sum_message, sum_pending};
pub use sum_walk::{RoundSum, SumWalk};
pub use summand::{Pair, Summand};
pub use tables128::Tables128;
pub use telling::push_claims;

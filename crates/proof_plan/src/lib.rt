//! The plan of a proof: its entries in order, with their counts, from a shape and numbers of rows.

#![tactic(auto)]

mod channels;
mod columns;
mod constraints;
mod plan;
mod plan_entry;
mod rounds;
mod words;

pub use columns::{claim_sources, committed_count, first_columns, times_in};
pub use plan::Plan;
pub use plan_entry::PlanEntry;

//! Claims on columns, reduced to fewer: claims on one column at several points are merged into one, and
//! those on virtual columns become claims on the columns that these are made from.

#![tactic(auto)]

mod batch;
mod combination;
mod ending;
mod giving;
mod joined;
mod laws;
mod linear_prover;
mod linear_step;
mod lists;
mod merge_prover;
mod merge_walk;
mod no_memory;
mod pack_prover;
mod pack_walk;
mod packing;
mod project_prover;
mod project_step;
mod projection;
mod room;
mod shift_prover;
mod shift_walk;
mod shifted;
mod shifting;
mod virtual_column;

pub use combination::Combination;
pub use joined::Joined;
pub use laws::{
    combinations_keep_truth, fillings_have_forms, merges_keep_truth, packings_keep_truth,
    projections_keep_truth, shiftings_keep_truth,
};
pub use linear_prover::LinearProver;
pub use linear_step::LinearStep;
pub use lists::has_lists;
pub use merge_prover::MergeProver;
pub use merge_walk::MergeWalk;
pub use no_memory::NoMemory;
pub use pack_prover::PackProver;
pub use pack_walk::PackWalk;
pub use packing::Packing;
pub use project_prover::ProjectProver;
pub use project_step::ProjectStep;
pub use projection::Projection;
pub use shift_prover::ShiftProver;
pub use shift_walk::ShiftWalk;
pub use shifted::Shifted;
pub use shifting::Shifting;

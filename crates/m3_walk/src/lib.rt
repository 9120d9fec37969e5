//! All reductions of a proof, one after another.

#![tactic(auto)]

mod appending;
mod channels;
mod columns;
mod constraints;
mod kept;
mod kept_sizes;
mod laws;
mod linking;
mod merging;
mod no_memory;
mod packed;
mod product;
mod reductions;
mod stage;
mod switch;
mod tables;

pub use kept::Kept;
pub use kept_sizes::KeptSizes;
pub use laws::courses_are_plans;
pub use merging::Merging;
pub use no_memory::NoMemory;
pub use packed::Packed;
pub use product::Product;
pub use reductions::course;
pub use stage::Stage;
pub use switch::Switch;

//! Tables over cubes: eq of points, extensions, folds, steps and shifts.

#![tactic(auto)]

mod eq;
mod extension;
mod fold;
mod no_memory;
mod shift;
mod step;
mod weights;

pub use eq::eq_at;
pub use extension::mle_at;
pub use fold::fold_low;
pub use no_memory::NoMemory;
pub use shift::{ShiftKind, shift_at};
pub use step::step_down_at;
pub use weights::eq_table;

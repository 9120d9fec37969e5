//! The values of a shape's columns.
#![tactic(auto)]

mod bits;
mod column;
mod columns;
mod draft;
mod forms;
mod store;
mod sums;

pub use bits::{spells_bits, written_bits};
pub use column::Column;
pub use draft::Draft;
pub use store::{Store, digits_stand_by_place};

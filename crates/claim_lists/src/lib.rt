//! Claims on columns taken out of a list, and put in order. Nothing here takes memory.

#![tactic(auto)]

mod ordering;
mod taking;

pub use ordering::order_into;
pub use taking::{move_all, take_first};

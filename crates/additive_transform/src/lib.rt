//! Code words of tables of values, by butterflies.

#![tactic(auto)]

mod basis;
mod encode;
mod log;
mod no_memory;
mod tops;

pub use basis::Basis;
pub use no_memory::NoMemory;

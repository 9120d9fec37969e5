//! Tables and channels lowered to products, and the bits of their columns in one table.
#![tactic(auto)]

mod bits;
mod laws;
mod leaf;
mod lowered;
mod products;
mod side;
#[cfg(test)]
mod tests;

pub use laws::satisfied_is_lowered;
pub use lowered::{Lowered, lower};
pub use products::{Pair, Pairs, Products, products_at};

//! Every channel is in balance: this claim, reduced to claims on the products of flushes, and each of
//! these, layer by layer, to claims on columns.

#![tactic(auto)]

mod balance_prover;
mod balance_walk;
mod channels;
mod counts;
mod fingerprint;
mod flushed;
mod given;
mod halves;
mod laws;
mod layered;
mod layers;
mod leaf_term;
mod leaves;
mod no_memory;
mod pointed;
mod product_prover;
mod product_walk;
mod products;
mod sides;
mod sum_tables;
mod told_products;

pub use balance_prover::BalanceProver;
pub use balance_walk::BalanceWalk;
pub use channels::Channels;
pub use counts::{alpha_count, gamma_count};
pub use fingerprint::{collapse, leaf};
pub use flushed::Flushed;
pub use given::has_lists;
pub use laws::{balances_keep_truth, products_keep_truth};
pub use no_memory::NoMemory;
pub use product_prover::ProductProver;
pub use product_walk::ProductWalk;
pub use told_products::ToldProducts;

//! The products that a walk of channels leaves.

use crate::flushed::Flushed;
use sqlite_items::Items;
use tower_field::B128;

/// What is claimed of the products of flushes at alpha and gamma: a value for each, in their order.
#[derive(Drop)]
pub struct ToldProducts {
    pub flushes: Items<Flushed>,
    pub alpha: B128,
    pub gamma: B128,
    pub values: Vec<B128>,
}

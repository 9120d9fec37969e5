//! What is claimed of a flush.

use channel_products::Flushed;
use tower_field::B128;

/// The claim that the product of a flush's leaves at alpha and gamma is a value.
#[derive(Drop)]
pub struct Product {
    pub flushed: Flushed,
    pub alpha: B128,
    pub gamma: B128,
    pub value: B128,
}

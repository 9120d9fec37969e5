//! Words of 128 bits, each taken as several elements at once, and products and sums of many
//! elements.

#![tactic(auto)]

mod bit_sums;
mod by_byte;
mod element;
mod lane_words;
mod lanes;
mod multiples;
mod no_memory;
mod product;
mod transpose;
mod words;

pub use bit_sums::Buckets;
pub use by_byte::times_byte;
pub use lanes::Lanes;
pub use multiples::Multiples;
pub use no_memory::NoMemory;
pub use product::mul128;
pub use transpose::transpose128;
pub use words::{lane_of, set_lane};

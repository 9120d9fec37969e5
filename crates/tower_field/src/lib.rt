//! Elements of the binary tower fields of 1 to 128 bits.

#![tactic(auto)]

mod by_level;
mod byte;
mod bytes_again;
mod element;
mod embedding;
mod halves;
mod ladder;
mod level0;
mod level1;
mod level2;
mod level3;
mod level4;
mod level5;
mod level6;
mod level7;
mod values;

pub use bytes_again::{bytes_are_spelled_again, numbers_are_read_again};
pub use element::Tower;
pub use embedding::{lift, lower};
pub use level0::B1;
pub use level1::B2;
pub use level2::B4;
pub use level3::B8;
pub use level4::B16;
pub use level5::B32;
pub use level6::B64;
pub use level7::B128;
pub use values::{NoMemory, Values, numbers_fit};

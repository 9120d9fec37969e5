//! Whether values satisfy tables: every constraint is 0, and every channel is in balance.
#![tactic(auto)]

mod blocks;
mod constraints;
mod laws;
mod no_memory;
mod sorted;
mod source;
mod unequal;
mod verdict;

pub use constraints::{NonZero, first_nonzero};
pub use laws::orders_tell_multisets;
pub use no_memory::NoMemory;
pub use verdict::{Verdict, Violation, judge};

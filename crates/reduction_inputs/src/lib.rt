//! What the tests of reductions are given, and how it is given to them.
#![tactic(auto)]

mod given;
mod giving;

pub use given::{
    Lack, add_list, agreed, element, elements, given_lists, given_tables, push_bits, rows_fit,
    shape_of, value_at, word, words,
};
pub use giving::{Given, Taken, first_pending, run};

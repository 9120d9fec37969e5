//! Lists read from the front, powers of two, and steps in a row.
//!
//! The definitions stand in `specs/`, the lemmas in `proofs/`: an item of a list and what follows
//! it (`Lists`), names sought in a list (`Names`), powers of two as shifts (`Powers`), the
//! logarithm rounded up (`CeilLog`), a step and what follows it (`Steps`). None speaks of tables
//! or of fields.

#![tactic(auto)]

ghost use Rattle.list_laws.specs.Laws.{AreLeast};

/// `2 ^ ceil_log x` is the least power of 2 that `x` doesn't exceed.
pub fn least_logs()
    ensures { AreLeast }
{}

//! Folds of code words, the trees that commit to them, and the checks of queries.

#![tactic(auto)]

ghost use Rattle.fri_fold.specs.Folds.{AreFolds};

mod fold;
mod no_memory;
mod prover;
mod query;

pub use fold::fold_pair;
pub use no_memory::NoMemory;
pub use prover::FoldProver;
pub use query::{QueryCheck, QueryFault, honest_openings};

/// The fold of a word is the next word, and after all folds its values are the table's extension.
pub fn folds_of_words()
    ensures { AreFolds }
{}

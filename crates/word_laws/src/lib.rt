//! Code words of tables, their folds, and the transform that makes them.
//!
//! The definitions stand in `specs/`, the lemmas in `proofs/`. A function here does nothing: its
//! clause is a law over the definitions alone.

#![tactic(auto)]

ghost use Rattle.word_laws.specs.Laws.{AreFolds, AreVanishing, AreWorked, EncodeIsWord, FoldOfWord, LastWord, QuickWord, StayInLevel};

/// The polynomials that vanish below a power of 2.
pub fn vanishing_polynomials()
    ensures { AreVanishing }
{}

/// Words, and what a fold makes of them.
pub fn word_folds()
    ensures fold { FoldOfWord }
    ensures last { LastWord }
    ensures quick { QuickWord }
{}

/// The transform by butterflies gives the word.
pub fn transform()
    ensures { EncodeIsWord }
{}

/// Words as lists, folded to their end.
pub fn lists_are_folded()
    ensures { AreFolds }
{}

/// Hats, words and folds of numbers of a level stay in the level.
pub fn words_stay_in_their_level()
    ensures { StayInLevel }
{}

/// A word and its fold, worked out by hand.
pub fn worked_values()
    ensures { AreWorked }
{}

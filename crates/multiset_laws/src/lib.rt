//! Multisets of tuples, told apart by products of fingerprints.
//!
//! The definitions stand in `specs/`, the lemmas in `proofs/`. A function here does nothing: its
//! clause is a law over the definitions alone.

#![tactic(auto)]

ghost use Rattle.multiset_laws.specs.Laws.{AreBalances, AreWorked, CollapsesSeldomAgree, FingerprintsAgree, LeavesAreFingerprints, ProductsSeldomAgree};

/// Products over unequal multisets of numbers agree for few challenges.
pub fn products_seldom_agree()
    ensures { ProductsSeldomAgree }
{}

/// Unequal multisets of tuples collapse to equal multisets of numbers for few challenges.
pub fn collapses_seldom_agree()
    ensures { CollapsesSeldomAgree }
{}

/// Equal multisets of tuples have equal products of fingerprints.
pub fn fingerprints_agree()
    ensures { FingerprintsAgree }
{}

/// A product of leaves takes only the rows that are there and selected.
pub fn leaves_are_fingerprints()
    ensures { LeavesAreFingerprints }
{}

/// Several pairs of multisets of tuples at once, through both challenges.
pub fn balances_are_counted()
    ensures { AreBalances }
{}

/// A fingerprint and leaves, worked out by hand.
pub fn worked_values()
    ensures { AreWorked }
{}

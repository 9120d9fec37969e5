//! Polynomials over the numbers of the tower.
//!
//! The definitions stand in `specs/`, the lemmas in `proofs/`. A function here does nothing: its
//! clause is a law over the definitions alone.

#![tactic(auto)]

ghost use Rattle.poly_laws.specs.Laws.{AreBatches, AreWorked, HaveDegrees, IsInterpolation, RootsAreFew, ValueIsSum};

/// The value of a polynomial is the sum of its coefficients times powers.
pub fn values_are_sums()
    ensures { ValueIsSum }
{}

/// Two values of one polynomial, worked out by hand.
pub fn worked_values()
    ensures { AreWorked }
{}

/// A polynomial that is not 0 has fewer roots than coefficients.
pub fn roots_are_few()
    ensures { RootsAreFew }
{}

/// The degree of a sum is at most the greater one, and that of a product at most the sum.
pub fn degrees()
    ensures { HaveDegrees }
{}

/// Values at 0, 1, 2, .. are those of just one polynomial of a degree below their number.
pub fn values_tell_the_polynomial()
    ensures { IsInterpolation }
{}

/// Values joined by the powers of a number.
pub fn batches_tell_values()
    ensures { AreBatches }
{}

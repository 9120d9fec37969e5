//! Parts and products of tables, many tables or claims as one, and sums with eq.
//!
//! The definitions stand in `specs/`, the lemmas in `proofs/`. A function here does nothing: its
//! clause is a law over the definitions alone.

#![tactic(auto)]

ghost use Rattle.batch_laws.specs.Laws.{AreBatchedForms, AreBatches, AreEqSums, AreParts, AreWorked, AreZeros, StayInLevel};

/// Products of tables in disjoint variables, and parts of a table by bits in its point.
pub fn tables_have_parts()
    ensures { AreParts }
{}

/// Many tables, claims or forms as one, by the powers of a number.
pub fn batches_tell_tables()
    ensures tables { AreBatches }
    ensures forms { AreBatchedForms }
{}

/// A list that is to be 0, coordinate by coordinate, and a form's values as a sum with eq.
pub fn zeros_are_sums()
    ensures zeros { AreZeros }
    ensures sums { AreEqSums }
{}

/// What is made from numbers of a level stays in the level.
pub fn tables_stay_in_their_level()
    ensures { StayInLevel }
{}

/// A batch and two sums, worked out by hand.
pub fn worked_values()
    ensures { AreWorked }
{}

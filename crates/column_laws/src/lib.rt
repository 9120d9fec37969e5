//! Columns of values, columns made from them, and all columns as bits of one table.
//!
//! The definitions stand in `specs/`, the lemmas in `proofs/`. A function here does nothing: its
//! clause is a law over the definitions alone.

#![tactic(auto)]

ghost use Rattle.column_laws.specs.Laws.{AreBasis, AreColumns, ArePlaced, AreWorked, HaveLevels};

/// The powers of 2 are a basis of the numbers, and products of generators.
pub fn powers_are_a_basis()
    ensures { AreBasis }
{}

/// The extensions and the levels of columns that are made from others.
pub fn columns_are_made()
    ensures columns { AreColumns }
    ensures levels { HaveLevels }
{}

/// A claim on a column is a sum over the table of all bits.
pub fn columns_are_placed()
    ensures { ArePlaced }
{}

/// Columns, a basis and a placement, worked out by hand.
pub fn worked_values()
    ensures { AreWorked }
{}

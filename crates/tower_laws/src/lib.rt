//! The mathematics of the binary tower fields.
//!
//! The definitions stand in `specs/`, the lemmas in `proofs/`. A function here does nothing: its
//! clause is a law over the definitions alone.

#![tactic(auto)]

ghost use Rattle.tower_laws.specs.FieldLaws.{AreFields, HaveNoRoots, IsField};
ghost use Rattle.tower_laws.specs.ListLaws.{AreSumsAndProducts, StayInLevel};

/// Sum and product of numbers are those of a field of characteristic 2.
pub fn numbers_are_a_field()
    ensures { IsField }
{}

/// Each level is a field, with the sum, product and inverse of all numbers.
pub fn levels_are_fields()
    ensures { AreFields }
{}

/// The two quadratic equations over the last generator of a level have no root there.
pub fn generators_have_no_roots()
    ensures { HaveNoRoots }
{}

/// Sums and products of lists of numbers, joined or place by place.
pub fn lists_add_and_multiply()
    ensures values { AreSumsAndProducts }
    ensures levels { StayInLevel }
{}

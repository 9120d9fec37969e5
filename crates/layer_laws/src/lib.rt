//! Layers of products over a table of leaves, and leaves as forms.
//!
//! The definitions stand in `specs/`, the lemmas in `proofs/`. A function here does nothing: its
//! clause is a law over the definitions alone.

#![tactic(auto)]

ghost use Rattle.layer_laws.specs.Laws.{AreLayers, AreLeaves, AreWorked};

/// Layers of products, from the leaves to their product.
pub fn layers_are_products()
    ensures { AreLayers }
{}

/// Leaves as forms of low degree, and their product over all rows of a padded table.
pub fn leaves_are_forms()
    ensures { AreLeaves }
{}

/// Layers and leaves, worked out by hand.
pub fn worked_values()
    ensures { AreWorked }
{}

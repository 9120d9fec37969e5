//! The tensor of a point's weights and a packed table of bits.
//!
//! The definitions stand in `specs/`, the lemmas in `proofs/`. A function here does nothing: its
//! clause is a law over the definitions alone.

#![tactic(auto)]

ghost use Rattle.tensor_laws.specs.Laws.{ColumnsAreExtension, RowsTellColumns, RowsUnderWeights};
ghost use Rattle.tensor_laws.specs.SwitchLaws.{ArePacked, AreSwitched, AreWorked};

/// Columns are true exactly where the rows read across them are.
pub fn rows_tell_columns()
    ensures { RowsTellColumns }
{}

/// What columns and rows are under weights.
pub fn tensor_under_weights()
    ensures columns { ColumnsAreExtension }
    ensures rows { RowsUnderWeights }
{}

/// Packed bits, their columns as values, and rows from columns by exchange of bits.
pub fn bits_are_packed()
    ensures { ArePacked }
{}

/// The steps from a value of a table's bits to a sum over the packed table.
pub fn values_are_switched()
    ensures { AreSwitched }
{}

/// Rows, columns and the table of the sum, worked out by hand.
pub fn worked_values()
    ensures { AreWorked }
{}

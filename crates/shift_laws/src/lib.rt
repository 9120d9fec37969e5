//! Shifts of a column within blocks, and the step that is 1 below a number of rows.
//!
//! The definitions stand in `specs/`, the lemmas in `proofs/`. A function here does nothing: its
//! clause is a law over the definitions alone.

#![tactic(auto)]

ghost use Rattle.shift_laws.specs.Laws.{AreCarries, AreShifts, AreSteps, AreWorked, ShiftsStayInLevel};

/// The step at a point, by the point's last coordinate.
pub fn steps_go_down()
    ensures { AreSteps }
{}

/// A value of a shifted column is a sum over the positions of a block, and of the column's level.
pub fn shifts_are_sums()
    ensures sums { AreShifts }
    ensures levels { ShiftsStayInLevel }
{}

/// The table of a shift at two points, by a carry along the bits.
pub fn shifts_carry()
    ensures { AreCarries }
{}

/// Shifted columns, a step and a shift's table, worked out by hand.
pub fn worked_values()
    ensures { AreWorked }
{}

//! Tables over cubes: extensions, sums and rounds.
//!
//! The definitions stand in `specs/`, the lemmas in `proofs/`. A function here does nothing: its
//! clause is a law over the definitions alone.

#![tactic(auto)]

ghost use Rattle.cube_laws.specs.Laws.{AreRounds, AreWorked, CubeSumIsSum, ExtensionAtCorners, ExtensionOfFold, FoldsDiffer, QuickExtension};
ghost use Rattle.cube_laws.specs.TableLaws.{AreCoordinates, AreLinear, AreSetSums, AreTabulated, AreWorkedTables, IsEq};

/// What the extension of a table is at corners and under folds, and its quick form.
pub fn extensions()
    ensures corners { ExtensionAtCorners }
    ensures fold { ExtensionOfFold }
    ensures quick { QuickExtension }
{}

/// Weights and an extension of two values, worked out by hand.
pub fn worked_values()
    ensures { AreWorked }
{}

/// Lists that differ still differ after all but one value of their lowest variable.
pub fn folds_differ()
    ensures { FoldsDiffer }
{}

/// Sums over cubes of forms of extensions are sums over positions.
pub fn cube_sums()
    ensures { CubeSumIsSum }
{}

/// The rounds by which a sum over a cube is checked, one variable at a time.
pub fn rounds_are_counted()
    ensures { AreRounds }
{}

/// Lists that a function of the place tells.
pub fn lists_are_tabulated()
    ensures { AreTabulated }
{}

/// eq of two points, of which the extension and its weights are made.
pub fn eq_of_points()
    ensures { IsEq }
{}

/// Coordinates of a point, set one by one.
pub fn coordinates_are_set()
    ensures tables { AreCoordinates }
    ensures sums { AreSetSums }
{}

/// Extensions are linear in the table, and sums may be exchanged.
pub fn extensions_are_linear()
    ensures { AreLinear }
{}

/// eq of two points, a product of two tables and a fold, worked out by hand.
pub fn worked_tables()
    ensures { AreWorkedTables }
{}

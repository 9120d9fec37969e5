//! What holds of every ring switch.

ghost use Rattle.ring_switch.specs.Switching.{switching, RowsTellColumns, VectorsAreCounted};
ghost use Rattle.sumcheck.specs.Machine.{Lawful};

/// A value of the bits becomes a value of the words, and keeps truth. A message's columns are true
/// exactly where its rows are, and of vectors of draws few hide false rows. Does nothing.
pub fn switchings_keep_truth()
    ensures lawful { Lawful switching }
    ensures together { RowsTellColumns }
    ensures counted { VectorsAreCounted }
{}

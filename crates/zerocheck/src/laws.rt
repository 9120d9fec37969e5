//! What holds of every group.

ghost use Rattle.sumcheck.specs.Machine.{Lawful};
ghost use Rattle.zerocheck.specs.First.{FirstStatesAreMeant};
ghost use Rattle.zerocheck.specs.Zero.{zerocheck, VectorsAreCounted};

/// The reduction keeps truth; of vectors of coordinates few hide a list that isn't 0; and the first
/// state says that the group's constraints are 0 on the rows. Does nothing.
pub fn zeros_keep_truth()
    ensures lawful { Lawful zerocheck }
    ensures counted { VectorsAreCounted }
    ensures first { FirstStatesAreMeant }
{}

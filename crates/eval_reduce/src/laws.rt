//! What holds of every merge, and of every virtual column.

ghost use Rattle.sumcheck.specs.Machine.{Lawful};
ghost use Rattle.eval_reduce.specs.Filled.{FillingsHaveForms};
ghost use Rattle.eval_reduce.specs.Linear.{linear_step};
ghost use Rattle.eval_reduce.specs.Merge.{merge};
ghost use Rattle.eval_reduce.specs.Pack.{pack, VectorsAreCounted};
ghost use Rattle.eval_reduce.specs.Project.{project, ProjectsKeepTruth};
ghost use Rattle.eval_reduce.specs.Shift.{shift, ShiftsKeepTruth};

/// A merge keeps truth, and of the draws that join J claims at most J - 1 make a false claim's sum
/// true. Does nothing.
pub fn merges_keep_truth()
    ensures { Lawful merge }
{}

/// A claim on a projected column becomes one on its source, which is as true. Does nothing.
pub fn projections_keep_truth()
    ensures lawful { Lawful project }
    ensures same { ProjectsKeepTruth }
{}

/// A claim on a linear column becomes one for each term, and keeps truth. Does nothing.
pub fn combinations_keep_truth()
    ensures { Lawful linear_step }
{}

/// A claim on a packed column becomes a list of values of its source, and after draws a claim on the
/// source. Of vectors of draws few hide a false list. Does nothing.
pub fn packings_keep_truth()
    ensures lawful { Lawful pack }
    ensures counted { VectorsAreCounted }
{}

/// A claim on a shifted column becomes a sum, which is as true, and keeps truth. Does nothing.
pub fn shiftings_keep_truth()
    ensures lawful { Lawful shift }
    ensures same { ShiftsKeepTruth }
{}

/// In a filling of a shape, virtual columns have the values that the walks of claims on them ask for.
/// Does nothing.
pub fn fillings_have_forms()
    ensures { FillingsHaveForms }
{}

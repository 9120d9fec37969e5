//! What holds of every sum.

ghost use Rattle.sumcheck.specs.Summing.{KeepsTruth, LawfulSumming};

use crate::sum_terms::SumTerms;

/// The rounds and the last message of a sum keep truth, where the sum is what its walk says. Does
/// nothing.
pub fn sums_keep_truth<T: SumTerms>()
    requires { LawfulSumming T.summing }
    ensures { KeepsTruth T.summing }
{}

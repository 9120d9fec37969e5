//! Tests of eval_reduce and zerocheck by their public calls, each walk beside its prover.
#![tactic(auto)]

#[cfg(test)]
mod merges;
#[cfg(test)]
mod virtual_columns;
#[cfg(test)]
mod zerochecks;

//! Tests of trees, transcripts, words and folds, by their public calls.
#![tactic(auto)]

#[cfg(test)]
mod challenges;
#[cfg(test)]
mod folds;
#[cfg(test)]
mod transforms;
#[cfg(test)]
mod trees;

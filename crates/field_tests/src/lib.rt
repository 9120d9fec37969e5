//! Tests of the crates from the field's elements to walks, by their public calls.
#![tactic(auto)]

#[cfg(test)]
mod elements;
#[cfg(test)]
mod extensions;
#[cfg(test)]
mod forms;
#[cfg(test)]
mod moves;
#[cfg(test)]
mod sums;
#[cfg(test)]
mod words;

//! Tests of plans and of the bytes of proofs by the public calls of proof_plan and proof_format. They
//! stand in a crate of their own since those of a crate prove the whole crate once more.
#![tactic(auto)]

#[cfg(test)]
mod expected;
#[cfg(test)]
mod heads;
#[cfg(test)]
mod plans;
#[cfg(test)]
mod texts;

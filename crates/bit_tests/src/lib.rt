//! Tests of bit_claim's walk and of ring_switch by their public calls, each walk beside its prover.
#![tactic(auto)]

#[cfg(test)]
mod bit_claims;
#[cfg(test)]
mod switches;

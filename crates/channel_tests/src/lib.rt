//! Tests of channel_products by its public calls, each walk beside its prover.
#![tactic(auto)]

#[cfg(test)]
mod balances;
#[cfg(test)]
mod products;

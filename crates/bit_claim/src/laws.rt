//! The laws of blocks, and of claims on their columns.

ghost use Rattle.sumcheck.specs.Machine.{Lawful};
ghost use Rattle.bit_claim.specs.Apart.{AreApart};
ghost use Rattle.bit_claim.specs.Batching.{batching};
ghost use Rattle.bit_claim.specs.Filled.{FillingsHaveBits};

/// Each block stands at a multiple of its own size and within the table, no two overlap, and each
/// committed column has exactly one.
pub fn blocks_stand_apart()
    ensures { AreApart }
{}

/// Claims on columns become one on the table of bits, and keep truth. Of the draws that join J claims
/// at most J - 1 make a false claim's sum true. In a filling of a shape the bits of committed columns
/// stand where claims on them ask for them. Does nothing.
pub fn batches_keep_truth()
    ensures lawful { Lawful batching }
    ensures filled { FillingsHaveBits }
{}

//! Counting, and lists as multisets.
//!
//! The definitions stand in `specs/`, the lemmas in `proofs/`. A function here does nothing: its
//! clause is a law over the definitions alone.

#![tactic(auto)]

ghost use Rattle.counting_laws.specs.Laws.{AreStable, ChainsAreCounted, CountsAdd, SameNumbers, SameProducts, SameTuples, SeveralAreCounted};

/// Bounds on how many numbers pass two tests add up.
pub fn counts_add()
    ensures { CountsAdd }
{}

/// Lists are equal as multisets exactly where one is the other in another order.
pub fn equal_multisets_are_permutations()
    ensures numbers { SameNumbers }
    ensures tuples { SameTuples }
{}

/// Equal multisets have equal products.
pub fn equal_multisets_have_equal_products()
    ensures { SameProducts }
{}

/// Multisets that aren't unequal are equal.
pub fn equal_multisets_are_stable()
    ensures { AreStable }
{}

/// Claims that don't all hold all pass for no more draws than one of them.
pub fn several_claims_are_counted()
    ensures { SeveralAreCounted }
{}

/// How many vectors of draws pass a chain that each draw alone seldom passes.
pub fn chains_are_counted()
    ensures { ChainsAreCounted }
{}

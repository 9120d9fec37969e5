//! The verdict on a proof.

use fri_fold::QueryFault;
use poly_forms::CheckKind;
use tower_field::B128;

/// What a proof is judged to be.
#[derive(Clone, Copy, PartialEq, Eq, Debug)]
pub enum Verified {
    /// All checks pass: so many challenges are drawn, and at most `total` of all together turn a false
    /// claim true.
    Accepted { draws: u32, total: u64 },
    Rejected(Refusal),
}

/// The first check that fails.
#[derive(Clone, Copy, PartialEq, Eq, Debug)]
pub enum Refusal {
    /// The two sides of an entry's check differ.
    Entry {
        entry: u32,
        check: CheckKind,
        left: B128,
        right: B128,
    },
    /// The path of an opening leads to another root, or a fold is another value.
    Query(QueryFault),
}

//! An entry of a plan.

use poly_forms::{CheckKind, DrawKind};

/// What a proof holds next, or what is drawn next.
#[derive(Clone, Copy, PartialEq, Eq, Debug)]
pub enum PlanEntry {
    /// The root of a word.
    Root,
    /// So many values, checked for something.
    Message { check: CheckKind, length: u32 },
    /// A challenge, of which at most `count` turn a false claim true.
    Draw { kind: DrawKind, count: u64 },
    /// The value of the packed table at the last point.
    Constant,
    /// The openings of all words.
    Queries,
}

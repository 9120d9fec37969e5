//! The entries of a reduction.

use poly_forms::{CheckKind, DrawKind};

/// A message or a draw that a reduction asks for.
#[derive(Clone, Copy, PartialEq, Eq, Debug)]
pub enum Entry {
    /// A message of `length` values, and what it is checked for.
    Message { check: CheckKind, length: u32 },
    /// A challenge, and how many of its values at most turn a false state true.
    Draw { kind: DrawKind, count: u64 },
}

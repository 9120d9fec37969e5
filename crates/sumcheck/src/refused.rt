//! A check that fails.

use poly_forms::CheckKind;
use tower_field::B128;

/// A check whose two sides differ.
#[derive(Clone, Copy, PartialEq, Eq, Debug)]
pub struct Refused {
    pub check: CheckKind,
    pub left: B128,
    pub right: B128,
}

//! A piece of a proof's file.

/// So many bytes of an entry, or of the opening for a round of a query.
#[derive(Clone, Copy, PartialEq, Eq, Debug)]
pub struct Piece {
    pub entry: u32,
    pub query: Option<u32>,
    pub round: u32,
    pub length: u32,
}

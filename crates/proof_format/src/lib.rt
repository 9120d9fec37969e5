//! The bytes of a proof: its head, and the pieces after it.

#![tactic(auto)]

mod head;
mod head_stop;
mod laws;
mod openings;
mod piece;
mod pieces;
mod proof_fault;
mod proof_text;
mod values;

pub use head::{Head, Rows, head_length, read_head};
pub use head_stop::HeadStop;
pub use laws::{
    heads_are_read_again, heads_are_spelled_again, parts_are_joined_again, parts_are_split_again,
    pieces_are_as_long, proofs_are_head_and_pieces, values_are_read_again,
    values_are_spelled_again,
};
pub use piece::Piece;
pub use pieces::{Pieces, body_pieces};
pub use proof_fault::ProofFault;
pub use proof_text::ProofText;
pub use values::read_values;

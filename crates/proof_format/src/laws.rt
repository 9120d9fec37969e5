//! What holds of heads, values, pieces and files: empty functions whose clauses are the laws.

ghost use Rattle.proof_format.specs.HeadLaws.{HeadsAreReadAgain, HeadsAreSpelledAgain};
ghost use Rattle.proof_format.specs.PieceLengths.{PiecesAreAsLong};
ghost use Rattle.proof_format.specs.Text.{PartsAreJoinedAgain, PartsAreSplitAgain, ProofsAreHeadAndPieces};
ghost use Rattle.proof_format.specs.Values.{ValuesAreReadAgain, ValuesAreSpelledAgain};

/// The pieces are as long together as the entries.
pub fn pieces_are_as_long()
    ensures { PiecesAreAsLong }
{}

/// The head and the pieces of a plan are together as long as the proof.
pub fn proofs_are_head_and_pieces()
    ensures { ProofsAreHeadAndPieces }
{}

/// Parts one after another are split again by their lengths.
pub fn parts_are_split_again()
    ensures { PartsAreSplitAgain }
{}

/// Bytes that were split into parts are joined again.
pub fn parts_are_joined_again()
    ensures { PartsAreJoinedAgain }
{}

/// The head of the rows of some tables is read as those rows, whatever follows.
pub fn heads_are_read_again()
    ensures { HeadsAreReadAgain }
{}

/// The head of the rows that a head without a fault tells is that head.
pub fn heads_are_spelled_again()
    ensures { HeadsAreSpelledAgain }
{}

/// The values that the bytes of values below 2^128 spell are those values.
pub fn values_are_read_again()
    ensures { ValuesAreReadAgain }
{}

/// The bytes of the values that bytes spell are those bytes.
pub fn values_are_spelled_again()
    ensures { ValuesAreSpelledAgain }
{}

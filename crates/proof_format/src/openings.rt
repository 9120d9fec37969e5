//! The pieces of the queries of an entry, one after another.

ghost use Rattle.std.specs.Prelude.{◌≡◌, ◌≤◌, []};
ghost use Rattle.table_shape.specs.Limits.{max_size_log};
ghost use Rattle.proof_plan.specs.Sizes.{query_count};
ghost use Rattle.proof_format.specs.Openings.{IsNext};
ghost use Rattle.proof_format.specs.Pieces.{queries_pieces};

use crate::piece::Piece;
use std::marker::Model;

/// How many queries a proof answers.
const QUERIES: u32 = 64;

/// The openings that are left of an entry, each query's over all rounds. Contracts see their pieces.
#[derive(Debug, Drop)]
pub struct Openings {
    entry: u32,
    rounds: u32,
    query: u32,
    round: u32,
}

impl Model for Openings {
    ghost use Rattle.std.specs.Prelude.{◌≤◌, ◌<◌, List};
    ghost use Rattle.table_shape.specs.Limits.{max_size_log};
    ghost use Rattle.proof_plan.specs.Sizes.{query_count};
    ghost use Rattle.proof_format.specs.declared.piece.Piece.{Piece};
    ghost use Rattle.proof_format.specs.Openings.{openings_left};

    ghost Value = { List Piece };

    ghost view = { λ left. openings_left left.entry left.rounds left.query left.round };

    ghost invariant = { λ left. record { few : left.rounds ≤ max_size_log; query : left.query < query_count; round : left.round ≤ left.rounds } };
}

impl Openings {
    /// No openings.
    pub fn none() -> Openings
        ensures { result ≡ [] }
    {
        Openings {
            entry: 0,
            rounds: 0,
            query: QUERIES - 1,
            round: 0,
        }
    }

    /// All openings of an entry, over so many rounds.
    pub fn all(entry: u32, rounds: u32) -> Openings
        requires { rounds ≤ max_size_log }
        ensures { result ≡ queries_pieces entry rounds 0 query_count }
    {
        Openings {
            entry,
            rounds,
            query: 0,
            round: 0,
        }
    }

    /// The piece of the next opening.
    pub fn next_piece(&mut self) -> Option<Piece>
        ensures { IsNext result self.old self.new }
    {
        if self.rounds == 0 {
            return None;
        }
        if self.round == self.rounds {
            if self.query == QUERIES - 1 {
                return None;
            }
            self.query += 1;
            self.round = 0;
        }
        let round = self.round;
        self.round += 1;
        Some(Piece {
            entry: self.entry,
            query: Some(self.query),
            round,
            length: 32 + 32 * (self.rounds - round + 1),
        })
    }
}

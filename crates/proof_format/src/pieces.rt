//! The pieces of a plan in the order of the file.

ghost use Rattle.std.specs.Prelude.{◌≡◌, None};
ghost use Rattle.std.specs.Iterator.{YieldsFirst, item_count};
ghost use Rattle.proof_format.specs.Pieces.{pieces};

use crate::openings::Openings;
use crate::piece::Piece;
use proof_plan::{Plan, PlanEntry};
use std::iter::FusedIterator;
use std::marker::Model;

/// The pieces that are left of a plan, in the order of the file. Contracts see the list of them. None of
/// its calls takes memory.
#[derive(Drop)]
pub struct Pieces<'a> {
    plan: &'a Plan,
    /// The entry after those whose pieces were begun.
    next: u32,
    openings: Openings,
}

impl<'a> Model for Pieces<'a> {
    ghost use Rattle.std.specs.Prelude.{List, ◌++◌};
    ghost use Rattle.proof_format.specs.declared.piece.Piece.{Piece};
    ghost use Rattle.proof_format.specs.Openings.{entries_left};

    ghost Value = { List Piece };

    ghost view = { λ left. left.openings ++ entries_left left.plan.now left.next };
}

/// The pieces of a plan, all after the head.
pub fn body_pieces<'a>(plan: &'a Plan) -> Pieces<'a>
    ensures { result ≡ pieces plan.now.packed_log 0 plan.now.entries }
{
    Pieces {
        plan,
        next: 0,
        openings: Openings::none(),
    }
}

fn whole_piece(entry: u32, length: u32) -> Piece
    ensures { result ≡ record { entry = entry; query = None; round = 0; length = length } }
{
    Piece {
        entry,
        query: None,
        round: 0,
        length,
    }
}

impl<'a> Iterator for Pieces<'a> {
    type Item = Piece;

    ghost next_gives = { YieldsFirst (λ left. left) };

    ghost remaining = { item_count (λ left. left) };

    fn next(&mut self) -> Option<Piece> {
        loop {
            if let Some(piece) = self.openings.next_piece() {
                return Some(piece);
            }
            if self.next >= self.plan.len() {
                return None;
            }
            let entry = self.next;
            self.next += 1;
            match self.plan.entry(entry) {
                PlanEntry::Root => return Some(whole_piece(entry, 32)),
                PlanEntry::Message { length, .. } => return Some(whole_piece(entry, 16 * length)),
                PlanEntry::Draw { .. } => {}
                PlanEntry::Constant => return Some(whole_piece(entry, 16)),
                PlanEntry::Queries => {
                    self.openings = Openings::all(entry, self.plan.packed_vars());
                }
            }
        }
    }
}

impl<'a> FusedIterator for Pieces<'a> {}

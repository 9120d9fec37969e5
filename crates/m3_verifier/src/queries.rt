//! The checks of all queries, from the bytes of their openings.

ghost use Rattle.std.specs.Prelude.{◌≡◌, ◌≢◌, ◌+◌, ◌<◌, ◌≤◌, ◌%◌, ◌^◌, length, take, drop, Err, IfErr, IfOk, MatchResult, None, Ok, OnOk, Some};
ghost use Rattle.transcript.specs.Transcript.{after_draw};
ghost use Rattle.proof_plan.specs.Sizes.{opening_length, query_count};
ghost use Rattle.m3_verifier.specs.declared.halt.Halt.TheVariants as halt;
ghost use Rattle.m3_verifier.specs.Queries.{after_draws, after_opening, first_check, fold_at, index_of, opening_fault, opening_halt, opening_in, openings, queries, root_at, short};

use crate::halt::Halt;
use additive_transform::Basis;
use fri_fold::QueryCheck;
use std::marker::Model;
use tower_field::{B128, Tower};
use transcript::Transcript;

/// How many queries a proof answers.
const QUERIES: u32 = 64;

/// What openings are checked against. A contract sees the rounds, the roots, the draws and the constant.
#[derive(Drop)]
pub(crate) struct Words<'a> {
    pub basis: &'a Basis,
    pub rounds: u32,
    pub roots: &'a [[u8; 32]],
    pub folds: &'a [B128],
    pub constant: B128,
}

impl<'a> Model for Words<'a> {
    ghost use Rattle.std.specs.Prelude.{◌≡◌, ◌+◌, ◌≤◌};
    ghost use Rattle.m3_verifier.specs.Queries.{Words};

    ghost Value = { Words };

    ghost view = { λ w. record { rounds = w.rounds; roots = w.roots.now; folds = w.folds.now; constant = w.constant } };

    ghost invariant = { λ w. record { basis : w.basis.now ≡ w.rounds + 2; low : w.rounds ≤ 22 } };
}

/// The next so many bytes, and those after them.
pub(crate) fn split_piece<'a>(bytes: &'a [u8], count: usize) -> Result<(&'a [u8], &'a [u8]), Halt>
    ensures sized { IfOk result (λ parts. length parts.0.now ≡ count) }
    ensures parts { MatchResult result (λ parts. (short count bytes.now ≡ None) × ((parts.0.now ≡ take count bytes.now) × (parts.1.now ≡ drop count bytes.now))) (λ h. (short count bytes.now ≡ Some halt.Short) × (h ≡ halt.Short)) }
{
    if bytes.len() < count {
        return Err(Halt::Short);
    }
    Ok(bytes.split_at(count))
}

impl<'a> Words<'a> {
    /// The root of a word; 32 bytes 0 past the last.
    fn root(&self, round: u32) -> [u8; 32]
        ensures { result ≡ root_at self.now round }
    {
        match self.roots.get(round as usize) {
            Some(root) => *root,
            None => [0; 32],
        }
    }

    /// The draw that folds a word; 0 past the last.
    fn fold(&self, round: u32) -> B128
        ensures { result ≡ fold_at self.now round }
    {
        match self.folds.get(round as usize) {
            Some(draw) => *draw,
            None => B128::ZERO,
        }
    }

    /// Checks the opening for the round that is due.
    fn check_opening(&self, round: u32, check: &mut QueryCheck, opening: &[u8]) -> Result<(), Halt>
        requires round { check.old.round ≡ round }
        requires due { round < self.now.rounds }
        requires index { check.old.index < 2 ^ (self.now.rounds + 1) }
        requires whole { 32 ≤ length opening.now }
        requires digests { length opening.now % 32 ≡ 0 }
        ensures fault { MatchResult result (λ _. opening_fault self.now check.old opening.now ≡ None) (λ h. opening_fault self.now check.old opening.now ≡ Some h) }
        ensures next { OnOk result (check.new ≡ after_opening self.now check.old opening.now) }
        ensures memory { IfErr result (λ h. h ≢ halt.NoMemory) }
    {
        let (first, path) = opening.split_at(32);
        let mut leaf = [0u8; 32];
        leaf.copy_from_slice(first);
        let root = self.root(round);
        let draw = self.fold(round);
        if let Err(fault) = check.opening(self.basis, &root, draw, &leaf, path) {
            return Err(Halt::Query(fault));
        }
        Ok(())
    }

    /// Checks the opening for the round that is due, of a word whose tree has `2 ^ height` leaves.
    /// What is left of the bytes.
    fn open<'b>(
        &self,
        round: u32,
        height: u32,
        check: &mut QueryCheck,
        bytes: &'b [u8],
    ) -> Result<&'b [u8], Halt>
        requires low { height ≤ 32 }
        requires round { check.old.round ≡ round }
        requires due { round < self.now.rounds }
        requires index { check.old.index < 2 ^ (self.now.rounds + 1) }
        ensures halt { MatchResult result (λ _. opening_halt self.now height check.old bytes.now ≡ None) (λ h. opening_halt self.now height check.old bytes.now ≡ Some h) }
        ensures next { OnOk result (check.new ≡ after_opening self.now check.old (opening_in height bytes.now)) }
        ensures left { IfOk result (λ left. left.now ≡ drop (opening_length height) bytes.now) }
        ensures memory { IfErr result (λ h. h ≢ halt.NoMemory) }
    {
        let (opening, left) = split_piece(bytes, 32 + 32 * height as usize)?;
        self.check_opening(round, check, opening)?;
        Ok(left)
    }

    /// Checks all openings of a query. What is left of the bytes.
    fn open_all<'b>(&self, query: u32, index: u64, bytes: &'b [u8]) -> Result<&'b [u8], Halt>
        requires { index < 2 ^ (self.now.rounds + 1) }
        ensures answer { MatchResult result (λ left. openings self.now self.now.rounds (first_check query index) bytes.now ≡ Ok left.now) (λ h. openings self.now self.now.rounds (first_check query index) bytes.now ≡ Err h) }
        ensures memory { IfErr result (λ h. h ≢ halt.NoMemory) }
    {
        let mut check = QueryCheck::begin(query, index);
        let mut left = bytes;
        for round in 0..self.rounds {
            left = self.open(round, self.rounds - round + 1, &mut check, left)?;
        }
        if let Err(fault) = check.end(self.constant) {
            return Err(Halt::Query(fault));
        }
        Ok(left)
    }

    /// The next index that is drawn.
    fn draw_index(&self, transcript: &mut Transcript) -> u64
        ensures index { result ≡ index_of self.now.rounds transcript.new }
        ensures low { result < 2 ^ (self.now.rounds + 1) }
        ensures state { transcript.new ≡ after_draw transcript.old }
    {
        let drawn = transcript.draw().number();
        (drawn % (1 << (self.rounds + 1))) as u64
    }

    /// Draws and checks all queries. What is left of the bytes.
    pub(crate) fn check_all<'b>(
        &self,
        transcript: &mut Transcript,
        bytes: &'b [u8],
    ) -> Result<&'b [u8], Halt>
        ensures state { OnOk result (transcript.new ≡ after_draws query_count transcript.old) }
        ensures answer { MatchResult result (λ left. queries self.now query_count 0 transcript.old bytes.now ≡ Ok left.now) (λ h. queries self.now query_count 0 transcript.old bytes.now ≡ Err h) }
        ensures memory { IfErr result (λ h. h ≢ halt.NoMemory) }
    {
        let mut left = bytes;
        for query in 0..QUERIES {
            let index = self.draw_index(transcript);
            left = self.open_all(query, index, left)?;
        }
        Ok(left)
    }
}

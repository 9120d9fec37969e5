//! The checks of one query, round by round.

ghost use Rattle.std.specs.Prelude.{◌≡◌, ◌↔◌, ◌<◌, ◌+◌, ◌*◌, ◌/◌, ◌%◌, ◌^◌, length, take, drop, IsOk, OnErr, OnOk, IfErr};
ghost use Rattle.std.specs.Int.{from_le_bytes, w128};
ghost use Rattle.fri_fold.specs.Honest.{OpeningsPass};

use crate::fold::fold_pair;
use additive_transform::Basis;
use hash_tree::root_of;
use std::marker::Model;
use tower_field::{B128, Tower};

/// Why a query is refused.
#[derive(Clone, Copy, PartialEq, Eq, Debug)]
pub enum QueryFault {
    /// The path of a leaf leads to another root.
    PathBad {
        query: u32,
        round: u32,
        kept: [u8; 32],
        found: [u8; 32],
    },
    /// The fold of the round before is another value.
    FoldBad {
        query: u32,
        round: u32,
        left: B128,
        right: B128,
    },
}

/// The check of one query, as far as it has come. A contract sees its number, its index, the round
/// that is due, and the fold of the round before.
#[derive(Drop)]
pub struct QueryCheck {
    query: u32,
    index: u64,
    round: u32,
    fold: B128,
}

impl Model for QueryCheck {
    ghost use Rattle.fri_fold.specs.Query.{Check};

    ghost Value = { Check };

    ghost view = { λ check. record { query = check.query; index = check.index; round = check.round; fold = check.fold } };
}

/// The two values of a leaf.
fn values_of(leaf: &[u8; 32]) -> (B128, B128)
    ensures first { result.0 ≡ from_le_bytes w128 (take 16 leaf.now) }
    ensures second { result.1 ≡ from_le_bytes w128 (drop 16 leaf.now) }
{
    let mut first = [0u8; 16];
    first.copy_from_slice(&leaf[..16]);
    let mut second = [0u8; 16];
    second.copy_from_slice(&leaf[16..]);
    (B128::from_bytes(first), B128::from_bytes(second))
}

impl QueryCheck {
    ghost use Rattle.fri_fold.specs.Query.{IsFault, IsLastFault, Passes, after, opened_of};

    /// The check before its first leaf.
    pub fn begin(query: u32, index: u64) -> QueryCheck
        ensures { result ≡ record { query = query; index = index; round = 0; fold = 0 } }
    {
        QueryCheck {
            query,
            index,
            round: 0,
            fold: B128::ZERO,
        }
    }

    // The value of two that the fold of the round before must be.
    fn opened(&self, first: B128, second: B128) -> B128
        requires after { 0 < self.now.round }
        requires low { self.now.round < 64 }
        ensures { result ≡ opened_of self.now first second }
    {
        if (self.index >> (self.round - 1)) % 2 == 1 {
            second
        } else {
            first
        }
    }

    /// Checks the leaf of the round that is due by its path, and then against the fold of the round
    /// before, and folds it. It takes no memory.
    pub fn opening(
        &mut self,
        basis: &Basis,
        root: &[u8; 32],
        r: B128,
        leaf: &[u8; 32],
        path: &[u8],
    ) -> Result<(), QueryFault>
        requires round { self.old.round < basis.now }
        requires index { 2 * self.old.index < 2 ^ basis.now }
        requires path { length path.now % 32 ≡ 0 }
        ensures ok { IsOk result ↔ Passes self.old root.now leaf.now path.now }
        ensures next { OnOk result (self.new ≡ after self.old r leaf.now) }
        ensures err { IfErr result (IsFault self.old root.now leaf.now path.now) }
        ensures kept { OnErr result (self.new ≡ self.old) }
    {
        let _ = basis.log_len();
        let place = self.index >> self.round;
        let found = root_of(place, leaf, path);
        if found != *root {
            return Err(QueryFault::PathBad {
                query: self.query,
                round: self.round,
                kept: *root,
                found,
            });
        }
        let (first, second) = values_of(leaf);
        if self.round > 0 && self.fold != self.opened(first, second) {
            return Err(QueryFault::FoldBad {
                query: self.query,
                round: self.round,
                left: self.fold,
                right: self.opened(first, second),
            });
        }
        let x0 = basis.point(self.round, 2 * place);
        self.fold = fold_pair(x0, first, second, r);
        self.round += 1;
        Ok(())
    }

    /// Checks the fold of the last round against the constant. It takes no memory.
    pub fn end(&self, constant: B128) -> Result<(), QueryFault>
        ensures ok { IsOk result ↔ (self.now.fold ≡ constant) }
        ensures err { IfErr result (IsLastFault self.now constant) }
    {
        if self.fold != constant {
            return Err(QueryFault::FoldBad {
                query: self.query,
                round: self.round,
                left: self.fold,
                right: constant,
            });
        }
        Ok(())
    }
}

/// The openings of a prover with all folds done pass: in each round the path leads to the root, and
/// the fold of the round is the value that the next round opens.
pub fn honest_openings()
    ensures { OpeningsPass }
{}

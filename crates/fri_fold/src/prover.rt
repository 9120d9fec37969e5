//! The words of a table, fold by fold, and their trees.

ghost use Rattle.std.specs.Prelude.{◌≡◌, ◌↔◌, ◌<◌, ◌≤◌, ◌+◌, ◌-◌, ◌*◌, ◌^◌, ◌++◌, [], ℕ, List, length, IfOk, IfSome, IsNone, OnErr, OnOk};
ghost use Rattle.cube_laws.specs.Extension.{extension};
ghost use Rattle.fri_fold.specs.Folds.{leaves};

use crate::fold::{fold_word, leaves_of};
use crate::no_memory::NoMemory;
use additive_transform::Basis;
use hash_tree::Tree;
use std::alloc::Global;
use std::marker::Model;
use tower_field::{B128, Tower};

/// A table of 2^m values, m from 1 to 22, and the trees of the words that its folds made. A contract
/// sees m, the table and the draws.
#[derive(Drop)]
pub struct FoldProver {
    alloc: Global,
    log: u32,
    values: Vec<B128>,
    draws: Vec<B128>,
    word: Vec<B128>,
    trees: Vec<Tree>,
}

impl Model for FoldProver {
    ghost use Rattle.fri_fold.specs.Prover.{Folding, IsFolding};

    ghost Value = { Folding };

    ghost view = { λ prover. record { log = prover.log; table = prover.values.items; draws = prover.draws.items } };

    ghost invariant = { λ prover. IsFolding prover.log prover.values.items prover.draws.items prover.word.items prover.trees.items };
}

/// The tree of a word.
fn tree_of(alloc: Global, word: &[B128], log: u32) -> Result<Tree, NoMemory>
    requires low { log ≤ 32 }
    requires len { length word.now ≡ 2 * 2 ^ log }
    ensures { IfOk result (λ tree. tree ≡ leaves word.now) }
{
    let made = leaves_of(alloc, word)?;
    Ok(Tree::build(alloc, made.as_slice())?)
}

impl FoldProver {
    ghost use Rattle.fri_fold.specs.Prover.{Extends, bound, leaves_at, newest_root, openings};

    /// Makes the word of a table at four times its length, and the word's tree. The prover keeps
    /// `alloc` for its later words.
    pub fn commit(alloc: Global, basis: &Basis, values: Vec<B128>) -> Result<FoldProver, NoMemory>
        requires log { 3 ≤ basis.now }
        requires len { length values.items ≡ 2 ^ (basis.now - 2) }
        ensures { IfOk result (λ prover. prover ≡ record { log = basis.now - 2; table = values.items; draws = [] }) }
    {
        let log = basis.log_len() - 2;
        let word = basis.encode(alloc, values.as_slice(), 2)?;
        let tree = tree_of(alloc, word.as_slice(), log + 1)?;
        let mut trees: Vec<Tree> = Vec::new(alloc);
        trees.push(tree)?;
        Ok(FoldProver {
            alloc,
            log,
            values,
            draws: Vec::new(alloc),
            word,
            trees,
        })
    }

    /// The root of the newest tree. It takes no memory.
    pub fn root(&self) -> [u8; 32]
        requires { length self.now.draws < self.now.log }
        ensures { result ≡ newest_root self.now }
    {
        self.tree(self.draws.len() as u32).root()
    }

    /// The tree of the word after as many folds as `round` says. It takes no memory.
    pub fn tree(&self, round: u32) -> &Tree
        requires round { round < self.now.log }
        requires folds { round ≤ length self.now.draws }
        ensures { result.now ≡ leaves_at self.now round }
    {
        &self.trees[round as usize]
    }

    /// Folds the newest word at a draw. The answer is the root of the new word's tree, or `None`
    /// after the last fold. After `NoMemory` nothing has changed.
    pub fn bind(&mut self, basis: &Basis, r: B128) -> Result<Option<[u8; 32]>, NoMemory>
        requires folds { length self.old.draws < self.old.log }
        requires basis { basis.now ≡ self.old.log + 2 }
        ensures ok { OnOk result (self.new ≡ bound self.old r) }
        ensures last { IfOk result (λ answer. IsNone answer ↔ (length self.old.draws + 1 ≡ self.old.log)) }
        ensures root { IfOk result (λ answer. IfSome answer (λ root. root ≡ newest_root (bound self.old r))) }
        ensures err { OnErr result (self.new ≡ self.old) }
    {
        let round = self.draws.len() as u32;
        let word = fold_word(self.alloc, basis, round, self.word.as_slice(), r)?;
        if round + 1 == self.log {
            self.draws.push(r)?;
            self.word = word;
            return Ok(None);
        }
        let tree = tree_of(self.alloc, word.as_slice(), self.log - round)?;
        let root = tree.root();
        self.trees.reserve(1)?;
        self.draws.push(r)?;
        match self.trees.push(tree) {
            Ok(()) => {}
            Err(_) => unreachable!(),
        }
        self.word = word;
        Ok(Some(root))
    }

    /// Appends the leaf and the path of a query in each round. After `NoMemory` the list begins with
    /// its old items, and may hold some of the new ones.
    pub fn open_query(&self, index: u64, out: &mut Vec<u8>) -> Result<(), NoMemory>
        requires index { index < 2 ^ (self.now.log + 1) }
        requires folds { length self.now.draws ≡ self.now.log }
        ensures ok { OnOk result (out.new.items ≡ out.old.items ++ openings self.now index self.now.log) }
        ensures begins { Extends out.old.items out.new.items }
    {
        for round in 0..self.log {
            let place = index >> round;
            let tree = self.tree(round);
            out.extend_from_slice(tree.leaf(place))?;
            let path = tree.path(self.alloc, place)?;
            out.extend_from_slice(path.as_slice())?;
        }
        Ok(())
    }

    /// The one value that is left. It takes no memory.
    pub fn constant(&self) -> B128
        requires { length self.now.draws ≡ self.now.log }
        ensures { result ≡ extension self.now.table self.now.draws }
    {
        self.word[0]
    }
}

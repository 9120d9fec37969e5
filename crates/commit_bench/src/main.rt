//! Commitments, for timing. By the first word, over 2^N values or leaves: the root of a tree
//! (`tree`), as many digests by bare calls (`digests`), the word of a table (`encode`), or a table's
//! word, its tree and all folds with theirs (`folds`). Prints a number or a digest.

#![tactic(auto)]

ghost use Rattle.std.specs.Prelude.{◌≡◌, ◌≤◌, ◌^◌, length, IfOk};

use additive_transform::Basis;
use fri_fold::{FoldProver, NoMemory};
use hash_tree::Tree;
use sha2::{Digest, Sha256};
use std::alloc::Global;
use std::{env, io};
use tower_field::{B128, Tower};

fn leaves(alloc: Global, log: u32) -> Result<Vec<[u8; 32]>, NoMemory>
    requires { log ≤ 22 }
    ensures { IfOk result (λ leaves. length leaves.items ≡ 2 ^ log) }
{
    let mut leaves: Vec<[u8; 32]> = Vec::new(alloc);
    'leaves: for i in 0..1usize << log {
        leaves.push([(i % 251) as u8; 32])?;
    }
    Ok(leaves)
}

fn tree_root(alloc: Global, log: u32) -> Result<[u8; 32], NoMemory>
    requires { log ≤ 22 }
{
    let leaves = leaves(alloc, log)?;
    let tree = Tree::build(alloc, leaves.as_slice())?;
    Ok(tree.root())
}

fn digests(log: u32) -> [u8; 32]
    requires { log ≤ 22 }
{
    let mut leaf = [0u8; 33];
    let mut node = [1u8; 65];
    for _ in 0..1usize << log {
        let digest = Sha256::digest(&leaf);
        leaf[1..].copy_from_slice(&digest);
        let digest = Sha256::digest(&node);
        node[1..33].copy_from_slice(&digest);
    }
    Sha256::digest(&node)
}

fn table(alloc: Global, log: u32) -> Result<Vec<B128>, NoMemory>
    requires { log ≤ 22 }
    ensures { IfOk result (λ values. length values.items ≡ 2 ^ log) }
{
    let mut values: Vec<B128> = Vec::new(alloc);
    'values: for i in 0..1usize << log {
        values.push(B128::from_bytes([(i % 251) as u8; 16]))?;
    }
    Ok(values)
}

fn encoded(alloc: Global, log: u32) -> Result<B128, NoMemory>
    requires { log ≤ 22 }
{
    let values = table(alloc, log)?;
    let basis = Basis::new(alloc, log + 2)?;
    let word = basis.encode(alloc, values.as_slice(), 2)?;
    let mut sum = B128::ZERO;
    for (position, value) in word.iter().enumerate() {
        if position % 3 == 0 {
            sum = sum + *value;
        }
    }
    Ok(sum)
}

fn folded(alloc: Global, log: u32) -> Result<B128, NoMemory>
    requires low { 1 ≤ log }
    requires high { log ≤ 22 }
{
    let values = table(alloc, log)?;
    let basis = Basis::new(alloc, log + 2)?;
    let mut prover = FoldProver::commit(alloc, &basis, values)?;
    'folds: for j in 0..log {
        let _root = prover.bind(&basis, B128::from_bytes([j as u8 + 1; 16]))?;
    }
    Ok(prover.constant())
}

fn main(rt: HostRuntime) -> io::Result<()> {
    let mut words = env::args(&rt)?;
    let _program = words.next();
    let Some(kind) = words.next() else {
        return Ok(());
    };
    let log = match words.next() {
        Some(word) => word.as_str().parse::<u32>().unwrap_or(1),
        None => 1,
    };
    if log < 1 || log > 22 {
        return Ok(());
    }
    if kind.as_str() == "digests" {
        let digest = digests(log);
        return println!(rt; "{digest:?}");
    }
    if kind.as_str() == "tree" {
        return match tree_root(rt.alloc(), log) {
            Ok(root) => println!(rt; "{root:?}"),
            Err(NoMemory) => println!(rt; "no memory"),
        };
    }
    let value = if kind.as_str() == "encode" {
        encoded(rt.alloc(), log)
    } else {
        folded(rt.alloc(), log)
    };
    match value {
        Ok(value) => {
            let number = value.number();
            println!(rt; "{number}")
        }
        Err(NoMemory) => println!(rt; "no memory"),
    }
}

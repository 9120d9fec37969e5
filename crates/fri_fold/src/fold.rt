//! The fold of a pair, and of a word.

ghost use Rattle.std.specs.Prelude.{◌≡◌, ◌<◌, ◌≤◌, ◌+◌, ◌*◌, ◌^◌, ◌++◌, ℕ, length, IfOk};
ghost use Rattle.std.specs.Int.{to_le_bytes, w128};
ghost use Rattle.fri_fold.specs.Folds.{folded, leaves};
ghost use Rattle.word_laws.specs.CodeWord.{fold_pair};

use crate::no_memory::NoMemory;
use additive_transform::Basis;
use std::alloc::Global;
use tower_field::{B128, Tower};

/// The fold at `r` of two neighbouring values, `x0` being the point of the first: two products.
/// It takes no memory.
#[tactic(auto, using(crate::proofs::Pairs::fold_pair_by_two))]
pub fn fold_pair(x0: B128, f0: B128, f1: B128, r: B128) -> B128
    ensures { result ≡ fold_pair r x0 f0 f1 }
{
    let sum = f0 + f1;
    let even = f0 + x0 * sum;
    even + r * (even + sum)
}

/// The fold of a word.
pub(crate) fn fold_word(
    alloc: Global,
    basis: &Basis,
    round: u32,
    word: &[B128],
    r: B128,
) -> Result<Vec<B128>, NoMemory>
    requires round { round < basis.now }
    requires word { length word.now * 2 ^ round ≤ 2 ^ basis.now }
    ensures { IfOk result (λ made. made.items ≡ folded round r word.now) }
{
    let half = word.len() / 2;
    let mut made: Vec<B128> = Vec::with_capacity(alloc, half)?;
    for p in 0..half {
        let x0 = basis.point(round, 2 * p as u64);
        made.push(fold_pair(x0, word[2 * p], word[2 * p + 1], r))?;
    }
    Ok(made)
}

/// The leaf of two values.
fn leaf_of(first: B128, second: B128) -> [u8; 32]
    ensures { result ≡ to_le_bytes w128 first ++ to_le_bytes w128 second }
{
    let mut leaf = [0u8; 32];
    leaf[..16].copy_from_slice(&first.to_bytes());
    leaf[16..].copy_from_slice(&second.to_bytes());
    leaf
}

/// The leaves of a word.
pub(crate) fn leaves_of(alloc: Global, word: &[B128]) -> Result<Vec<[u8; 32]>, NoMemory>
    ensures { IfOk result (λ made. made.items ≡ leaves word.now) }
{
    let half = word.len() / 2;
    let mut made: Vec<[u8; 32]> = Vec::with_capacity(alloc, half)?;
    for p in 0..half {
        made.push(leaf_of(word[2 * p], word[2 * p + 1]))?;
    }
    Ok(made)
}

//! A table of bits in words, and the prover that has it.

ghost use Rattle.std.specs.Prelude.{◌≡◌, ◌^◌, length, IfOk, IsTrue};
ghost use Rattle.table_shape.specs.Placement.{places_log};
ghost use Rattle.tensor_laws.specs.Tensor.{bits_of_table};
ghost use Rattle.bit_claim.specs.BatchFollowing.{IsNew};

use bit_claim::{BitProver, Placement};
use reduction_inputs::{Lack, push_bits};
use std::alloc::Global;
use tower_field::{B128, Tower};

/// The number of bits, the lowest first.
fn word_of(bits: &[B128]) -> Option<B128> {
    let mut number = 0u128;
    for bit in bits.iter().rev() {
        number = number.wrapping_mul(2) | bit.number() & 1;
    }
    B128::from_number(number)
}

/// Whether two lists are the same.
fn are_equal(xs: &[B128], ys: &[B128]) -> bool
    ensures { IsTrue result → xs.now ≡ ys.now }
{
    if xs.len() != ys.len() {
        return false;
    }
    for i in 0..xs.len() {
        if xs[i] != ys[i] {
            return false;
        }
    }
    true
}

/// The words of a table of bits, where it has those of whole words.
pub fn words_of(alloc: Global, table: &[B128]) -> Result<Vec<B128>, Lack>
    ensures { IfOk result (λ words. bits_of_table 128 words.items ≡ table.now) }
{
    let mut words = Vec::new(alloc);
    for w in 0..table.len() / 128 {
        let first = 128 * w;
        let Some(word) = word_of(&table[first..first + 128]) else {
            return Err(Lack);
        };
        if words.push(word).is_err() {
            return Err(Lack);
        }
    }
    let mut bits = Vec::new(alloc);
    push_bits(7, words.as_slice(), &mut bits)?;
    if !are_equal(bits.as_slice(), table) {
        return Err(Lack);
    }
    Ok(words)
}

/// The prover that has the table of bits, in words or with an element for each.
pub fn prover_of(
    alloc: Global,
    placement: &Placement,
    claims: u32,
    table: &[B128],
    packed: bool,
) -> Result<BitProver, Lack>
    requires whole { length table.now ≡ 2 ^ places_log placement.now }
    ensures new { IfOk result (λ prover. IsNew placement.now prover) }
    ensures room { IfOk result (λ prover. prover.room ≡ claims) }
    ensures bits { IfOk result (λ prover. prover.bits ≡ table.now) }
{
    if packed {
        let words = words_of(alloc, table)?;
        return match BitProver::begin_packed(alloc, placement, claims, words.as_slice()) {
            Ok(prover) => Ok(prover),
            Err(_) => Err(Lack),
        };
    }
    match BitProver::begin(alloc, placement, claims, table) {
        Ok(prover) => Ok(prover),
        Err(_) => Err(Lack),
    }
}

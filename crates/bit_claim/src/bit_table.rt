//! The table of all bits as a prover holds it.

ghost use Rattle.std.specs.Prelude.{◌≡◌, ◌<◌, ◌≤◌, ◌++◌, IfErr, IfOk};
ghost use Rattle.cube_laws.specs.Extension.{bit};
ghost use Rattle.cube_laws.specs.Sums.{tabulate};
ghost use Rattle.tensor_laws.specs.Tensor.{bits_of_table};

use crate::no_memory::NoMemory;
use std::alloc::Global;
use std::marker::Model;
use tower_field::{B128, Tower};

#[derive(Drop)]
enum Held {
    /// An element for each bit.
    Elements(Vec<B128>),
    /// 128 bits in each word, the lowest first.
    Words(Vec<B128>),
}

/// The table of bits. Contracts see the list of them, however they are held.
#[derive(Drop)]
pub struct BitTable {
    held: Held,
}

impl Model for BitTable {
    ghost use Rattle.std.specs.Prelude.{List, ℕ};

    ghost Value = { List ℕ };

    ghost use Rattle.bit_claim.specs.BitTable.{bits_held};

    ghost view = { λ t. bits_held t.held };
}

impl BitTable {
    /// An element for each bit.
    pub fn of_elements(bits: Vec<B128>) -> BitTable
        ensures { result ≡ bits.items }
    {
        BitTable {
            held: Held::Elements(bits),
        }
    }

    /// The bits of words, 128 of each, the lowest first.
    pub fn of_words(words: Vec<B128>) -> BitTable
        ensures { result ≡ bits_of_table 128 words.items }
    {
        BitTable {
            held: Held::Words(words),
        }
    }

    /// The words, or the same table where it is not packed.
    pub fn try_into_words(self) -> Result<Vec<B128>, BitTable>
        ensures words { IfOk result (λ words. self ≡ bits_of_table 128 words.items) }
        ensures same { IfErr result (λ bits. bits ≡ self) }
    {
        let BitTable { held } = self;
        match held {
            Held::Words(words) => Ok(words),
            Held::Elements(bits) => Err(BitTable::of_elements(bits)),
        }
    }

    /// An element for each bit, in the same memory where the bits are held so.
    pub fn into_elements(self, alloc: Global) -> Result<Vec<B128>, NoMemory>
        ensures { IfOk result (λ bits. bits.items ≡ self) }
    {
        let BitTable { held } = self;
        match held {
            Held::Elements(bits) => Ok(bits),
            Held::Words(words) => unpacked(alloc, 128, words.as_slice()),
        }
    }
}

/// An element for each of the lowest `width` bits of words.
fn unpacked(alloc: Global, width: u32, words: &[B128]) -> Result<Vec<B128>, NoMemory>
    requires { width ≤ 128 }
    ensures { IfOk result (λ bits. bits.items ≡ bits_of_table width words.now) }
{
    let Some(count) = words.len().checked_mul(width as usize) else {
        return Err(NoMemory);
    };
    let mut bits = Vec::with_capacity(alloc, count)?;
    for word in words {
        push_bits(width, *word, &mut bits)?;
    }
    Ok(bits)
}

/// Appends the lowest bits of a word.
fn push_bits(width: u32, word: B128, bits: &mut Vec<B128>) -> Result<(), NoMemory>
    requires { width ≤ 128 }
    ensures { IfOk result (λ _. bits.new.items ≡ bits.old.items ++ tabulate width (bit word)) }
{
    let number = word.number();
    for u in 0..width {
        if bits.push(bit_at(number, u)).is_err() {
            return Err(NoMemory);
        }
    }
    Ok(())
}

/// Bit `u` of a number.
fn bit_at(number: u128, u: u32) -> B128
    requires { u < 128 }
    ensures { result ≡ bit number u }
{
    if (number >> u) % 2 == 1 {
        B128::ONE
    } else {
        B128::ZERO
    }
}

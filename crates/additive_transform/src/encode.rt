//! Words of tables, by butterflies in place.

ghost use Rattle.std.specs.Prelude.{◌≡◌, ◌<◌, ◌≤◌, ◌+◌, ◌*◌, ◌^◌, ◌++◌, bit_xor, length, IfOk, OnOk};
ghost use Rattle.additive_transform.specs.Word.{CanEncode, IsWord};
ghost use Rattle.cube_laws.specs.Sums.{tabulate};
ghost use Rattle.word_laws.specs.CodeWord.{word};
ghost use Rattle.word_laws.specs.Encoding.{encode, mix};

use crate::basis::Basis;
use crate::log::log_of;
use crate::no_memory::NoMemory;
use std::alloc::Global;
use tower_field::{B128, Tower};

/// One layer of butterflies on the two halves of a block, whose point is `point`.
fn butterflies(low: &mut [B128], high: &mut [B128], point: B128)
    requires { length low.old ≡ length high.old }
    ensures low { low.new ≡ mix point low.old high.old }
    ensures high { high.new ≡ mix (bit_xor point 1) low.old high.old }
{
    for i in 0..low.len() {
        let first = low[i];
        let second = high[i];
        let sum = first + point * second;
        low[i] = sum;
        high[i] = sum + second;
    }
}

impl Basis {
    /// Makes a block's values of a table's, in place, from the highest variable down.
    fn encode_block(&self, values: &mut [B128], level: u32, block: u64)
        requires len { length values.old ≡ 2 ^ level }
        requires block { (block + 1) * 2 ^ level ≤ 2 ^ self.now }
        ensures { values.new ≡ encode level block values.old }
    {
        if level == 0 {
            return;
        }
        let _ = self.log_len();
        let below = level - 1;
        let point = self.hat(below, block << level);
        let half = values.len() / 2;
        let (low, high) = values.split_at_mut(half);
        butterflies(low, high, point);
        self.encode_block(low, below, 2 * block);
        self.encode_block(high, below, 2 * block + 1);
    }

    /// Appends the values of a block to a word.
    fn append_block(
        &self,
        word: &mut Vec<B128>,
        values: &[B128],
        level: u32,
        block: u64,
    ) -> Result<(), NoMemory>
        requires len { length values.now ≡ 2 ^ level }
        requires block { (block + 1) * 2 ^ level ≤ 2 ^ self.now }
        ensures { OnOk result (word.new.items ≡ word.old.items ++ encode level block values.now) }
    {
        let done = word.len();
        word.extend_from_slice(values)?;
        self.encode_block(&mut word.as_mut_slice()[done..], level, block);
        Ok(())
    }

    /// The word of a table of 2^m values, at the first 2^(m + `log_rate`) positions.
    pub fn encode(
        &self,
        alloc: Global,
        values: &[B128],
        log_rate: u32,
    ) -> Result<Vec<B128>, NoMemory>
        requires { CanEncode self.now values.now log_rate }
        ensures { IfOk result (λ made. IsWord values.now log_rate made.items) }
    {
        let _ = self.log_len();
        let log = log_of(values.len());
        let blocks = 1u64 << log_rate;
        let mut word: Vec<B128> = Vec::with_capacity(alloc, values.len() << log_rate)?;
        for block in 0..blocks {
            self.append_block(&mut word, values, log, block)?;
        }
        Ok(word)
    }
}

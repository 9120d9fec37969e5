//! Sums of the elements whose words have a bit, for each of 128 bits.

ghost use Rattle.std.specs.Prelude.{◌≡◌, ℕ, ◌+◌, ◌*◌, ◌^◌, ◌<◌, ◌≤◌, length, slice_index, bit_xor, IfOk};
ghost use Rattle.tower_laws.specs.Tower.{mul};
ghost use Rattle.cube_laws.specs.Extension.{bit, dot};
ghost use Rattle.cube_laws.specs.Sums.{sum_to, tabulate};
ghost use Rattle.tensor_laws.specs.Tensor.{column};
ghost use Rattle.packed_words.specs.Bytes.{bucket, byte_of, is_byte};

use crate::element::element_of;
use crate::no_memory::NoMemory;
use std::alloc::Global;
use std::marker::Model;
use tower_field::{B128, Tower, numbers_fit};

/// A bucket for each byte at each of the 16 places of a word, for sums over any lists.
///
/// They take 64 KiB, once. What they hold between two calls is nothing to a contract.
#[derive(Drop)]
pub struct Buckets {
    buckets: Vec<B128>,
}

impl Model for Buckets {
    ghost Value = { Unit {0} };

    ghost view = { λ _. tt };

    ghost invariant = { λ b. length b.buckets.items ≡ 4096 };
}

/// Adds an element to the bucket of each byte of a word.
#[inline(always)]
fn add_to_each(buckets: &mut [B128], element: B128, word: u128)
    requires { length buckets.old ≡ 4096 }
    ensures { (i b : ℕ) → i < 16 → b < 256 → slice_index buckets.new (256 * i + b) ≡ bit_xor (slice_index buckets.old (256 * i + b)) (mul (is_byte b (byte_of i word)) element) }
{
    for place in 0..16 {
        let k = 256 * place + (word >> (8 * place) & 255) as usize;
        buckets[k] = buckets[k] + element;
    }
}

/// The sum of the upper half of the first 2^(bit + 1) buckets from `first` on; that half is added
/// to the lower one.
fn add_upper_half(buckets: &mut [B128], first: usize, bit: u32) -> B128
    requires bit_exists { bit < 8 }
    requires within { first + 2 ^ (bit + 1) ≤ length buckets.old }
    ensures sum { result ≡ sum_to (2 ^ bit) (λ b. slice_index buckets.old (first + (2 ^ bit + b))) }
    ensures added { (b : ℕ) → b < 2 ^ bit → slice_index buckets.new (first + b) ≡ bit_xor (slice_index buckets.old (first + b)) (slice_index buckets.old (first + (2 ^ bit + b))) }
    ensures after { (k : ℕ) → first + 2 ^ bit ≤ k → slice_index buckets.new k ≡ slice_index buckets.old k }
{
    let half = 1usize << bit;
    let mut sum = B128::ZERO;
    for b in 0..half {
        let upper = buckets[first + (half + b)];
        sum = upper + sum;
        buckets[first + b] = buckets[first + b] + upper;
    }
    sum
}

/// The sums for the eight bits of the bytes at one place.
fn sums_of_place(buckets: &mut [B128], place: usize) -> [B128; 8]
    requires place_exists { place < 16 }
    requires all { length buckets.old ≡ 4096 }
    ensures sums { (k : ℕ) → k < 8 → slice_index result k ≡ sum_to 256 (λ b. mul (bit b k) (slice_index buckets.old (256 * place + b))) }
    ensures after { (k : ℕ) → 256 * (place + 1) ≤ k → slice_index buckets.new k ≡ slice_index buckets.old k }
{
    let mut sums = [B128::ZERO; 8];
    for step in 0..8 {
        let bit = 7 - step;
        sums[bit] = add_upper_half(buckets, 256 * place, bit as u32);
    }
    sums
}

/// Writes 0 into each bucket.
fn clear(buckets: &mut [B128])
    ensures { (k : ℕ) → slice_index buckets.new k ≡ 0 }
{
    for bucket in buckets.iter_mut() {
        *bucket = B128::ZERO;
    }
}

/// Puts into each bucket the sum of the weights whose word has its byte.
fn fill(buckets: &mut [B128], weights: &[B128], words: &[u128])
    requires { length buckets.old ≡ 4096 }
    ensures { (i b : ℕ) → i < 16 → b < 256 → slice_index buckets.new (256 * i + b) ≡ bucket i b words.now weights.now }
{
    clear(buckets);
    for k in 0..weights.len().min(words.len()) {
        add_to_each(buckets, weights[k], words[k]);
    }
}

/// The same, for words that are elements.
fn fill_by_elements(buckets: &mut [B128], weights: &[B128], words: &[B128])
    requires { length buckets.old ≡ 4096 }
    ensures { (i b : ℕ) → i < 16 → b < 256 → slice_index buckets.new (256 * i + b) ≡ bucket i b words.now weights.now }
{
    clear(buckets);
    for k in 0..weights.len().min(words.len()) {
        add_to_each(buckets, weights[k], words[k].number());
    }
}

/// Writes the eight sums of one place among those of all.
fn put_sums(all: &mut [B128; 128], place: usize, sums: [B128; 8])
    requires { place < 16 }
    ensures long { length all.new ≡ 128 }
    ensures here { (k : ℕ) → k < 8 → slice_index all.new (8 * place + k) ≡ slice_index sums k }
    ensures before { (k : ℕ) → k < 8 * place → slice_index all.new k ≡ slice_index all.old k }
{
    for bit in 0..8 {
        all[8 * place + bit] = sums[bit];
    }
}

/// The sums for the 128 bits, out of the buckets.
fn sums_of_places(buckets: &mut [B128]) -> [B128; 128]
    requires { length buckets.old ≡ 4096 }
    ensures long { length result ≡ 128 }
    ensures sums { (i k : ℕ) → i < 16 → k < 8 → slice_index result (8 * i + k) ≡ sum_to 256 (λ b. mul (bit b k) (slice_index buckets.old (256 * i + b))) }
{
    let mut all = [B128::ZERO; 128];
    for place in 0..16 {
        let sums = sums_of_place(buckets, place);
        put_sums(&mut all, place, sums);
    }
    all
}

/// The sums for the 128 bits, by the buckets of the bytes.
fn sums_by_buckets(buckets: &mut Vec<B128>, weights: &[B128], words: &[u128]) -> [B128; 128]
    requires { length buckets.old.items ≡ 4096 }
    ensures long { length buckets.new.items ≡ 4096 }
    ensures sums { result ≡ tabulate 128 (column weights.now words.now) }
{
    let buckets = buckets.as_mut_slice();
    fill(buckets, weights, words);
    sums_of_places(buckets)
}

/// The same, for words that are elements.
fn columns_by_buckets(buckets: &mut Vec<B128>, weights: &[B128], words: &[B128]) -> [B128; 128]
    requires { length buckets.old.items ≡ 4096 }
    ensures long { length buckets.new.items ≡ 4096 }
    ensures sums { result ≡ tabulate 128 (column weights.now words.now) }
{
    let buckets = buckets.as_mut_slice();
    fill_by_elements(buckets, weights, words);
    sums_of_places(buckets)
}

/// The sum of the products of 128 elements with the powers 2^0, 2^1 and so on.
fn under_powers(sums: &[B128; 128]) -> B128
    ensures { result ≡ sum_to 128 (λ u. mul (slice_index sums.now u) (2 ^ u)) }
{
    let mut total = B128::ZERO;
    for u in 0..128usize {
        total = sums[u] * element_of(1 << u) + total;
    }
    total
}

impl Buckets {
    /// All are empty.
    pub fn new(alloc: Global) -> Result<Buckets, NoMemory> {
        let mut buckets = Vec::with_capacity(alloc, 4096)?;
        for k in 0..4096u32 {
            let _ = k;
            buckets.push(B128::ZERO)?;
        }
        Ok(Buckets { buckets })
    }

    /// For each of 128 bits the sum of the weights whose word has it.
    pub fn bit_sums(&mut self, weights: &[B128], words: &[u128]) -> [B128; 128]
        ensures { result ≡ tabulate 128 (column weights.now words.now) }
    {
        sums_by_buckets(&mut self.buckets, weights, words)
    }

    /// The same for elements, each the word of its number.
    pub fn columns(&mut self, weights: &[B128], table: &[B128]) -> [B128; 128]
        ensures { result ≡ tabulate 128 (column weights.now table.now) }
    {
        columns_by_buckets(&mut self.buckets, weights, table)
    }

    /// The inner product of two lists, of the longer one as much as the other has.
    pub fn dot(&mut self, xs: &[B128], ys: &[B128]) -> B128
        ensures { result ≡ dot xs.now ys.now }
    {
        numbers_fit(ys);
        under_powers(&self.columns(xs, ys))
    }
}

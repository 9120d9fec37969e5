//! The values of one column, in words.

ghost use Rattle.std.specs.Prelude.{◌≡◌, ℕ, ◌+◌, ◌^◌, ◌*◌, ◌/◌, ◌%◌, ◌<◌, ◌≤◌, bit_xor, length, slice_index, slice_set, IfOk};
ghost use Rattle.tower_laws.specs.Tower.{mul};
ghost use Rattle.cube_laws.specs.Sums.{sum_to, tabulate};
ghost use Rattle.packed_words.specs.Packing.{per_word};
ghost use Rattle.tower_laws.specs.Digits.{digits};
ghost use Rattle.column_store.specs.Digits.{number_of_bytes};

use packed_words::{lane_of, set_lane};
use std::alloc::{AllocError, Global};
use std::marker::Model;

/// Values of `2 ^ level` bits each, packed into words of 128 bits, the first in the lowest bits.
#[derive(Debug, Drop)]
pub struct Column {
    level: u32,
    count: usize,
    words: Vec<u128>,
}

impl Model for Column {
    ghost use Rattle.column_store.specs.Column.{ColumnValues};

    ghost Value = { ColumnValues };

    ghost use Rattle.column_store.specs.Column.{IsPacked, packed_values};

    ghost view = { λ c. record { level = c.level; values = packed_values c.level c.count c.words.items } };

    ghost invariant = { λ c. IsPacked c.level c.count c.words.items };
}

impl Column {
    /// Zeros, as many values of a level.
    pub(crate) fn zeros(alloc: Global, level: u32, count: usize) -> Result<Column, AllocError>
        requires is_a_level { level ≤ 7 }
        requires few { count ≤ 2 ^ 32 }
        ensures { IfOk result (λ made. made ≡ record { level = level; values = tabulate count (λ _. 0) }) }
    {
        let words = vec![in alloc; 0u128; words_for(level, count)]?;
        Ok(Column {
            level,
            count,
            words,
        })
    }

    /// How many bits a value has is `2 ^ level`.
    pub fn level(&self) -> u32
        ensures level { result ≡ self.now.level }
        ensures is_a_level { result ≤ 7 }
    {
        self.level
    }

    /// How many values there are.
    pub fn len(&self) -> usize
        ensures { result ≡ length self.now.values }
    {
        self.count
    }

    /// The number of the value at a position, and 0 past the last.
    #[inline]
    pub fn get(&self, position: usize) -> u128
        ensures { result ≡ slice_index self.now.values position }
    {
        if position < self.count {
            lane_of(self.words.as_slice(), self.level, position)
        } else {
            0
        }
    }

    /// The values of a block of `2 ^ log` as one number, the first in the lowest bits.
    #[inline]
    pub(crate) fn wide(&self, log: u32, block: usize) -> u128
        requires fits { self.now.level + log ≤ 7 }
        requires within { (block + 1) * 2 ^ log ≤ length self.now.values }
        ensures { result ≡ sum_to (2 ^ log) (λ u. mul (2 ^ (u * 2 ^ self.now.level)) (slice_index self.now.values (block * 2 ^ log + u))) }
    {
        lane_of(self.words.as_slice(), self.level + log, block)
    }

    /// Puts a value at a position.
    #[inline]
    pub(crate) fn set(&mut self, position: usize, number: u128)
        requires within { position < length self.old.values }
        requires fits { number < 2 ^ (2 ^ self.old.level) }
        ensures { self.new ≡ record self.old { values = slice_set self.old.values position number } }
    {
        set_lane(self.words.as_mut_slice(), self.level, position, number);
    }

    /// Makes each value 0.
    pub(crate) fn clear(&mut self)
        ensures { self.new ≡ record self.old { values = tabulate (length self.old.values) (λ _. 0) } }
    {
        clear_words(self.words.as_mut_slice());
    }

    /// Adds the value of another column of the same level to each value.
    pub(crate) fn add(&mut self, other: &Column)
        requires same_level { other.now.level ≡ self.old.level }
        requires as_many { length self.old.values ≤ length other.now.values }
        ensures { self.new ≡ record self.old { values = tabulate (length self.old.values) (λ p. bit_xor (slice_index self.old.values p) (slice_index other.now.values p)) } }
    {
        add_words(self.words.as_mut_slice(), other.words.as_slice());
    }

    /// Takes the values that bytes spell, the lowest bits first.
    pub(crate) fn put_bytes(&mut self, bytes: &[u8])
        ensures { self.new ≡ record self.old { values = digits (2 ^ (2 ^ self.old.level)) (length self.old.values) (number_of_bytes bytes.now) } }
    {
        put_words(self.words.as_mut_slice(), bytes);
    }
}

/// How many words hold so many values.
fn words_for(level: u32, count: usize) -> usize
    requires is_a_level { level ≤ 7 }
    requires few { count ≤ 2 ^ 32 }
    ensures enough { count ≤ result * per_word level }
{
    ((count << level) + 127) / 128
}

fn clear_words(words: &mut [u128])
    ensures { (k : ℕ) → k < length words.old → slice_index words.new k ≡ 0 }
{
    for word in words.iter_mut() {
        *word = 0;
    }
}

/// Adds words to others, as far as there are both.
fn add_words(words: &mut [u128], others: &[u128])
    ensures { (k : ℕ) → k < length words.old → slice_index words.new k ≡ bit_xor (slice_index words.old k) (slice_index others.now k) }
{
    for k in 0..words.len().min(others.len()) {
        words[k] ^= others[k];
    }
}

/// Puts the number that bytes spell into words, as much of it as they hold.
fn put_words(words: &mut [u128], bytes: &[u8])
    ensures { (k : ℕ) → k < length words.old → slice_index words.new k ≡ number_of_bytes bytes.now / 2 ^ (128 * k) % 2 ^ 128 }
{
    for (k, word) in words.iter_mut().enumerate() {
        *word = word_of(bytes, k);
    }
}

/// The number of the 16 bytes of a word.
fn word_of(bytes: &[u8], k: usize) -> u128
    requires { k < 2 ^ 59 }
    ensures { result ≡ number_of_bytes bytes.now / 2 ^ (128 * k) % 2 ^ 128 }
{
    let rest = &bytes[(k * 16).min(bytes.len())..];
    number_of_bytes(&rest[..rest.len().min(16)])
}

/// The number that bytes spell, the lowest first.
fn number_of_bytes(bytes: &[u8]) -> u128
    requires { length bytes.now ≤ 16 }
    ensures { result ≡ number_of_bytes bytes.now }
{
    let mut number = 0;
    let mut at = bytes.len();
    while at > 0 {
        at -= 1;
        number = number * 256 + u128::from(bytes[at]);
    }
    number
}

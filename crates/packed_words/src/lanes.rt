//! Elements of one level packed into words.

ghost use Rattle.std.specs.Prelude.{◌≡◌, ℕ, ◌+◌, ◌*◌, ◌/◌, ◌%◌, ◌^◌, ◌<◌, ◌≤◌, ◌++◌, List, bit_xor, length, map, slice_index, slice_set};
ghost use Rattle.tower_laws.specs.Tower.{mul};
ghost use Rattle.cube_laws.specs.Extension.{fold_low};
ghost use Rattle.cube_laws.specs.Sums.{tabulate};
ghost use Rattle.packed_words.specs.Packing.{lane_products, lane_sums, lanes, per_word};

use crate::lane_words::products_in_words;
use std::marker::{Model, PhantomData};
use tower_field::Tower;

/// The number of the word in which lane `i` stands, and its lowest bit there.
#[inline(always)]
pub(crate) fn place_of(i: usize, level: u32) -> (usize, u32)
    requires { level ≤ 7 }
    ensures word { result.0 ≡ i / per_word level }
    ensures bit { result.1 ≡ 2 ^ level * (i % per_word level) }
    ensures within { result.1 < 128 }
{
    let place = 7 - level;
    (i >> place, ((i & ((1usize << place) - 1)) << level) as u32)
}

/// The number of the element of a level that begins at a bit.
#[inline(always)]
pub(crate) fn element_in(word: u128, bit: u32, level: u32) -> u128
    requires is_a_level { level ≤ 7 }
    requires bit_exists { bit < 128 }
    ensures { result ≡ word / 2 ^ bit % 2 ^ (2 ^ level) }
{
    word >> bit & (u128::MAX >> (128 - (1u32 << level)))
}

/// The greatest level at which the lanes of a word are multiplied all at once.
const MOST_BY_WORDS: u32 = 3;

/// As many elements of one level as `W` words of 128 bits hold, lane 0 in the lowest bits of the
/// first word. A contract sees the list of their numbers.
#[derive(Drop)]
pub struct Lanes<F: Tower, const W: usize> {
    words: [u128; W],
    level: PhantomData<F>,
}

impl<F: Tower, const W: usize> Model for Lanes<F, W> {
    ghost Value = { List ℕ };

    ghost view = { λ l. lanes F.LEVEL W l.words };

    ghost invariant = { λ l. (0 < W) × (W ≤ 65536) };
}

impl<F: Tower, const W: usize> Lanes<F, W> {
    /// All lanes are zero.
    pub fn zero() -> Self
        requires some_word { 0 < W }
        requires not_too_many { W ≤ 65536 }
        ensures { result ≡ tabulate (W * per_word F.LEVEL) (λ _. 0) }
    {
        Lanes {
            words: [0; W],
            level: PhantomData,
        }
    }

    /// The same elements once more.
    pub fn copy(&self) -> Self
        ensures { result ≡ self.now }
    {
        Lanes {
            words: self.words,
            level: PhantomData,
        }
    }

    /// How many lanes there are.
    pub fn count(&self) -> usize
        ensures length { result ≡ length self.now }
        ensures count { result ≡ W * per_word F.LEVEL }
    {
        let _ = &self.words;
        W << (7 - F::LEVEL)
    }

    /// The element in lane `i`.
    pub fn get(&self, i: usize) -> F
        requires { i < length self.now }
        ensures { F.number result ≡ slice_index self.now i }
    {
        let _ = &self.words;
        let (word, bit) = place_of(i, F::LEVEL);
        let number = element_in(self.words[word], bit, F::LEVEL);
        match F::from_number(number) {
            Some(element) => element,
            None => unreachable!(),
        }
    }

    /// Puts an element into lane `i`.
    pub fn set(&mut self, i: usize, element: F)
        requires { i < length self.old }
        ensures { self.new ≡ slice_set self.old i (F.number element) }
    {
        let _ = &self.words;
        let (word, bit) = place_of(i, F::LEVEL);
        let old = self.words[word];
        let change = element_in(old, bit, F::LEVEL) ^ element.number();
        self.words[word] = old ^ (change << bit);
    }

    /// The sum of the elements in each lane.
    pub fn add(mut self, other: Self) -> Self
        ensures { result ≡ lane_sums self other }
    {
        for w in 0..W {
            self.words[w] ^= other.words[w];
        }
        self
    }

    /// The product of the elements in each lane.
    pub fn mul(self, other: Self) -> Self
        ensures { result ≡ lane_products self other }
    {
        if F::LEVEL <= MOST_BY_WORDS {
            self.mul_by_words(other)
        } else {
            self.mul_by_lanes(other)
        }
    }

    /// The same, all lanes of a word at once.
    fn mul_by_words(mut self, other: Self) -> Self
        requires { F.LEVEL ≤ 3 }
        ensures { result ≡ lane_products self other }
    {
        let _ = &other.words;
        for w in 0..W {
            self.words[w] = products_in_words(F::LEVEL, self.words[w], other.words[w]);
        }
        self
    }

    /// The same, lane by lane.
    fn mul_by_lanes(mut self, other: Self) -> Self
        ensures { result ≡ lane_products self other }
    {
        let _ = &other.words;
        for i in 0..self.count() {
            self.set(i, self.get(i).mul(other.get(i)));
        }
        self
    }

    /// The product of each lane's element with one.
    pub fn scale(mut self, factor: F) -> Self
        ensures { result ≡ map (mul (F.number factor)) self }
    {
        for i in 0..self.count() {
            self.set(i, factor.mul(self.get(i)));
        }
        self
    }

    /// Sets the lowest variable of the table in the lanes. The upper half of the lanes becomes 0.
    pub fn fold(self, r: F) -> Self
        requires pairs { length self % 2 ≡ 0 }
        ensures { result ≡ fold_low (F.number r) self ++ tabulate (length self / 2) (λ _. 0) }
    {
        let _ = &self.words;
        let mut folded = Self::zero();
        for i in 0..self.count() / 2 {
            let low = self.get(2 * i);
            let change = low.add(self.get(2 * i + 1)).mul(r);
            folded.set(i, low.add(change));
        }
        folded
    }
}

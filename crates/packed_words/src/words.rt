//! Words of elements of a level that is known by its number.

ghost use Rattle.std.specs.Prelude.{◌≡◌, ◌*◌, ◌^◌, ◌<◌, ◌≤◌, length, slice_index, slice_set};
ghost use Rattle.packed_words.specs.Packing.{lanes, per_word};

use crate::lanes::{element_in, place_of};

/// The number of the element in lane `i` of words of elements of a level.
#[inline(always)]
pub fn lane_of(words: &[u128], level: u32, i: usize) -> u128
    requires is_a_level { level ≤ 7 }
    requires in_words { i < length words.now * per_word level }
    ensures value { result ≡ slice_index (lanes level (length words.now) words.now) i }
    ensures fits { result < 2 ^ (2 ^ level) }
{
    let (word, bit) = place_of(i, level);
    element_in(words[word], bit, level)
}

/// Puts the element of this number into lane `i` of words of elements of a level.
#[inline(always)]
pub fn set_lane(words: &mut [u128], level: u32, i: usize, number: u128)
    requires is_a_level { level ≤ 7 }
    requires in_words { i < length words.old * per_word level }
    requires fits { number < 2 ^ (2 ^ level) }
    ensures { lanes level (length words.old) words.new ≡ slice_set (lanes level (length words.old) words.old) i number }
{
    let (word, bit) = place_of(i, level);
    let old = words[word];
    let change = element_in(old, bit, level) ^ number;
    words[word] = old ^ (change << bit);
}

//! Tuples in order.

ghost use Rattle.std.specs.Prelude.{◌≡◌, ◌<◌, ◌^◌, length, map, option_map};
ghost use Rattle.std.specs.List.Sorted.{IsPermutation};
ghost use Rattle.counting_laws.specs.Multiset.{count, same_tuple};
ghost use Rattle.m3_judge.specs.Order.{IsAscending, first_difference, tuple_order};
ghost use Rattle.m3_judge.specs.Sources.{tuple_of, tuples_of};

use crate::source::{Source, len_of, member};
use column_store::Store;
use std::cmp::Ordering;

/// The order of two tuples: by their first numbers, then by their second ones, and so on.
pub(crate) fn compare(store: &Store, one: Source, other: Source) -> Ordering
    ensures { result ≡ tuple_order (tuple_of store.now.shape store.now.filling one) (tuple_of store.now.shape store.now.filling other) }
{
    let len = len_of(store, one);
    let other_len = len_of(store, other);
    for k in 0..len.min(other_len) {
        let number = member(store, one, k);
        let other_number = member(store, other, k);
        if number != other_number {
            return number.cmp(&other_number);
        }
    }
    len.cmp(&other_len)
}

/// Sources in the order of their tuples.
pub(crate) fn in_order(store: &Store, mut sources: Vec<Source>) -> Vec<Source>
    ensures same { IsPermutation sources.items result.items }
    ensures ascending { IsAscending (tuples_of store.now.shape store.now.filling result.items) }
{
    sources.sort_unstable_by(|one, other| compare(store, *one, *other));
    sources
}

/// Where two lists first differ, the lesser of the two tuples there.
pub(crate) fn first_difference(
    store: &Store,
    pushed: &[Source],
    pulled: &[Source],
) -> Option<Source>
    ensures { option_map (tuple_of store.now.shape store.now.filling) result ≡ first_difference (tuples_of store.now.shape store.now.filling pushed.now) (tuples_of store.now.shape store.now.filling pulled.now) }
{
    let shared = pushed.len().min(pulled.len());
    for k in 0..shared {
        match compare(store, pushed[k], pulled[k]) {
            Ordering::Less => return Some(pushed[k]),
            Ordering::Greater => return Some(pulled[k]),
            Ordering::Equal => {}
        }
    }
    if shared < pushed.len() {
        Some(pushed[shared])
    } else if shared < pulled.len() {
        Some(pulled[shared])
    } else {
        None
    }
}

/// How often a tuple stands among others.
pub(crate) fn count_of(store: &Store, source: Source, among: &[Source]) -> u64
    ensures { result ≡ count same_tuple (tuple_of store.now.shape store.now.filling source) (tuples_of store.now.shape store.now.filling among.now) }
{
    let mut count = 0;
    for k in 0..among.len() {
        if compare(store, source, among[k]) == Ordering::Equal {
            count += 1;
        }
    }
    count
}

//! Values from outside, and each call once.

ghost use Rattle.std.specs.Prelude.{◌<◌, ◌≤◌};

use packed_words::{Buckets, Lanes, Multiples, mul128, times_byte, transpose128};
use std::process::Abort;
use std::test::Fail;
use tower_field::{B1, B2, B4, B8, B16, B32, B64, B128, Tower};

#[test]
fn rows_become_columns(rt: HostRuntime) {
    let mut rows = [0; 128];
    rows[3] = 1 << 5 | 1 << 127;
    rows[64] = 1 << 64 | 1;
    rows[127] = 1 << 3;
    transpose128(&mut rows);
    for u in 0..128usize {
        let want = match u {
            0 => 1 << 64,
            3 => 1 << 127,
            5 | 127 => 1 << 3,
            64 => 1 << 64,
            _ => 0u128,
        };
        assert_eq!(rt; rows[u], want);
    }
}

#[test]
fn multiples_of_one_element(rt: HostRuntime) -> Result<(), Fail> {
    let g = B128::join(0, 1);
    let mut multiples = Multiples::new(rt.alloc(), B128::ONE)?;
    assert_eq!(rt; multiples.times(g).number(), 1 << 64);
    multiples.set(g);
    // The square of the last generator of level 7 is 2^96 + 1.
    assert_eq!(rt; multiples.times(g).number(), (1 << 96) + 1);
    assert_eq!(rt; mul128(g, g).number(), (1 << 96) + 1);
    assert_eq!(rt; multiples.times(B128::ZERO).number(), 0);
    let mut values = [B128::ONE, g];
    multiples.scale(&mut values);
    assert_eq!(rt; values[0].number(), 1 << 64);
    assert_eq!(rt; values[1].number(), (1 << 96) + 1);
    let mut table = Vec::from_array(rt.alloc(), [B128::ZERO, g, g, g])?;
    multiples.fold_low(&mut table);
    assert_eq!(rt; table.len(), 2);
    assert_eq!(rt; table[0].number(), (1 << 96) + 1);
    assert_eq!(rt; table[1].number(), 1 << 64);
    Ok(())
}

#[test]
fn a_byte_times_an_element(rt: HostRuntime) {
    let two = B8::join(2, 0);
    // 2 · 2 is 3, and 128 · 16 is 8 · (4 · 16 + 1), for the byte at each place.
    assert_eq!(rt; times_byte(B128::join(1, 2), two).number(), 3 << 64 | 2);
    assert_eq!(rt;
        times_byte(B128::join(1 << 63, 1 << 63), B8::join(0, 1)).number(),
        0xe800000000000000_e800000000000000
    );
    assert_eq!(rt; times_byte(B128::join(5, 7), B8::ZERO).number(), 0);
}

#[test]
fn sums_of_bits(rt: HostRuntime) -> Result<(), Fail> {
    let mut buckets = Buckets::new(rt.alloc())?;
    let g = B128::join(0, 1);
    for _again in 0..2u8 {
        let sums = buckets.bit_sums(&[B128::ONE, g, g], &[0b101, 1 << 127 | 0b100, 1 << 9]);
        for u in 0..128usize {
            let want = match u {
                0 => 1,
                2 => 1 << 64 | 1,
                9 | 127 => 1 << 64,
                _ => 0,
            };
            assert_eq!(rt; sums[u].number(), want);
        }
    }
    let columns = buckets.columns(&[g, B128::ONE], &[g, B128::ONE]);
    assert_eq!(rt; columns[0].number(), 1);
    assert_eq!(rt; columns[64].number(), 1 << 64);
    // The square of the last generator of level 7 is 2^96 + 1.
    assert_eq!(rt;
        buckets.dot(&[g, g], &[g, B128::ONE]).number(),
        1 << 96 | 1 << 64 | 1
    );
    assert_eq!(rt; buckets.dot(&[g], &[]).number(), 0);
    Ok(())
}

/// Zero but for lane 0, which is 1, and for the last lane.
fn two_set<F: Tower, const W: usize>(last: usize, n: u128) -> Lanes<F, W>
    requires some_word { 0 < W }
    requires not_too_many { W ≤ 65536 }
{
    let mut lanes = Lanes::zero();
    for (i, n) in [(0, 1), (last, n)] {
        if let Some(element) = F::from_number(n) {
            if i < lanes.count() {
                lanes.set(i, element);
            }
        }
    }
    lanes
}

fn at<F: Tower, const W: usize>(lanes: &Lanes<F, W>, i: usize) -> Option<u128> {
    if i < lanes.count() {
        Some(lanes.get(i).number())
    } else {
        None
    }
}

/// The lanes 0 and 1 and the last two, and that there are no more.
fn ends<F: Tower, const W: usize>(
    rt: &impl Abort,
    lanes: &Lanes<F, W>,
    last: usize,
    want: [u128; 4],
)
    requires four_lanes { 3 ≤ last }
{
    assert_eq!(rt; at(lanes, 0), Some(want[0]));
    assert_eq!(rt; at(lanes, 1), Some(want[1]));
    assert_eq!(rt; at(lanes, last - 1), Some(want[2]));
    assert_eq!(rt; at(lanes, last), Some(want[3]));
    assert_eq!(rt; lanes.count().checked_sub(1), Some(last));
}

/// At one level, by its greatest element and the square of that.
fn lanes_of<F: Tower, const W: usize>(rt: &impl Abort, last: usize, greatest: u128, square: u128)
    requires some_word { 0 < W }
    requires not_too_many { W ≤ 65536 }
    requires four_lanes { 3 ≤ last }
{
    let sum = two_set::<F, W>(last, greatest).add(two_set(last, 1));
    ends(rt, &sum, last, [0, 0, 0, greatest ^ 1]);
    let product = two_set::<F, W>(last, greatest).mul(two_set(last, greatest));
    ends(rt, &product, last, [1, 0, 0, square]);
    if let Some(factor) = F::from_number(greatest) {
        let scaled = two_set::<F, W>(last, greatest).scale(factor);
        ends(rt, &scaled, last, [greatest, 0, 0, square]);
        let table = two_set::<F, W>(last, greatest);
        if table.count() % 2 == 0 {
            let folded = table.fold(factor);
            assert_eq!(rt; at(&folded, 0), Some(greatest ^ 1));
            assert_eq!(rt; at(&folded, last / 2), Some(square));
            assert_eq!(rt; at(&folded, last), Some(0));
        }
    }
}

#[test]
fn lanes_at_each_level(rt: HostRuntime) {
    lanes_of::<B1, 1>(&rt, 127, 1, 1);
    lanes_of::<B2, 1>(&rt, 63, 0x3, 0x2);
    lanes_of::<B4, 1>(&rt, 31, 0xf, 0xc);
    lanes_of::<B8, 1>(&rt, 15, 0xff, 0x70);
    lanes_of::<B8, 1024>(&rt, 16383, 0xff, 0x70);
    lanes_of::<B16, 1>(&rt, 7, 0xffff, 0x5700);
    lanes_of::<B32, 1>(&rt, 3, 0xffff_ffff, 0xa557_0000);
    lanes_of::<B64, 2>(&rt, 3, 0xffff_ffff_ffff_ffff, 0x6da5_a557_0000_0000);
    lanes_of::<B128, 1024>(
        &rt,
        1023,
        u128::MAX,
        0xc63a_6da5_6da5_a557_0000_0000_0000_0000,
    );
}

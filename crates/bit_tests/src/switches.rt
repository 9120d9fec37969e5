//! Values of bits turned into values of words, by values from outside and beside the prover.

ghost use Rattle.std.specs.Prelude.{◌≡◌, ◌≤◌, ◌-◌, ◌^◌, length, IfOk};
ghost use Rattle.sumcheck.specs.Machine.{Filling};
ghost use Rattle.sumcheck.specs.Summing.{closed};
ghost use Rattle.ring_switch.specs.SwitchProver.{FollowsSwitch};
ghost use Rattle.ring_switch.specs.Switching.{summed, PackedValue as Claim};

use poly_forms::{CheckKind, DrawKind};
use reduction_inputs::{
    Given, Lack, Taken, element, elements, first_pending, push_bits, run, value_at, word, words,
};
use ring_switch::{SwitchProver, SwitchWalk, Tensor, tensor_eq_at};
use std::alloc::Global;
use sumcheck::{Entry, Next, Pending, Reduction, Refused, Steps, Stopping};
use tower_field::{B128, Tower};
use walk_example::meet;

/// The switch of a value of 256 bits at the point of zeros.
fn stated(alloc: Global, value: u64) -> Result<Stopping<SwitchWalk>, Lack> {
    let mut walk = SwitchWalk::begin(alloc, 8)?;
    walk.enter(&[B128::ZERO; 8], element(value));
    Ok(Stopping::new(walk))
}

/// 128 columns, the first of them 1.
fn unit_columns() -> [u64; 128] {
    let mut columns = [0; 128];
    columns[0] = 1;
    columns
}

/// A claim that is pending: how many coordinates or draws it has, and its value or how many values.
#[derive(Clone, Copy, PartialEq, Eq, Debug)]
enum Claimed {
    Bit(usize, u128),
    Rows(usize, usize),
    Sum(usize, u128),
    Round(usize, usize),
    Packed(usize, u128),
    Another,
}

fn in_short(claim: &Pending<'_>) -> Claimed {
    match claim {
        Pending::Bit { point, value } => Claimed::Bit(point.len(), value.number()),
        Pending::Rows { prefix, values, .. } => Claimed::Rows(prefix.len(), values.len()),
        Pending::Sum { prefix, value, .. } => Claimed::Sum(prefix.len(), value.number()),
        Pending::Round { prefix, values, .. } => Claimed::Round(prefix.len(), values.len()),
        Pending::Packed { point, value } => Claimed::Packed(point.len(), value.number()),
        _ => Claimed::Another,
    }
}

/// The first claim that is pending.
fn first_claim(switch: &Stopping<SwitchWalk>) -> Option<Claimed> {
    match first_pending(switch) {
        Some(claim) => Some(in_short(&claim)),
        None => None,
    }
}

fn message(check: CheckKind, length: u32) -> Next {
    Next::Message { check, length }
}

fn draw(kind: DrawKind, count: u64) -> Next {
    Next::Draw { kind, count }
}

/// What follows the columns: the draws of the coordinates, a round, its draw and the value.
const ENTRIES: [Given<'_>; 10] = [
    Given::Draw(2),
    Given::Draw(3),
    Given::Draw(4),
    Given::Draw(5),
    Given::Draw(6),
    Given::Draw(7),
    Given::Draw(8),
    Given::Message(&[14, 0, 7]),
    Given::Draw(9),
    Given::Message(&[8]),
];

#[test]
fn entry_by_entry(rt: HostRuntime) -> Result<(), Lack> {
    let alloc = rt.alloc();
    let columns = unit_columns();
    let mut switch = stated(alloc, 1)?;
    assert_eq!(rt; switch.next(), message(CheckKind::Tensor, 128));
    assert_eq!(rt; switch.pending_count(), 1);
    assert_eq!(rt; first_claim(&switch), Some(Claimed::Bit(8, 1)));
    let given = [Given::Message(&columns)];
    assert_eq!(rt; run(alloc, &mut switch, &given)?, (1, Taken::Passed));
    let coordinate = draw(DrawKind::TensorCoordinate, 1);
    // what is due, the claim of the round, and what is claimed
    let states = [
        (coordinate, None, Claimed::Rows(0, 128)),
        (coordinate, None, Claimed::Rows(1, 64)),
        (coordinate, None, Claimed::Rows(2, 32)),
        (coordinate, None, Claimed::Rows(3, 16)),
        (coordinate, None, Claimed::Rows(4, 8)),
        (coordinate, None, Claimed::Rows(5, 4)),
        (coordinate, None, Claimed::Rows(6, 2)),
        (
            message(CheckKind::RoundSum, 3),
            Some(14),
            Claimed::Sum(0, 14),
        ),
        (draw(DrawKind::SwitchRound, 2), None, Claimed::Round(0, 3)),
        (message(CheckKind::Constant, 1), None, Claimed::Sum(1, 6)),
    ];
    for k in 0..10 {
        let (due, claim, first) = states[k];
        assert_eq!(rt; switch.next(), due);
        assert_eq!(rt; switch.round_claim(), claim.map(|n| element(n)));
        assert_eq!(rt; switch.pending_count(), 1);
        assert_eq!(rt; first_claim(&switch), Some(first));
        assert_eq!(rt; run(alloc, &mut switch, &[ENTRIES[k]])?, (1, Taken::Passed));
    }
    assert_eq!(rt; switch.next(), Next::Done);
    assert_eq!(rt; first_claim(&switch), Some(Claimed::Packed(1, 8)));
    Ok(())
}

/// The same switch after so many entries.
fn after(alloc: Global, count: usize) -> Result<Stopping<SwitchWalk>, Lack> {
    let mut switch = stated(alloc, 1)?;
    if count > 0 {
        run(alloc, &mut switch, &[Given::Message(&unit_columns())])?;
        run(alloc, &mut switch, &ENTRIES[..(count - 1).min(10)])?;
    }
    Ok(switch)
}

#[test]
fn wrong_messages(rt: HostRuntime) -> Result<(), Lack> {
    let alloc = rt.alloc();
    let mut last_column = [0; 128];
    last_column[127] = 1;
    // after so many entries a wrong message, how it is refused, and the right one
    let wrong: [(usize, &[u64], CheckKind, u64, u64, &[u64]); 4] = [
        (0, &[0; 128], CheckKind::Tensor, 0, 1, &unit_columns()),
        (0, &last_column, CheckKind::Tensor, 0, 1, &unit_columns()),
        (8, &[14, 1, 7], CheckKind::RoundSum, 15, 14, &[14, 0, 7]),
        (10, &[1], CheckKind::Constant, 5, 6, &[8]),
    ];
    for (count, given, check, left, right, again) in wrong {
        let mut switch = after(alloc, count)?;
        let claimed = first_claim(&switch);
        let refused = Refused {
            check,
            left: element(left),
            right: element(right),
        };
        for given in [given, again] {
            assert_eq!(rt;
                run(alloc, &mut switch, &[Given::Message(given)])?,
                (0, Taken::Refused(refused))
            );
            assert_eq!(rt; switch.next(), Next::Stopped(refused));
            assert_eq!(rt; switch.round_claim(), None);
            assert_eq!(rt; first_claim(&switch), claimed);
        }
    }
    Ok(())
}

/// The walk for the value of the bits of words at a point, and its prover.
fn begun(
    alloc: Global,
    log_bits: u32,
    words: &[B128],
    point: &[B128],
    value: B128,
) -> Result<(SwitchWalk, SwitchProver), Lack>
    requires size { (8 ≤ log_bits) × (log_bits ≤ 24) }
    requires whole { length words.now ≡ 2 ^ (log_bits - 7) }
    requires long { length point.now ≡ log_bits }
    ensures { IfOk result (λ both. (F : Filling) × FollowsSwitch both.1 F both.0) }
{
    let mut walk = SwitchWalk::begin(alloc, log_bits)?;
    walk.enter(point, value);
    let mut prover = SwitchProver::begin(alloc, log_bits, words)?;
    prover.enter(point, value);
    Ok((walk, prover))
}

/// The point and the value that walk and prover leave, where both leave the same.
fn left_alike(walk: SwitchWalk, prover: &SwitchProver) -> Option<(Vec<B128>, B128)>
    requires { (F : Filling) × (p : Claim) × FollowsSwitch prover.now F (summed (closed p)) × (walk ≡ summed (closed p)) }
{
    let (own_point, own) = prover.result();
    let (told_point, told) = walk.result();
    if told_point != own_point || told != own {
        return None;
    }
    let (point, value) = walk.leave();
    if point.as_slice() == own_point && value == own {
        Some((point, value))
    } else {
        None
    }
}

/// What walk and prover came to.
#[derive(Drop)]
struct Met {
    /// How many entries passed.
    passed: u32,
    /// The message that was refused.
    refused: Option<Entry>,
    /// The point and the value that both leave alike at the end.
    left: Option<(Vec<B128>, B128)>,
}

/// Walk and prover side by side.
fn side_by_side(alloc: Global, mut walk: SwitchWalk, mut prover: SwitchProver) -> Result<Met, Lack>
    requires { (F : Filling) × FollowsSwitch prover F walk }
{
    let mut values = Vec::new(alloc);
    let (passed, ended) = meet(&mut walk, &mut prover, 100, &mut values)?;
    let refused = walk.due();
    let left = if ended {
        left_alike(walk, &prover)
    } else {
        None
    };
    Ok(Met {
        passed,
        refused,
        left,
    })
}

/// The value of the bits of words at a point, and what walk and prover come to where a value that is
/// off by `error` is claimed: how many entries pass, which message is refused, and the value at the end,
/// where it is the true one.
fn meets(
    alloc: Global,
    numbers: &[u128],
    point: &[u64],
    error: u64,
) -> Result<(u128, u32, Option<Entry>, Option<u128>), Lack> {
    let words = words(alloc, numbers)?;
    let point = elements(alloc, point)?;
    let mut bits = Vec::new(alloc);
    push_bits(7, words.as_slice(), &mut bits)?;
    let value = value_at(alloc, bits.as_slice(), point.as_slice())?;
    let log_bits = point.len();
    if log_bits < 8 || log_bits > 24 || words.len() != 1 << (log_bits - 7) {
        return Err(Lack);
    }
    let (walk, prover) = begun(
        alloc,
        log_bits as u32,
        words.as_slice(),
        point.as_slice(),
        value + element(error),
    )?;
    let met = side_by_side(alloc, walk, prover)?;
    let left = match &met.left {
        Some((point, value)) => {
            if value_at(alloc, words.as_slice(), point.as_slice())? == *value {
                Some(value.number())
            } else {
                None
            }
        }
        None => None,
    };
    Ok((value.number(), met.passed, met.refused, left))
}

/// A word with its highest bit set.
const HIGH: u128 = 1 << 127 | 3;

/// Coordinates of points.
const ZEROS: [u64; 9] = [0; 9];

const ONES: [u64; 9] = [1; 9];

const RISING: [u64; 9] = [20, 21, 22, 23, 24, 25, 26, 27, 28];

#[test]
fn walk_against_prover(rt: HostRuntime) -> Result<(), Lack> {
    let alloc = rt.alloc();
    // words, a point, the value of the bits there, and that of the words at the end
    let cases: [(&[u128], [u64; 9], u128, u128); 10] = [
        (&[1, 0], ZEROS, 1, 0x11),
        (&[1, 0], RISING, 0x6b, 0x11),
        (&[5, HIGH], ZEROS, 1, 0xe8000000000000000000000000000065),
        (&[5, HIGH], ONES, 1, 0xe8000000000000000000000000000065),
        (&[5, HIGH], RISING, 0xfb, 0xe8000000000000000000000000000065),
        (&[0, 0], RISING, 0, 0),
        (
            &[3, 1, 4, HIGH],
            ZEROS,
            1,
            0x200000000000000000000000000002f,
        ),
        (
            &[3, 1, 4, HIGH],
            RISING,
            0xa2,
            0x200000000000000000000000000002f,
        ),
        (&[0, 0, 0, 1], RISING, 0x22, 0x61),
        (&[u128::MAX; 4], RISING, 1, u128::MAX),
    ];
    for (words, point, value, left) in cases {
        let (vars, entries) = if words.len() == 2 { (8, 11) } else { (9, 13) };
        let met = meets(alloc, words, &point[..vars], 0)?;
        assert_eq!(rt; met, (value, entries, None, Some(left)));
        let met = meets(alloc, words, &point[..vars], 1)?;
        let (check, length) = (CheckKind::Tensor, 128);
        let refused = Some(Entry::Message { check, length });
        assert_eq!(rt; met, (value, 0, refused, None));
    }
    Ok(())
}

#[test]
fn rows_and_columns(rt: HostRuntime) -> Result<(), Lack> {
    let mut columns = [B128::ZERO; 128];
    columns[0] = element(5);
    columns[1] = element(3);
    columns[127] = word(HIGH);
    let tensor = Tensor::from_columns(&columns);
    assert_eq!(rt; tensor.columns(), columns);
    for u in 0..128usize {
        let row = match u {
            0 => HIGH,
            1 => 1 << 127 | 2,
            2 => 1,
            127 => 1 << 127,
            _ => 0,
        };
        assert_eq!(rt; tensor.rows()[u].number(), row);
    }
    Ok(())
}

#[test]
fn table_of_the_sum(rt: HostRuntime) -> Result<(), Lack> {
    let alloc = rt.alloc();
    let drawn = [2, 3, 4, 5, 6, 8, 9];
    // the high point, a point, the draws of the coordinates, and the value
    let cases: [(&[u64], &[u64], [u64; 7], u128); 8] = [
        (&[0], &[0], [0; 7], 1),
        (&[0], &[1], [0; 7], 0),
        (&[3], &[0], [0; 7], 0),
        (&[3], &[0], [1, 0, 0, 0, 0, 0, 0], 1),
        (&[], &[], [2, 0, 0, 0, 0, 0, 0], 3),
        (&[3], &[5], drawn, 5),
        (&[3, 17], &[5, 18], drawn, 94),
        (&[3, 1 << 15], &[5, 1 << 15 | 6], drawn, 24583),
    ];
    for (high, at, combine, value) in cases {
        let high = elements(alloc, high)?;
        let at = elements(alloc, at)?;
        let found = tensor_eq_at(high.as_slice(), at.as_slice(), &combine.map(|n| element(n)));
        assert_eq!(rt; found.number(), value);
    }
    Ok(())
}

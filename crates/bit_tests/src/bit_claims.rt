//! Claims on committed columns turned into one on the table of their bits, by values from outside and
//! beside the prover.

ghost use Rattle.std.specs.Prelude.{◌≡◌, ◌≤◌, ◌^◌, length, IfOk};
ghost use Rattle.std.specs.List.{AllByRecursion};
ghost use Rattle.sumcheck.specs.Machine.{Filling};
ghost use Rattle.sumcheck.specs.Summing.{closed};
ghost use Rattle.table_shape.specs.Placement.{places_log};
ghost use Rattle.bit_claim.specs.BatchFollowing.{FollowsBatch};
ghost use Rattle.bit_claim.specs.Batching.{summed, BitValue as OnBits};
ghost use Rattle.bit_claim.specs.Bits.{bits, IsPlaced};

use bit_claim::{BitProver, BitWalk, Placement, place};
use bit_inputs::{Claimed, Column, claims_on, lists_of, prover_of, table_of_bits};
use poly_forms::{CheckKind, DrawKind};
use reduction_inputs::{Lack, rows_fit, shape_of, value_at};
use std::alloc::Global;
use std::test::Fail;
use sumcheck::{ColumnClaim, Entry, Steps};
use tower_field::{B128, Tower};
use walk_example::meet;

/// How a case is run.
#[derive(Clone, Copy)]
struct Way {
    /// The walk has copies of the claims, and not the prover.
    walk_copies: bool,
    /// The prover has the table of bits in words.
    packed: bool,
}

const WAYS: [Way; 4] = [
    Way {
        walk_copies: true,
        packed: false,
    },
    Way {
        walk_copies: false,
        packed: false,
    },
    Way {
        walk_copies: true,
        packed: true,
    },
    Way {
        walk_copies: false,
        packed: true,
    },
];

/// The walk of claims and its prover, of which one has copies of them.
fn begun(
    alloc: Global,
    placement: &Placement,
    table: &[B128],
    claims: Vec<ColumnClaim>,
    way: Way,
) -> Result<(BitWalk, BitProver), Lack>
    requires whole { length table.now ≡ 2 ^ places_log placement.now }
    requires bits { (F : Filling) × (bits F placement.now ≡ table.now) }
    requires few { length claims.items ≤ 100 }
    requires placed { AllByRecursion (IsPlaced placement.now) claims.items }
    ensures { IfOk result (λ both. (F : Filling) × FollowsBatch both.1 F both.0) }
{
    let count = claims.len() as u32;
    let Ok(mut walk) = BitWalk::begin(alloc, placement, count) else {
        return Err(Lack);
    };
    let mut prover = prover_of(alloc, placement, count, table, way.packed)?;
    if way.walk_copies {
        walk.enter(claims.as_slice());
        prover.enter_owned(claims);
    } else {
        prover.enter(claims.as_slice());
        walk.enter_owned(claims);
    }
    Ok((walk, prover))
}

/// The point and the value that walk and prover leave, where both leave the same.
fn left_alike(walk: BitWalk, prover: &BitProver) -> Option<(Vec<B128>, B128)>
    requires { (F : Filling) × (b : OnBits) × FollowsBatch prover.now F (summed (closed b)) × (walk ≡ summed (closed b)) }
{
    let (own_point, own) = prover.result();
    let (told_point, told) = walk.result();
    if told_point != own_point || told != own {
        return None;
    }
    let (point, value) = walk.leave().into_parts();
    if point.as_slice() == own_point && value == own {
        Some((point, value))
    } else {
        None
    }
}

/// What walk and prover came to.
#[derive(Drop)]
struct Met {
    /// What was due first.
    first: Option<Entry>,
    /// How many entries passed.
    passed: u32,
    /// The message that was refused.
    refused: Option<Entry>,
    /// The point and the value that both leave alike at the end.
    left: Option<(Vec<B128>, B128)>,
}

/// Walk and prover side by side.
fn side_by_side(alloc: Global, mut walk: BitWalk, mut prover: BitProver) -> Result<Met, Lack>
    requires { (F : Filling) × FollowsBatch prover F walk }
{
    let first = walk.due();
    let mut values = Vec::new(alloc);
    let (passed, ended) = meet(&mut walk, &mut prover, 100, &mut values)?;
    let refused = walk.due();
    let left = if ended {
        left_alike(walk, &prover)
    } else {
        None
    };
    Ok(Met {
        first,
        passed,
        refused,
        left,
    })
}

/// The columns of a text's tables with their rows.
#[derive(Clone, Copy)]
struct Case<'a> {
    text: &'a [u8],
    rows: &'a [u32],
    columns: &'a [Column<'a>],
}

/// What the walk of claims comes to beside its prover: what is due first, how many entries pass, which
/// message is refused, and the value at the end, where it is that of the table of bits.
fn meets(
    alloc: Global,
    case: Case<'_>,
    claimed: &[Claimed],
    way: Way,
) -> Result<(Option<Entry>, u32, Option<Entry>, Option<u128>), Fail> {
    let shape = shape_of(alloc, case.text)?;
    if !rows_fit(&shape, case.rows) {
        return Err(Fail::from(Lack));
    }
    let placement = place(alloc, &shape, case.rows)?;
    let lists = lists_of(alloc, case.columns)?;
    let table = table_of_bits(alloc, &placement, &lists)?;
    let claims = claims_on(alloc, &placement, &lists, claimed)?;
    let (walk, prover) = begun(alloc, &placement, table.as_slice(), claims, way)?;
    let met = side_by_side(alloc, walk, prover)?;
    let left = match &met.left {
        Some((point, value)) => {
            if value_at(alloc, table.as_slice(), point.as_slice())? == *value {
                Some(value.number())
            } else {
                None
            }
        }
        None => None,
    };
    Ok((met.first, met.passed, met.refused, left))
}

/// The draw that joins so many claims.
fn joining(count: u64) -> Option<Entry> {
    Some(Entry::Draw {
        kind: DrawKind::BitBatch,
        count,
    })
}

/// The first round.
const ROUND: Option<Entry> = Some(Entry::Message {
    check: CheckKind::RoundSum,
    length: 3,
});

fn values_in(table: u32, column: u32, values: &[u128]) -> Column<'_> {
    Column {
        table,
        column,
        values,
    }
}

fn on(table: u32, column: u32, first: u32, error: u64) -> Claimed {
    Claimed {
        table,
        column,
        first,
        error,
    }
}

/// A column of each level.
const LEVELS: &[u8] =
    b"table t { column a : b1; column b : b2; column c : b4; column d : b8; column e : b16; column f : b32; column g : b64; column h : b128; }";

/// Columns of one size, with several values in each row.
const TIES: &[u8] =
    b"table t { column a : b1 x 8; column b : b8; column c : b4 x 2; } table u { column d : b128; column e : b64 x 2; }";

const SMALL: &[u8] = b"table t { column a : b1; column b : b8; }";

/// A word with its highest bit set.
const HIGH: u128 = 1 << 127 | 3;

#[test]
fn columns_of_all_levels(rt: HostRuntime) -> Result<(), Fail> {
    let alloc = rt.alloc();
    let two = [
        values_in(0, 0, &[1, 0]),
        values_in(0, 1, &[3, 2]),
        values_in(0, 2, &[9, 14]),
        values_in(0, 3, &[200, 17]),
        values_in(0, 4, &[40000, 3]),
        values_in(0, 5, &[1 << 31, 77]),
        values_in(0, 6, &[1 << 63, 5]),
        values_in(0, 7, &[HIGH, 1 << 100]),
    ];
    let four = [
        values_in(0, 0, &[1, 0, 1, 0]),
        values_in(0, 1, &[3, 2, 1, 0]),
        values_in(0, 2, &[9, 14, 1, 0]),
        values_in(0, 3, &[200, 17, 1, 0]),
        values_in(0, 4, &[40000, 3, 1, 0]),
        values_in(0, 5, &[1 << 31, 77, 1, 0]),
        values_in(0, 6, &[1 << 63, 5, 1, 0]),
        values_in(0, 7, &[HIGH, 1 << 100, 1, 0]),
    ];
    let cases: [(&[u32], &[Column<'_>], u32, u128); 2] = [
        (&[2], &two, 20, 0xd3),
        (&[3], &four, 22, 0xcf),
    ];
    for (rows, columns, entries, value) in cases {
        let case = Case {
            text: LEVELS,
            rows,
            columns,
        };
        let claimed = [0, 1, 2, 3, 4, 5, 6, 7].map(|c| on(0, c, 30, 0));
        for way in WAYS {
            let met = meets(alloc, case, &claimed, way)?;
            assert_eq!(rt; met, (joining(7), entries, None, Some(value)));
        }
        for c in 0..8usize {
            let mut wrong = claimed;
            wrong[c].error = 1;
            let met = meets(alloc, case, &wrong, WAYS[c % 4])?;
            assert_eq!(rt; met, (joining(7), 1, ROUND, None));
        }
    }
    Ok(())
}

#[test]
fn columns_of_one_size(rt: HostRuntime) -> Result<(), Fail> {
    let alloc = rt.alloc();
    let case = Case {
        text: TIES,
        rows: &[2, 1],
        columns: &[
            values_in(0, 0, &[1, 0, 1, 1, 0, 0, 1, 0, 1, 1, 1, 1, 0, 0, 0, 1]),
            values_in(0, 1, &[200, 17]),
            values_in(0, 2, &[9, 14, 3, 5]),
            values_in(1, 0, &[HIGH]),
            values_in(1, 1, &[1 << 63, 5]),
        ],
    };
    // the errors of two claims, and whether the first draw, which is 7, hides them
    for (first, second, hides) in [(0, 0, true), (1, 0, false), (1, 1, false), (7, 1, true)] {
        // one column twice
        let claimed = [
            on(0, 0, 40, first),
            on(0, 2, 50, second),
            on(0, 1, 60, 0),
            on(1, 1, 70, 0),
            on(1, 0, 80, 0),
            on(0, 0, 90, 0),
        ];
        for way in WAYS {
            let met = meets(alloc, case, &claimed, way)?;
            let expected = if hides {
                (joining(5), 20, None, Some(0x38))
            } else {
                (joining(5), 1, ROUND, None)
            };
            assert_eq!(rt; met, expected);
        }
    }
    Ok(())
}

#[test]
fn fewer_claims_than_words(rt: HostRuntime) -> Result<(), Fail> {
    let alloc = rt.alloc();
    let case = Case {
        text: TIES,
        rows: &[2, 1],
        columns: &[
            values_in(0, 0, &[1, 0, 1, 1, 0, 0, 1, 0, 1, 1, 1, 1, 0, 0, 0, 1]),
            values_in(0, 1, &[200, 17]),
            values_in(0, 2, &[9, 14, 3, 5]),
            values_in(1, 0, &[HIGH]),
            values_in(1, 1, &[1 << 63, 5]),
        ],
    };
    // three and four claims on four words
    let claimed = [
        on(0, 0, 40, 0),
        on(1, 1, 70, 0),
        on(0, 1, 60, 0),
        on(1, 0, 80, 0),
    ];
    for claimed in [&claimed[..3], &claimed[..]] {
        let [first, second, third, fourth] = WAYS;
        let met = meets(alloc, case, claimed, first)?;
        assert_eq!(rt; met.1, 20);
        assert!(rt; met.3.is_some());
        for way in [second, third, fourth] {
            let again = meets(alloc, case, claimed, way)?;
            assert_eq!(rt; again, met);
        }
    }
    Ok(())
}

#[test]
fn few_claims(rt: HostRuntime) -> Result<(), Fail> {
    let alloc = rt.alloc();
    let case = Case {
        text: SMALL,
        rows: &[1],
        columns: &[values_in(0, 0, &[1]), values_in(0, 1, &[200])],
    };
    let whole = (joining(0), 18, None, Some(0x9));
    for way in WAYS {
        assert_eq!(rt; meets(alloc, case, &[], way)?, whole);
        for c in [0, 1] {
            let met = meets(alloc, case, &[on(0, c, 0, 0)], way)?;
            assert_eq!(rt; met, whole);
            let met = meets(alloc, case, &[on(0, c, 0, 1)], way)?;
            assert_eq!(rt; met, (joining(0), 1, ROUND, None));
        }
    }
    Ok(())
}

//! The product of a flush, by values from outside and beside the prover.

ghost use Rattle.std.specs.Prelude.{◌≡◌, ◌≤◌, List, IfOk, IsSome, IsTrue, Some};
ghost use Rattle.sumcheck.specs.declared.column_claim.ColumnClaim.{ColumnClaim as Claim};
ghost use Rattle.sumcheck.specs.Machine.{Filling};
ghost use Rattle.sumcheck.specs.Summing.{closed};
ghost use Rattle.table_shape.specs.Limits.{max_rows};
ghost use Rattle.table_shape.specs.declared.shape.FlushShape.{FlushShape as Flush};
ghost use Rattle.channel_products.specs.Descent.{leaves};
ghost use Rattle.channel_products.specs.DescentFields.{flush_in};
ghost use Rattle.channel_products.specs.DescentProver.{FollowsProduct};
ghost use Rattle.channel_products.specs.Given.{FlushIsThere};

use crate::balances;
use channel_products::{ProductProver, ProductWalk, has_lists};
use poly_forms::{CheckKind, DrawKind};
use reduction_inputs::{
    Given, Lack, Taken, agreed, element, first_pending, given_lists, rows_fit, run, shape_of,
};
use sqlite_items::at;
use std::alloc::Global;
use std::test::Fail;
use sumcheck::{ColumnTables, Entry, Next, Pending, Reduction, Refused, Steps, Stopping, SumOf};
use table_shape::Shape;
use tower_field::{B128, Tower};
use walk_example::meet;

/// Whether the first table has a flush of that number.
fn has_flush(shape: &Shape, flush: u32) -> bool
    ensures { IsTrue result → IsSome (flush_in shape.now.tables 0 flush) }
{
    match at(shape.tables(), 0) {
        Some(table) => (flush as usize) < table.flushes.len(),
        None => false,
    }
}

const PLAIN: &[u8] = b"channel c : 1; table t { column a : b8; push c (a); }";

/// The reduction of a product that is claimed at alpha and gamma.
fn stated(
    alloc: Global,
    rows: u32,
    alpha: u64,
    gamma: u64,
    product: u64,
) -> Result<Stopping<ProductWalk>, Fail> {
    let shape = shape_of(alloc, PLAIN)?;
    if !has_flush(&shape, 0) || rows > 100 {
        return Err(Fail::from(Lack));
    }
    let mut walk = ProductWalk::begin(alloc, &shape, 0, 0, rows)?;
    walk.enter(element(alpha), element(gamma), element(product));
    Ok(Stopping::new(walk))
}

/// A claim that is pending, on a layer, or where there is none on the leaves.
#[derive(Clone, Copy, PartialEq, Eq, Debug)]
enum Claimed {
    Sum(Option<u32>, u128),
    Round(Option<u32>, usize),
    Pair(u32, u128, u128),
    Column(u32, u128),
    Another,
}

fn layer_of(terms: &SumOf<'_>) -> Option<u32> {
    match terms {
        SumOf::Layer { layer, .. } => Some(*layer),
        _ => None,
    }
}

fn in_short(claim: &Pending<'_>) -> Claimed {
    match claim {
        Pending::Sum { terms, value, .. } => Claimed::Sum(layer_of(terms), value.number()),
        Pending::Round { terms, values, .. } => Claimed::Round(layer_of(terms), values.len()),
        Pending::LayerPair {
            layer,
            low,
            high,
            ..
        } => Claimed::Pair(*layer, low.number(), high.number()),
        Pending::Column { claim } => Claimed::Column(claim.column, claim.value.number()),
        _ => Claimed::Another,
    }
}

/// The first claim that is pending.
fn first_claim(product: &Stopping<ProductWalk>) -> Option<Claimed> {
    match first_pending(product) {
        Some(claim) => Some(in_short(&claim)),
        None => None,
    }
}

/// What a product's reduction is given, at 7 and 8, for a column of 3, 1 and 2, and 9 where there is no
/// row.
const ENTRIES: [Given<'_>; 11] = [
    Given::Message(&[14, 9]),
    Given::Draw(7),
    Given::Message(&[8, 13, 6, 14]),
    Given::Draw(8),
    Given::Message(&[7, 9]),
    Given::Draw(9),
    Given::Message(&[14, 2, 13, 9, 7]),
    Given::Draw(10),
    Given::Message(&[9, 10, 0, 3, 4]),
    Given::Draw(11),
    Given::Message(&[12]),
];

fn message(check: CheckKind, length: u32) -> Next {
    Next::Message { check, length }
}

fn draw(kind: DrawKind, count: u64) -> Next {
    Next::Draw { kind, count }
}

#[test]
fn layer_by_layer(rt: HostRuntime) -> Result<(), Fail> {
    let alloc = rt.alloc();
    // what is due, the claim of the round, and what is claimed
    let states = [
        (
            message(CheckKind::LayerFinal, 2),
            None,
            Claimed::Sum(Some(0), 11),
        ),
        (draw(DrawKind::LayerJoin, 1), None, Claimed::Pair(0, 14, 9)),
        (
            message(CheckKind::RoundSum, 4),
            Some(5),
            Claimed::Sum(Some(1), 5),
        ),
        (
            draw(DrawKind::LayerRound, 3),
            None,
            Claimed::Round(Some(1), 4),
        ),
        (
            message(CheckKind::LayerFinal, 2),
            None,
            Claimed::Sum(Some(1), 4),
        ),
        (draw(DrawKind::LayerJoin, 1), None, Claimed::Pair(1, 7, 9)),
        (
            message(CheckKind::RoundSum, 5),
            Some(12),
            Claimed::Sum(None, 12),
        ),
        (draw(DrawKind::LeafRound, 4), None, Claimed::Round(None, 5)),
        (
            message(CheckKind::RoundSum, 5),
            Some(3),
            Claimed::Sum(None, 3),
        ),
        (draw(DrawKind::LeafRound, 4), None, Claimed::Round(None, 5)),
        (
            message(CheckKind::LeafFinal, 1),
            None,
            Claimed::Sum(None, 10),
        ),
    ];
    let mut product = stated(alloc, 3, 7, 8, 11)?;
    for k in 0..11 {
        let (due, claim, first) = states[k];
        assert_eq!(rt; product.next(), due);
        assert_eq!(rt; product.round_claim(), claim.map(|n| element(n)));
        assert_eq!(rt; product.pending_count(), 1);
        assert_eq!(rt; first_claim(&product), Some(first));
        assert_eq!(rt;
            run(alloc, &mut product, &[ENTRIES[k]])?,
            (1, Taken::Passed)
        );
    }
    assert_eq!(rt; product.next(), Next::Done);
    assert_eq!(rt; first_claim(&product), Some(Claimed::Column(0, 12)));
    Ok(())
}

/// The same reduction after so many entries.
fn after(alloc: Global, count: usize) -> Result<Stopping<ProductWalk>, Fail> {
    let mut product = stated(alloc, 3, 7, 8, 11)?;
    run(alloc, &mut product, &ENTRIES[..count.min(11)])?;
    Ok(product)
}

/// Whether a reduction answers its refusal again, whatever comes next, and its claim stays.
fn stays_refused(
    alloc: Global,
    product: &mut Stopping<ProductWalk>,
    refused: Refused,
) -> Result<bool, Lack> {
    let before = first_claim(product);
    for next in ENTRIES {
        let again = match next {
            Given::Draw(_) => Taken::NotDue,
            Given::Message(_) => Taken::Refused(refused),
        };
        if run(alloc, product, &[next])? != (0, again) {
            return Ok(false);
        }
    }
    Ok(
        product.next() == Next::Stopped(refused)
            && product.round_claim().is_none()
            && first_claim(product) == before,
    )
}

fn refusal(check: CheckKind, left: u64, right: u64) -> Refused {
    Refused {
        check,
        left: element(left),
        right: element(right),
    }
}

#[test]
fn two_rows(rt: HostRuntime) -> Result<(), Fail> {
    let alloc = rt.alloc();
    // a column of 5 and 5
    let entries = [
        Given::Message(&[5, 5]),
        Given::Draw(3),
        Given::Message(&[10, 15, 0, 5, 7]),
        Given::Draw(9),
        Given::Message(&[5]),
    ];
    let mut product = stated(alloc, 2, 1, 0, 8)?;
    assert_eq!(rt; run(alloc, &mut product, &entries)?, (5, Taken::Passed));
    assert_eq!(rt; product.next(), Next::Done);
    assert_eq!(rt; first_claim(&product), Some(Claimed::Column(0, 5)));
    // 5 and 4
    let mut product = stated(alloc, 2, 1, 0, 8)?;
    let refused = refusal(CheckKind::LayerFinal, 13, 8);
    assert_eq!(rt;
        run(alloc, &mut product, &[Given::Message(&[5, 4])])?,
        (0, Taken::Refused(refused))
    );
    assert!(rt; stays_refused(alloc, &mut product, refused)?);
    Ok(())
}

#[test]
fn wrong_messages(rt: HostRuntime) -> Result<(), Fail> {
    let alloc = rt.alloc();
    // after so many entries a message with one value off, and how it is refused
    let wrong: [(usize, &[u64], CheckKind, u64, u64); 6] = [
        (0, &[14, 8], CheckKind::LayerFinal, 5, 11),
        (2, &[8, 12, 6, 14], CheckKind::RoundSum, 4, 5),
        (4, &[7, 8], CheckKind::LayerFinal, 2, 4),
        (6, &[14, 3, 13, 9, 7], CheckKind::RoundSum, 13, 12),
        (8, &[9, 11, 0, 3, 4], CheckKind::RoundSum, 2, 3),
        (10, &[13], CheckKind::LeafFinal, 15, 10),
    ];
    for (count, message, check, left, right) in wrong {
        let mut product = after(alloc, count)?;
        let refused = refusal(check, left, right);
        assert_eq!(rt;
            run(alloc, &mut product, &[Given::Message(message)])?,
            (0, Taken::Refused(refused))
        );
        assert!(rt; stays_refused(alloc, &mut product, refused)?);
    }
    Ok(())
}

#[test]
fn wrong_values_of_a_right_product(rt: HostRuntime) -> Result<(), Fail> {
    let alloc = rt.alloc();
    // two values for a layer, the next entries, and how the round among them is refused
    for (count, values, draw, round, left, right) in [
        (0, [11, 1], ENTRIES[1], ENTRIES[2], 5, 8),
        (4, [13, 1], ENTRIES[5], ENTRIES[6], 12, 8),
    ] {
        let mut product = after(alloc, count)?;
        let refused = refusal(CheckKind::RoundSum, left, right);
        assert_eq!(rt;
            run(alloc, &mut product, &[Given::Message(&values), draw, round])?,
            (2, Taken::Refused(refused))
        );
        assert!(rt; stays_refused(alloc, &mut product, refused)?);
    }
    Ok(())
}

/// The product of a flush of the first table at 7 and 8, as the prover of its channels tells it.
fn true_product(
    alloc: Global,
    shape: &Shape,
    rows: u32,
    tables: &ColumnTables,
    flush: u32,
) -> Result<B128, Lack> {
    if !rows_fit(shape, &[rows]) || !has_lists(alloc, shape, &[rows], tables)? {
        return Err(Lack);
    }
    let (mut walk, mut prover) = balances::begun(alloc, shape, &[rows], tables)?;
    let mut values = Vec::new(alloc);
    // alpha, gamma and the message
    meet(&mut walk, &mut prover, 3, &mut values)?;
    match at(values.as_slice(), flush as usize) {
        Some(value) => Ok(*value),
        None => Err(Lack),
    }
}

/// The walk of a flush of the first table and its prover, a product at 7 and 8 claimed.
fn begun<'a>(
    alloc: Global,
    shape: &Shape,
    flush: u32,
    rows: u32,
    tables: &'a ColumnTables,
    product: B128,
) -> Result<(ProductWalk, ProductProver<'a>), Lack>
    requires some { IsSome (flush_in shape.now.tables 0 flush) }
    requires few { rows ≤ max_rows }
    requires there { (f : Flush) → flush_in shape.now.tables 0 flush ≡ Some f → FlushIsThere tables.now (record { table = 0; number = flush; rows = rows; shape = f }) }
    ensures { IfOk result (λ both. (F : Filling) × FollowsProduct both.1 F both.0) }
{
    let mut walk = ProductWalk::begin(alloc, shape, 0, flush, rows)?;
    walk.enter(element(7), element(8), product);
    let mut prover = ProductProver::begin(alloc, shape, 0, flush, rows, tables)?;
    prover.enter(element(7), element(8), product);
    Ok((walk, prover))
}

/// How many claims walk and prover leave, where both leave the same.
fn left_alike(walk: ProductWalk, prover: &ProductProver<'_>) -> Option<u32>
    requires { (F : Filling) × (claims : List Claim) × FollowsProduct prover.now F (leaves (closed claims)) × (walk ≡ leaves (closed claims)) }
{
    let count = walk.claim_count();
    if count != prover.claim_count() {
        return None;
    }
    for i in 0..count {
        if agreed(prover.claim(i), walk.claim(i)).is_none() {
            return None;
        }
    }
    if walk.leave().len() == count as usize {
        Some(count)
    } else {
        None
    }
}

/// What walk and prover came to.
#[derive(Clone, Copy, PartialEq, Eq, Debug)]
struct Met {
    /// How many entries passed.
    passed: u32,
    /// The message that was refused.
    refused: Option<Entry>,
    /// How many claims both leave alike at the end.
    left: Option<u32>,
}

/// Walk and prover side by side.
fn side_by_side(
    alloc: Global,
    mut walk: ProductWalk,
    mut prover: ProductProver<'_>,
) -> Result<Met, Lack>
    requires { (F : Filling) × FollowsProduct prover F walk }
{
    let mut values = Vec::new(alloc);
    let (passed, ended) = meet(&mut walk, &mut prover, 100, &mut values)?;
    let refused = walk.due();
    let left = if ended {
        left_alike(walk, &prover)
    } else {
        None
    };
    Ok(Met {
        passed,
        refused,
        left,
    })
}

/// A flush of the only table of a text, on lists for its first columns.
#[derive(Clone, Copy)]
struct Case<'a> {
    text: &'a [u8],
    flush: u32,
    rows: u32,
    lists: &'a [&'a [u64]],
}

/// The product of a flush, and what its walk comes to from there beside the prover, whose lists are
/// others than those of the product.
fn meets(
    alloc: Global,
    case: Case<'_>,
    others: &[&[u64]],
    error: u64,
) -> Result<(u128, Met), Fail> {
    let shape = shape_of(alloc, case.text)?;
    let product = true_product(
        alloc,
        &shape,
        case.rows,
        &given_lists(alloc, case.lists)?,
        case.flush,
    )?;
    let tables = given_lists(alloc, others)?;
    if !has_flush(&shape, case.flush) || !rows_fit(&shape, &[case.rows]) {
        return Err(Fail::from(Lack));
    }
    if !has_lists(alloc, &shape, &[case.rows], &tables)? {
        return Err(Fail::from(Lack));
    }
    let claimed = product + element(error);
    let (walk, prover) = begun(alloc, &shape, case.flush, case.rows, &tables, claimed)?;
    Ok((product.number(), side_by_side(alloc, walk, prover)?))
}

/// All entries pass, and the claims are left alike.
fn whole(entries: u32, claims: u32) -> Met {
    Met {
        passed: entries,
        refused: None,
        left: Some(claims),
    }
}

/// The first message is refused: of two values of a layer, or where there is only one row of a value
/// for each claim.
fn refused_at_once(entries: u32, claims: u32) -> Met {
    let (check, length) = if entries == 1 {
        (CheckKind::LeafFinal, claims)
    } else {
        (CheckKind::LayerFinal, 2)
    };
    Met {
        passed: 0,
        refused: Some(Entry::Message { check, length }),
        left: None,
    }
}

#[test]
fn rows_of_one_column(rt: HostRuntime) -> Result<(), Fail> {
    let alloc = rt.alloc();
    // rows, a list, another one, whether it shows, the product, and how many entries pass
    let cases: [(u32, &[u64], &[u64], bool, u128, u32); 6] = [
        (0, &[3], &[4], false, 1, 1),
        (1, &[3], &[4], true, 11, 1),
        (2, &[3, 1], &[3, 2], true, 8, 5),
        (3, &[3, 1, 2, 9], &[3, 1, 2, 8], false, 11, 11),
        (4, &[3, 1, 2, 12], &[3, 1, 2, 13], true, 2, 11),
        (
            8,
            &[3, 1, 2, 12, 0, 7, 5, 13],
            &[3, 1, 2, 12, 0, 7, 4, 13],
            true,
            8,
            19,
        ),
    ];
    for (rows, list, other, shows, product, entries) in cases {
        let case = Case {
            text: PLAIN,
            flush: 0,
            rows,
            lists: &[list],
        };
        let (passed, refused) = (whole(entries, 1), refused_at_once(entries, 1));
        assert_eq!(rt; meets(alloc, case, &[list], 0)?, (product, passed));
        assert_eq!(rt; meets(alloc, case, &[list], 1)?, (product, refused));
        let met = if shows { refused } else { passed };
        assert_eq!(rt; meets(alloc, case, &[other], 0)?, (product, met));
    }
    Ok(())
}

const TWICE: &[u8] = b"channel c : 2; table t { column a : b8; push c (a, a); }";

const SELECTED: &[u8] =
    b"channel c : 1; table t { column s : b1; column a : b8; push c (a) if s; push c (s) if s; }";

const PAIRS: &[u8] =
    b"channel c : 2; table t { column s : b1; column a : b8; push c (s, a) if s; }";

const THREE: &[u8] =
    b"channel c : 3; table t { column a : b8; column b : b8; column d : b8; pull c (b, b, b); push c (a, b, d); }";

const BITS: &[u64] = &[1, 0, 1, 1];

const LIST: &[u64] = &[3, 1, 2, 12];

const SMALL: &[u64] = &[0, 0, 1, 5];

const LARGE: &[u64] = &[200, 4, 4, 8];

#[test]
fn several_columns(rt: HostRuntime) -> Result<(), Fail> {
    let alloc = rt.alloc();
    // a flush and its rows, lists, other ones, whether they show, the product, and how many claims are left
    let cases: [(&[u8], u32, u32, &[&[u64]], &[&[u64]], bool, u128, u32); 6] = [
        // a column twice
        (TWICE, 0, 3, &[LIST], &[&[3, 1, 7, 12]], true, 3, 2),
        // a row that isn't taken, and a selector that takes it
        (
            SELECTED,
            0,
            4,
            &[BITS, LIST],
            &[BITS, &[3, 9, 2, 12]],
            false,
            15,
            2,
        ),
        (
            SELECTED,
            0,
            4,
            &[BITS, LIST],
            &[&[1, 1, 1, 1], LIST],
            true,
            15,
            2,
        ),
        // a selector that is the tuple, and one that stands in it
        (
            SELECTED,
            1,
            4,
            &[BITS, LIST],
            &[&[1, 1, 1, 1], LIST],
            true,
            4,
            2,
        ),
        (
            PAIRS,
            0,
            3,
            &[BITS, &[3, 1, 4, 12]],
            &[BITS, LIST],
            true,
            15,
            3,
        ),
        (
            THREE,
            1,
            4,
            &[LIST, SMALL, LARGE],
            &[LIST, SMALL, BITS],
            true,
            44,
            3,
        ),
    ];
    for (text, flush, rows, lists, others, shows, product, claims) in cases {
        let case = Case {
            text,
            flush,
            rows,
            lists,
        };
        let (passed, refused) = (whole(11, claims), refused_at_once(11, claims));
        assert_eq!(rt; meets(alloc, case, lists, 0)?, (product, passed));
        assert_eq!(rt; meets(alloc, case, lists, 1)?, (product, refused));
        let met = if shows { refused } else { passed };
        assert_eq!(rt; meets(alloc, case, others, 0)?, (product, met));
    }
    Ok(())
}

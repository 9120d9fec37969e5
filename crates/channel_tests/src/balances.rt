//! The channels of a shape, by values from outside and beside the prover.

ghost use Rattle.std.specs.Prelude.{◌≡◌, ℕ, ◌≤◌, List, length, slice_index, IfOk};
ghost use Rattle.sumcheck.specs.Machine.{Filling};
ghost use Rattle.table_shape.specs.Limits.{max_rows};
ghost use Rattle.channel_products.specs.Balancing.{told};
ghost use Rattle.channel_products.specs.Channels.{channels_of};
ghost use Rattle.channel_products.specs.Following.{FollowsBalance};
ghost use Rattle.channel_products.specs.Given.{AreThere};
ghost use Rattle.channel_products.specs.declared.channels.Channels.{Channels as Parts};

use channel_products::{BalanceProver, BalanceWalk, has_lists};
use poly_forms::{CheckKind, DrawKind};
use reduction_inputs::{
    Given, Lack, Taken, element, first_pending, given_tables, rows_fit, run, shape_of,
};
use std::alloc::Global;
use std::test::Fail;
use sumcheck::{ColumnTables, Next, Pending, Reduction, Refused, Stopping};
use table_shape::Shape;
use tower_field::Tower;
use walk_example::meet;

/// The reduction of a text's channels, once the claim is stated.
fn stated(alloc: Global, text: &[u8], rows: &[u32]) -> Result<Stopping<BalanceWalk>, Fail> {
    let shape = shape_of(alloc, text)?;
    if !rows_fit(&shape, rows) {
        return Err(Fail::from(Lack));
    }
    let mut walk = BalanceWalk::begin(alloc, &shape, rows)?;
    walk.enter();
    Ok(Stopping::new(walk))
}

/// Of a claim on a flush's product the flush, alpha, gamma and the value.
fn product_of(claim: &Pending<'_>) -> Option<(u32, u128, u128, u128)> {
    match claim {
        Pending::FlushProduct {
            flush,
            alpha,
            gamma,
            value,
            ..
        } => Some((*flush, alpha.number(), gamma.number(), value.number())),
        _ => None,
    }
}

/// The same of the first claim that is pending.
fn product_told(balance: &Stopping<BalanceWalk>) -> Option<(u32, u128, u128, u128)> {
    match first_pending(balance) {
        Some(claim) => product_of(&claim),
        None => None,
    }
}

/// A refused message of products.
fn unequal(left: u64, right: u64) -> Refused {
    Refused {
        check: CheckKind::Products,
        left: element(left),
        right: element(right),
    }
}

const ONE: &[u8] = b"channel c : 1; boundary pull c (5); table t { column a : b8; push c (a); }";

#[test]
fn products_of_one_flush(rt: HostRuntime) -> Result<(), Fail> {
    let alloc = rt.alloc();
    // the draws, the claimed product and what stands against it
    for (alpha, gamma, product, right) in [
        (1, 0, 5, None),
        (9, 0, 5, None),
        (1, 3, 6, None),
        (1, 0, 8, Some(5)),
        (1, 3, 8, Some(6)),
    ] {
        let mut balance = stated(alloc, ONE, &[1])?;
        let draws = [Given::Draw(alpha), Given::Draw(gamma)];
        assert_eq!(rt; run(alloc, &mut balance, &draws)?, (2, Taken::Passed));
        assert_eq!(rt; balance.pending_count(), 1);
        let message = [Given::Message(&[product])];
        let Some(right) = right else {
            assert_eq!(rt; run(alloc, &mut balance, &message)?, (1, Taken::Passed));
            assert_eq!(rt; balance.next(), Next::Done);
            let told = (0, u128::from(alpha), u128::from(gamma), u128::from(product));
            assert_eq!(rt; product_told(&balance), Some(told));
            continue;
        };
        // a true message comes too late
        let refused = unequal(product, right);
        for message in [message, [Given::Message(&[right])]] {
            assert_eq!(rt;
                run(alloc, &mut balance, &message)?,
                (0, Taken::Refused(refused))
            );
            assert_eq!(rt; balance.next(), Next::Stopped(refused));
            assert_eq!(rt; product_told(&balance), None);
        }
    }
    Ok(())
}

#[test]
fn nothing_to_show(rt: HostRuntime) -> Result<(), Fail> {
    let balance = stated(rt.alloc(), b"table t { column a : b8; }", &[1])?;
    assert_eq!(rt; balance.next(), Next::Done);
    assert_eq!(rt; balance.pending_count(), 0);
    Ok(())
}

#[test]
fn boundaries_alone(rt: HostRuntime) -> Result<(), Fail> {
    let alloc = rt.alloc();
    let texts: [(&[u8], Taken); 3] = [
        (b"channel c : 1;", Taken::Passed),
        (
            b"channel c : 1; boundary push c (5); boundary pull c (5);",
            Taken::Passed,
        ),
        (
            b"channel c : 1; channel d : 1; boundary push d (5); boundary pull d (6);",
            Taken::Refused(unequal(7, 4)),
        ),
    ];
    for (text, taken) in texts {
        let mut balance = stated(alloc, text, &[])?;
        let draws = [Given::Draw(9), Given::Draw(2)];
        assert_eq!(rt; run(alloc, &mut balance, &draws)?, (2, Taken::Passed));
        assert_eq!(rt;
            balance.next(),
            Next::Message {
                check: CheckKind::Products,
                length: 0
            }
        );
        let (_, last) = run(alloc, &mut balance, &[Given::Message(&[])])?;
        assert_eq!(rt; last, taken);
    }
    Ok(())
}

#[test]
fn counts_of_draws(rt: HostRuntime) -> Result<(), Fail> {
    let alloc = rt.alloc();
    // pairs of three rows and two boundaries
    let text =
        b"channel c : 2; boundary pull c (1, 1); boundary pull c (2, 2); table t { column a : b8; push c (a, a); }";
    let mut balance = stated(alloc, text, &[3])?;
    let (kind, count) = (DrawKind::Alpha, 5);
    assert_eq!(rt; balance.next(), Next::Draw { kind, count });
    assert_eq!(rt;
        run(alloc, &mut balance, &[Given::Draw(7)])?,
        (1, Taken::Passed)
    );
    let (kind, count) = (DrawKind::Gamma, 3);
    assert_eq!(rt; balance.next(), Next::Draw { kind, count });
    // a message in place of the draw
    assert_eq!(rt;
        run(alloc, &mut balance, &[Given::Message(&[1])])?,
        (0, Taken::NotDue)
    );
    Ok(())
}

/// The walk of a shape's channels and its prover, the claim stated.
pub fn begun<'a>(
    alloc: Global,
    shape: &Shape,
    rows: &[u32],
    tables: &'a ColumnTables,
) -> Result<(BalanceWalk, BalanceProver<'a>), Lack>
    requires counts { length rows.now ≡ length shape.now.tables }
    requires few { (t : ℕ) → slice_index rows.now t ≤ max_rows }
    requires there { let channels = channels_of shape.now rows.now in AreThere tables.now channels.flushes }
    ensures { IfOk result (λ both. (F : Filling) × FollowsBalance both.1 F both.0) }
{
    let mut walk = BalanceWalk::begin(alloc, shape, rows)?;
    walk.enter();
    let mut prover = BalanceProver::begin(alloc, shape, rows, tables)?;
    prover.enter();
    Ok((walk, prover))
}

/// How many products walk and prover leave, where both leave the same.
fn left_alike(walk: &BalanceWalk, prover: &BalanceProver<'_>) -> Option<usize>
    requires { (F : Filling) × (ch : Parts) × (a : ℕ) × (g : ℕ) × (v : List ℕ) × (_ : FollowsBalance prover.now F (told ch a g v)) × (walk.now ≡ told ch a g v) }
{
    let (alpha, gamma, values) = walk.result();
    let (own_alpha, own_gamma, own_values) = prover.result();
    if alpha != own_alpha || gamma != own_gamma || values != own_values {
        return None;
    }
    if walk.claim_count() != 0 || prover.claim_count() != 0 {
        return None;
    }
    Some(values.len())
}

/// Walk and prover side by side: how many entries pass, and how many products both leave alike at the
/// end.
fn side_by_side(
    alloc: Global,
    mut walk: BalanceWalk,
    mut prover: BalanceProver<'_>,
) -> Result<(u32, Option<usize>), Lack>
    requires { (F : Filling) × FollowsBalance prover F walk }
{
    let mut values = Vec::new(alloc);
    let (passed, ended) = meet(&mut walk, &mut prover, 20, &mut values)?;
    let left = if ended {
        left_alike(&walk, &prover)
    } else {
        None
    };
    Ok((passed, left))
}

/// The walk of a text's channels beside its prover, on lists for the first columns of each table. None
/// passes where lists lack.
fn meets(
    alloc: Global,
    text: &[u8],
    rows: &[u32],
    lists: &[&[&[u64]]],
) -> Result<(u32, Option<usize>), Fail> {
    let shape = shape_of(alloc, text)?;
    let tables = given_tables(alloc, lists)?;
    if !rows_fit(&shape, rows) {
        return Err(Fail::from(Lack));
    }
    if !has_lists(alloc, &shape, rows, &tables)? {
        return Ok((0, None));
    }
    let (walk, prover) = begun(alloc, &shape, rows, &tables)?;
    Ok(side_by_side(alloc, walk, prover)?)
}

const TWO: &[u8] =
    b"channel c : 1; table t { column a : b8; push c (a); } table u { column b : b8; pull c (b); }";

#[test]
fn few_rows(rt: HostRuntime) -> Result<(), Fail> {
    let alloc = rt.alloc();
    for (rows, a, b, passed, left) in [
        // of no rows a list has one value all the same, which counts for nothing
        ([0, 0], 3, 4, 3, Some(2)),
        ([1, 1], 7, 7, 3, Some(2)),
        ([1, 1], 7, 8, 2, None),
        ([1, 0], 7, 7, 2, None),
    ] {
        let met = meets(alloc, TWO, &rows, &[&[&[a]], &[&[b]]])?;
        assert_eq!(rt; met, (passed, left));
    }
    Ok(())
}

#[test]
fn more_rows(rt: HostRuntime) -> Result<(), Fail> {
    let alloc = rt.alloc();
    let texts: [(&[u8], u32, &[u64], u32, Option<usize>); 6] = [
        // a column twice in a tuple
        (TWICE, 3, &[3, 1, 2, 9], 3, Some(2)),
        (PULLED, 3, &[3, 1, 2, 9], 3, Some(1)),
        (PULLED, 4, &[3, 1, 2, 9], 2, None),
        // a selector that stands in the tuple too
        (SELECTED, 3, &[1, 0, 1, 1], 3, Some(1)),
        (SELECTED, 4, &[1, 0, 1, 1], 2, None),
        // two values where there are four
        (SELECTED, 2, &[1, 0, 1, 1], 0, None),
    ];
    for (text, rows, list, passed, left) in texts {
        let met = meets(alloc, text, &[rows], &[&[list]])?;
        assert_eq!(rt; met, (passed, left));
    }
    Ok(())
}

const TWICE: &[u8] = b"channel c : 2; table t { column a : b8; push c (a, a); pull c (a, a); }";

const PULLED: &[u8] =
    b"channel c : 2; boundary pull c (3, 3); boundary pull c (1, 1); boundary pull c (2, 2); table t { column a : b8; push c (a, a); }";

const SELECTED: &[u8] =
    b"channel c : 1; boundary pull c (1); boundary pull c (1); table t { column s : b1; push c (s) if s; }";

//! Claims on one column, merged.

ghost use Rattle.std.specs.Prelude.{◌≡◌, ◌≤◌, ◌+◌, ◌∷◌, [], length, IfOk};
ghost use Rattle.eval_reduce.specs.Merge.{points, AllOn};

use cube_mle::mle_at;
use eval_reduce::{MergeProver, MergeWalk};
use reduction_inputs::{Lack, agreed, element};
use std::alloc::Global;
use sumcheck::ColumnClaim;
use tower_field::{B128, Tower, Values};
use walk_example::meet;

/// The claim at (x, y) on a column of four values, its value off by `error`.
fn claim(alloc: Global, column: &[B128], x: u64, y: u64, error: u64) -> Result<ColumnClaim, Lack>
    requires { length column.now ≡ 4 }
    ensures { IfOk result (λ c. (c.table ≡ 0) × ((c.column ≡ 5) × (c.point ≡ x ∷ y ∷ []))) }
{
    let mut point = Values::new(alloc);
    if point.push(element(x)).is_err() {
        return Err(Lack);
    }
    if point.push(element(y)).is_err() {
        return Err(Lack);
    }
    let Ok(value) = mle_at(alloc, column, point.as_slice()) else {
        return Err(Lack);
    };
    Ok(ColumnClaim {
        table: 0,
        column: 5,
        point,
        value: value + element(error),
    })
}

/// Claims on a column, of which the prover is told other values than the walk: how many entries pass,
/// and where all do, on which value both agree.
fn merge(
    alloc: Global,
    column: &[B128],
    claims: &[ColumnClaim],
    told: &[ColumnClaim],
) -> Result<(u32, Option<u128>), Lack>
    requires whole { length column.now ≡ 4 }
    requires many { (2 ≤ length claims.now) × (length claims.now ≤ 32) }
    requires on { AllOn 0 5 2 claims.now }
    requires told { AllOn 0 5 2 told.now × (points claims.now ≡ points told.now) }
{
    let mut walk = MergeWalk::begin(alloc, 2, 32)?;
    walk.enter(claims);
    let mut prover = MergeProver::begin(alloc, 2, 32, column)?;
    prover.enter(told);
    let mut values = Vec::new(alloc);
    let (passed, ended) = meet(&mut walk, &mut prover, 20, &mut values)?;
    if !ended {
        return Ok((passed, None));
    }
    Ok((passed, agreed(prover.claim(0), walk.claim(0))))
}

/// Two claims on a column, or three, the last of them off by `error` for the walk and by `told` for the
/// prover.
fn merge_some(
    alloc: Global,
    column: [u64; 4],
    three: bool,
    error: u64,
    told: u64,
) -> Result<(u32, Option<u128>), Lack> {
    let column = column.map(|n| element(n));
    let first = claim(alloc, &column, 40, 90, 0)?;
    let last = claim(alloc, &column, 41, 97, error)?;
    let own_first = claim(alloc, &column, 40, 90, 0)?;
    let own_last = claim(alloc, &column, 41, 97, told)?;
    if three {
        let between = claim(alloc, &column, 0, 1, 0)?;
        let own_between = claim(alloc, &column, 0, 1, 0)?;
        return merge(
            alloc,
            &column,
            &[first, between, last],
            &[own_first, own_between, own_last],
        );
    }
    merge(alloc, &column, &[first, last], &[own_first, own_last])
}

/// One more claim for the walk, and the prover's.
#[tactic(auto, using(crate::proofs::Claims::all_more, crate::proofs::Claims::points_more))]
fn add_claim(
    alloc: Global,
    column: &[B128],
    x: u64,
    error: u64,
    claims: &mut Vec<ColumnClaim>,
    told: &mut Vec<ColumnClaim>,
) -> Result<(), Lack>
    requires whole { length column.now ≡ 4 }
    requires on { AllOn 0 5 2 claims.old.items }
    requires told { AllOn 0 5 2 told.old.items × (points claims.old.items ≡ points told.old.items) }
    ensures on { IfOk result (λ _. AllOn 0 5 2 claims.new.items) }
    ensures told { IfOk result (λ _. AllOn 0 5 2 told.new.items × (points claims.new.items ≡ points told.new.items)) }
    ensures more { IfOk result (λ _. length claims.new.items ≡ length claims.old.items + 1) }
{
    let own = claim(alloc, column, x, 90, 0)?;
    let claim = claim(alloc, column, x, 90, error)?;
    if claims.push(claim).is_err() || told.push(own).is_err() {
        return Err(Lack);
    }
    Ok(())
}

/// So many claims on a column, all of them off by `error` for the walk.
fn merge_many(
    alloc: Global,
    column: [u64; 4],
    many: u64,
    error: u64,
) -> Result<(u32, Option<u128>), Lack>
    requires { (2 ≤ many) × (many ≤ 32) }
{
    let column = column.map(|n| element(n));
    let mut claims = Vec::new(alloc);
    let mut told = Vec::new(alloc);
    'claims: for k in 0..many {
        add_claim(alloc, &column, k, error, &mut claims, &mut told)?;
    }
    merge(alloc, &column, claims.as_slice(), told.as_slice())
}

#[test]
fn walk_against_prover(rt: HostRuntime) -> Result<(), Lack> {
    let alloc = rt.alloc();
    // the columns at (9, 11)
    for (column, value) in [
        ([1000, 1077, 1154, 1231], 0x2a),
        ([0, 0, 0, 0], 0),
        ([1, 2, 4, 8], 2),
    ] {
        for three in [false, true] {
            assert_eq!(rt; merge_some(alloc, column, three, 0, 0)?, (6, Some(value)));
            assert_eq!(rt; merge_some(alloc, column, three, 0, 1)?, (6, Some(value)));
            assert_eq!(rt; merge_some(alloc, column, three, 1, 1)?, (1, None));
        }
    }
    Ok(())
}

#[test]
fn many_claims(rt: HostRuntime) -> Result<(), Lack> {
    let alloc = rt.alloc();
    let column = [1000, 1077, 1154, 1231];
    for many in [2, 7, 32] {
        assert_eq!(rt; merge_many(alloc, column, many, 0)?, (6, Some(0x2a)));
        assert_eq!(rt; merge_many(alloc, column, many, 1)?, (1, None));
    }
    Ok(())
}

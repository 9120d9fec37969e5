//! The constraints of a group, by values from outside and beside the prover.

ghost use Rattle.std.specs.Prelude.{◌≡◌, ◌≤◌, ◌^◌, List, IfOk, IsSome, Some};
ghost use Rattle.sumcheck.specs.declared.column_claim.ColumnClaim.{ColumnClaim as Claim};
ghost use Rattle.sumcheck.specs.Machine.{Filling};
ghost use Rattle.sumcheck.specs.Summing.{closed};
ghost use Rattle.table_shape.specs.Limits.{max_rows};
ghost use Rattle.zerocheck.specs.Given.{AreThere};
ghost use Rattle.zerocheck.specs.Group.{Group as Constraints, group_of};
ghost use Rattle.zerocheck.specs.Zero.{summed};
ghost use Rattle.zerocheck.specs.ZeroProver.{FollowsZero};

use reduction_inputs::{Given, Lack, agreed, given_lists, run, shape_of};
use sqlite_items::at;
use std::alloc::Global;
use std::test::Fail;
use sumcheck::{ColumnTables, Reduction, Stopping};
use table_shape::Shape;
use walk_example::meet;
use zerocheck::{ZeroProver, ZeroWalk, has_group, has_lists};

/// The walk of the first constraint's group of the first table, once the claim is stated.
fn stated(alloc: Global, shape: &Shape, rows: u32) -> Result<Option<ZeroWalk>, Lack>
    requires { rows ≤ max_rows }
{
    let Some(table) = at(shape.tables(), 0) else {
        return Ok(None);
    };
    let Some(constraint) = at(table.constraints.as_slice(), 0) else {
        return Ok(None);
    };
    let mut walk = ZeroWalk::begin(alloc, shape, 0, constraint.log_values, rows)?;
    walk.enter();
    Ok(Some(walk))
}

/// What is given to the walk of a text's first constraint: how many entries pass, and how many claims
/// are pending then.
fn passes(
    alloc: Global,
    text: &[u8],
    rows: u32,
    given: &[Given<'_>],
) -> Result<(usize, u32), Fail> {
    if rows > 100 {
        return Err(Fail::from(Lack));
    }
    let shape = shape_of(alloc, text)?;
    let Some(walk) = stated(alloc, &shape, rows)? else {
        return Ok((0, 0));
    };
    let mut constraints = Stopping::new(walk);
    let (passed, _) = run(alloc, &mut constraints, given)?;
    Ok((passed, constraints.pending_count()))
}

const ONE: &[u8] = b"table t { column a : b2; zero z : a; }";

const WIDE: &[u8] = b"table t { column a : b2 x 2; zero z : a; }";

const TWO: &[u8] =
    b"table t { column a : b4; column c : b4 x 2; column b : b4; zero y : a*a + a; zero w : c; zero z : b*b + b + 1; }";

#[test]
fn one_constraint(rt: HostRuntime) -> Result<(), Fail> {
    let alloc = rt.alloc();
    for (text, rows) in [(ONE, 2), (WIDE, 1)] {
        for (draw, message, last, passed) in [
            (9, [0, 0, 0, 0], 0, 5),
            (9, [0, 0, 0, 0], 1, 4),
            (0, [3, 1, 0, 0], 0, 2),
            (3, [2, 0, 0, 2], 4, 2),
            // a column of 1 and 0, and a coordinate that hides the 1
            (1, [0, 0, 1, 1], 4, 5),
            (1, [0, 0, 1, 1], 5, 4),
        ] {
            let given = [
                Given::Draw(0),
                Given::Draw(draw),
                Given::Message(&message),
                Given::Draw(5),
                Given::Message(&[last]),
            ];
            assert_eq!(rt; passes(alloc, text, rows, &given)?, (passed, 1));
        }
        let given = [Given::Draw(0), Given::Message(&[0, 0, 0, 0])];
        assert_eq!(rt; passes(alloc, text, rows, &given)?, (1, 1));
    }
    Ok(())
}

#[test]
fn a_row_of_padding(rt: HostRuntime) -> Result<(), Fail> {
    // a column of 0, 0 and 0, and 7 where there is no row
    let given = [
        Given::Draw(0),
        Given::Draw(11),
        Given::Draw(6),
        Given::Message(&[0, 0, 9, 5]),
        Given::Draw(5),
        Given::Message(&[0, 5, 1, 12]),
        Given::Draw(12),
        Given::Message(&[4]),
    ];
    assert_eq!(rt; passes(rt.alloc(), ONE, 3, &given)?, (8, 1));
    // with a fourth row it is not 0
    assert_eq!(rt; passes(rt.alloc(), ONE, 4, &given)?, (7, 1));
    Ok(())
}

#[test]
fn two_constraints(rt: HostRuntime) -> Result<(), Fail> {
    for (values, passed, pending) in [([2, 9], 8, 2), ([9, 2], 7, 1)] {
        let given = [
            Given::Draw(4),
            Given::Draw(11),
            Given::Draw(6),
            Given::Message(&[0, 0, 4, 4, 9]),
            Given::Draw(5),
            Given::Message(&[14, 7, 3, 15, 5]),
            Given::Draw(12),
            Given::Message(&values),
        ];
        assert_eq!(rt; passes(rt.alloc(), TWO, 3, &given)?, (passed, pending));
    }
    Ok(())
}

/// How many claims walk and prover leave, where both leave the same.
fn left_alike(walk: &ZeroWalk, prover: &ZeroProver) -> Option<u32>
    requires { (F : Filling) × (claims : List Claim) × FollowsZero prover.now F (summed (closed claims)) × (walk.now ≡ summed (closed claims)) }
{
    let count = walk.claim_count();
    if count != prover.claim_count() {
        return None;
    }
    for i in 0..count {
        if agreed(prover.claim(i), walk.claim(i)).is_none() {
            return None;
        }
    }
    Some(count)
}

/// The walk of a group of the first table and its prover, the claim stated.
fn begun(
    alloc: Global,
    shape: &Shape,
    log_values: u32,
    rows: u32,
    tables: &ColumnTables,
) -> Result<(ZeroWalk, ZeroProver), Lack>
    requires some { IsSome (group_of shape.now.tables rows 0 log_values) }
    requires few { rows ≤ max_rows }
    requires there { (g : Constraints) → group_of shape.now.tables rows 0 log_values ≡ Some g → AreThere tables.now g.table (2 ^ g.vars) g.columns }
    ensures { IfOk result (λ both. (F : Filling) × FollowsZero both.1 F both.0) }
{
    let mut walk = ZeroWalk::begin(alloc, shape, 0, log_values, rows)?;
    walk.enter();
    let mut prover = ZeroProver::begin(alloc, shape, 0, log_values, rows, tables)?;
    prover.enter();
    Ok((walk, prover))
}

/// Walk and prover side by side: how many entries pass, and how many claims both leave alike at the
/// end.
fn side_by_side(
    alloc: Global,
    mut walk: ZeroWalk,
    mut prover: ZeroProver,
) -> Result<(u32, Option<u32>), Lack>
    requires { (F : Filling) × FollowsZero prover F walk }
{
    let mut values = Vec::new(alloc);
    let (passed, ended) = meet(&mut walk, &mut prover, 100, &mut values)?;
    let left = if ended {
        left_alike(&walk, &prover)
    } else {
        None
    };
    Ok((passed, left))
}

/// The walk of a group of a text's first table beside its prover, on lists for the first columns.
fn meets(
    alloc: Global,
    text: &[u8],
    log_values: u32,
    rows: u32,
    lists: &[&[u64]],
) -> Result<(u32, Option<u32>), Fail> {
    if rows > 100 {
        return Err(Fail::from(Lack));
    }
    let shape = shape_of(alloc, text)?;
    let tables = given_lists(alloc, lists)?;
    if !has_group(&shape, 0, log_values) {
        return Ok((0, None));
    }
    if !has_lists(alloc, &shape, 0, log_values, rows, &tables)? {
        return Ok((0, None));
    }
    let (walk, prover) = begun(alloc, &shape, log_values, rows, &tables)?;
    Ok(side_by_side(alloc, walk, prover)?)
}

const PLAIN: &[u8] = b"table t { column a : b1; zero z : a + 1; }";

/// Constraints of degree 1 to 8 that are 0 where a is 0 or 1, and from degree 2 on not where it is 2.
const POWERS: [&[u8]; 8] = [
    b"table t { column a : b1; zero z : a + a; }",
    b"table t { column a : b1; zero z : a*a + a; }",
    b"table t { column a : b1; zero z : a*a*a + a*a; }",
    b"table t { column a : b1; zero z : a*a*a*a + a*a; }",
    b"table t { column a : b1; zero z : a*a*a*a*a + a; }",
    b"table t { column a : b1; zero z : a*a*a*a*a*a + a; }",
    b"table t { column a : b1; zero z : a*a*a*a*a*a*a + a*a; }",
    b"table t { column a : b1; zero z : a*a*a*a*a*a*a*a + a; }",
];

const SEVEN: &[u8] = b"table t { column a : b8; zero z : a + 7; }";

const GROUPS: &[u8] =
    b"table t { column a : b4; column c : b4 x 2; column b : b4; zero y : a*b + 1; zero w : c*c + c; zero z : a + 2; }";

#[test]
fn numbers_and_padding(rt: HostRuntime) -> Result<(), Fail> {
    let alloc = rt.alloc();
    // degree 0, and no column
    assert_eq!(rt;
        meets(alloc, b"table t { zero z : 0; }", 0, 3, &[])?,
        (8, Some(0))
    );
    assert_eq!(rt;
        meets(alloc, b"table t { zero z : 1; }", 0, 3, &[])?,
        (3, None)
    );
    // not 0 where the rows are filled up
    assert_eq!(rt; meets(alloc, PLAIN, 0, 3, &[&[1, 1, 1, 0]])?, (8, Some(1)));
    assert_eq!(rt; meets(alloc, PLAIN, 0, 4, &[&[1, 1, 1, 0]])?, (3, None));
    Ok(())
}

#[test]
fn degrees(rt: HostRuntime) -> Result<(), Fail> {
    let alloc = rt.alloc();
    for degree in 1..9 {
        let text = POWERS[degree - 1];
        assert_eq!(rt; meets(alloc, text, 0, 2, &[&[1, 0]])?, (5, Some(1)));
        let met = meets(alloc, text, 0, 2, &[&[1, 2]])?;
        if degree < 2 {
            assert_eq!(rt; met, (5, Some(1)));
        } else {
            assert_eq!(rt; met, (2, None));
        }
    }
    Ok(())
}

#[test]
fn rows_and_groups(rt: HostRuntime) -> Result<(), Fail> {
    let alloc = rt.alloc();
    // one row of one value, and none: no variable
    assert_eq!(rt; meets(alloc, SEVEN, 0, 1, &[&[7]])?, (2, Some(1)));
    assert_eq!(rt; meets(alloc, SEVEN, 0, 1, &[&[6]])?, (1, None));
    assert_eq!(rt; meets(alloc, SEVEN, 0, 0, &[&[0]])?, (2, Some(1)));
    // two groups in one table
    assert_eq!(rt;
        meets(alloc, GROUPS, 0, 2, &[&[2, 2], &[], &[3, 3]])?,
        (5, Some(2))
    );
    assert_eq!(rt;
        meets(alloc, GROUPS, 1, 2, &[&[], &[0, 1, 1, 0]])?,
        (8, Some(1))
    );
    assert_eq!(rt;
        meets(alloc, GROUPS, 1, 2, &[&[], &[0, 1, 1, 2]])?,
        (3, None)
    );
    Ok(())
}

/// A table of 256 constraints, each of which says that a bit is its own square.
fn many_constraints(alloc: Global) -> Result<Vec<u8>, Lack> {
    let mut text = Vec::from_slice(alloc, b"table t { column a : b1;")?;
    for k in 0..256u32 {
        text.extend_from_slice(b" zero z")?;
        text.extend_from_slice(&[b'a' + (k / 16) as u8, b'a' + (k % 16) as u8])?;
        text.extend_from_slice(b" : a*a + a;")?;
    }
    text.extend_from_slice(b" }")?;
    Ok(text)
}

#[test]
fn many_constraints_at_once(rt: HostRuntime) -> Result<(), Fail> {
    let alloc = rt.alloc();
    let text = many_constraints(alloc)?;
    assert_eq!(rt;
        meets(alloc, text.as_slice(), 0, 3, &[&[1, 0, 1, 0]])?,
        (8, Some(1))
    );
    assert_eq!(rt;
        meets(alloc, text.as_slice(), 0, 3, &[&[1, 0, 2, 0]])?,
        (3, None)
    );
    Ok(())
}

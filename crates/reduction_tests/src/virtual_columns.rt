//! Claims on virtual columns, each walk or step beside its prover.

ghost use Rattle.std.specs.Prelude.{◌≡◌, ◌+◌, ◌^◌, List, length, IfOk, Some};
ghost use Rattle.sumcheck.specs.Machine.{Filling};
ghost use Rattle.sumcheck.specs.declared.column_claim.ColumnClaim.{ColumnClaim as Claim};
ghost use Rattle.eval_reduce.specs.declared.packing.Packing.{Packing};
ghost use Rattle.eval_reduce.specs.declared.projection.Projection.{Projection};
ghost use Rattle.eval_reduce.specs.declared.shifting.Shifting.{Shifting};
ghost use Rattle.eval_reduce.specs.Linear.{combination_of, stated, told, Combination};
ghost use Rattle.eval_reduce.specs.Pack.{packing_of};
ghost use Rattle.eval_reduce.specs.Project.{projection_of};
ghost use Rattle.eval_reduce.specs.Provers.{FollowsLinear, FollowsPack, TermsAreThere};
ghost use Rattle.eval_reduce.specs.Shift.{shifting_of};
ghost use Rattle.eval_reduce.specs.ShiftProver.{FollowsShift};
ghost use Rattle.eval_reduce.specs.Virtual.{IsOn, IsThere};

use eval_reduce::{
    LinearProver, LinearStep, PackProver, PackWalk, ProjectProver, ProjectStep, ShiftProver,
    ShiftWalk, has_lists,
};
use reduction_inputs::{Lack, agreed, element, elements, given_lists, shape_of};
use sqlite_items::at;
use std::alloc::Global;
use std::test::Fail;
use sumcheck::{ColumnClaim, ColumnTables};
use table_shape::{ColumnKind, Shape, ShapeForm, ceil_log};
use tower_field::{B128, Values};
use walk_example::meet;

/// The form of a virtual column.
#[derive(Clone, Copy, PartialEq, Eq, Debug)]
enum Form {
    Linear,
    Packed,
    Projected,
    Shifted,
}

/// The form of the column of a claim, where it is a virtual one and the claim's point is one of its.
fn form_on(shape: &Shape, rows: u32, claim: &ColumnClaim) -> Option<Form>
    ensures linear { result ≡ Some Form.Linear → (f : Combination) × (_ : combination_of shape.now.tables rows claim.now.table claim.now.column ≡ Some f) × IsOn f.table f.column f.vars claim.now }
    ensures packed { result ≡ Some Form.Packed → (f : Packing) × (_ : packing_of shape.now.tables rows claim.now.table claim.now.column ≡ Some f) × IsOn f.table f.column f.vars claim.now }
    ensures projected { result ≡ Some Form.Projected → (f : Projection) × (_ : projection_of shape.now.tables rows claim.now.table claim.now.column ≡ Some f) × IsOn f.table f.column f.vars claim.now }
    ensures shifted { result ≡ Some Form.Shifted → (f : Shifting) × (_ : shifting_of shape.now.tables rows claim.now.table claim.now.column ≡ Some f) × IsOn f.table f.column f.vars claim.now }
{
    let table = at(shape.tables(), claim.table as usize)?;
    let column = at(table.columns.as_slice(), claim.column as usize)?;
    let vars = u64::from(ceil_log(u64::from(rows))) + u64::from(column.log_values);
    if claim.point.as_slice().len() as u64 != vars {
        return None;
    }
    match &column.kind {
        ColumnKind::Committed => None,
        ColumnKind::Virtual(ShapeForm::Linear { .. }) => Some(Form::Linear),
        ColumnKind::Virtual(ShapeForm::Pack { .. }) => Some(Form::Packed),
        ColumnKind::Virtual(ShapeForm::Project { .. }) => Some(Form::Projected),
        ColumnKind::Virtual(ShapeForm::Shl { .. }) => Some(Form::Shifted),
        ColumnKind::Virtual(ShapeForm::Shr { .. }) => Some(Form::Shifted),
        ColumnKind::Virtual(ShapeForm::Rol { .. }) => Some(Form::Shifted),
    }
}

/// The walk of a packed column and its prover. The value is claimed for the walk, and that of the claim
/// told to the prover.
fn begin_packed(
    alloc: Global,
    shape: &Shape,
    rows: u32,
    tables: &ColumnTables,
    mut claim: ColumnClaim,
    value: B128,
) -> Result<(PackWalk, PackProver), Lack>
    requires form { (f : Packing) × (_ : packing_of shape.now.tables rows claim.table claim.column ≡ Some f) × IsOn f.table f.column f.vars claim }
    requires there { (f : Packing) → packing_of shape.now.tables rows claim.table claim.column ≡ Some f → IsThere tables.now claim.table f.source (2 ^ (f.log + f.vars)) }
    ensures { IfOk result (λ both. (F : Filling) × FollowsPack both.1 F both.0) }
{
    let mut prover = PackProver::begin(alloc, shape, claim.table, claim.column, rows, tables)?;
    prover.enter(&claim);
    let mut walk = PackWalk::begin(alloc, shape, claim.table, claim.column, rows)?;
    claim.value = value;
    walk.enter(&claim);
    Ok((walk, prover))
}

/// How many entries pass, and where all do, on which value both agree at the end.
fn meet_packed(
    alloc: Global,
    mut walk: PackWalk,
    mut prover: PackProver,
) -> Result<(u32, Option<u128>), Lack>
    requires { (F : Filling) × FollowsPack prover F walk }
{
    let mut values = Vec::new(alloc);
    let (passed, ended) = meet(&mut walk, &mut prover, 100, &mut values)?;
    if !ended {
        return Ok((passed, None));
    }
    Ok((passed, agreed(prover.claim(0), walk.claim(0))))
}

/// The walk of a shifted column and its prover, as `begin_packed`.
fn begin_shifted(
    alloc: Global,
    shape: &Shape,
    rows: u32,
    tables: &ColumnTables,
    mut claim: ColumnClaim,
    value: B128,
) -> Result<(ShiftWalk, ShiftProver), Lack>
    requires form { (f : Shifting) × (_ : shifting_of shape.now.tables rows claim.table claim.column ≡ Some f) × IsOn f.table f.column f.vars claim }
    requires there { (f : Shifting) → shifting_of shape.now.tables rows claim.table claim.column ≡ Some f → IsThere tables.now claim.table f.source (2 ^ f.vars) }
    ensures { IfOk result (λ both. (F : Filling) × FollowsShift both.1 F both.0) }
{
    let mut prover = ShiftProver::begin(alloc, shape, claim.table, claim.column, rows, tables)?;
    prover.enter(&claim);
    let mut walk = ShiftWalk::begin(alloc, shape, claim.table, claim.column, rows)?;
    claim.value = value;
    walk.enter(&claim);
    Ok((walk, prover))
}

/// As `meet_packed`.
fn meet_shifted(
    alloc: Global,
    mut walk: ShiftWalk,
    mut prover: ShiftProver,
) -> Result<(u32, Option<u128>), Lack>
    requires { (F : Filling) × FollowsShift prover F walk }
{
    let mut values = Vec::new(alloc);
    let (passed, ended) = meet(&mut walk, &mut prover, 100, &mut values)?;
    if !ended {
        return Ok((passed, None));
    }
    Ok((passed, agreed(prover.claim(0), walk.claim(0))))
}

/// On which value the step of a projected column and its prover agree.
fn meet_projected(
    alloc: Global,
    shape: &Shape,
    rows: u32,
    tables: &ColumnTables,
    claim: &ColumnClaim,
) -> Result<Option<u128>, Lack>
    requires form { (f : Projection) × (_ : projection_of shape.now.tables rows claim.now.table claim.now.column ≡ Some f) × IsOn f.table f.column f.vars claim.now }
    requires there { (f : Projection) → projection_of shape.now.tables rows claim.now.table claim.now.column ≡ Some f → IsThere tables.now claim.now.table f.source (2 ^ (f.log + f.vars)) }
{
    let mut prover = ProjectProver::begin(alloc, shape, claim.table, claim.column, rows, tables)?;
    prover.enter(claim);
    let mut step = ProjectStep::begin(alloc, shape, claim.table, claim.column, rows)?;
    step.enter(claim);
    Ok(agreed(prover.claim(0), step.claim(0)))
}

/// The step of a linear column and its prover, as `begin_packed`.
fn begin_linear(
    alloc: Global,
    shape: &Shape,
    rows: u32,
    tables: &ColumnTables,
    mut claim: ColumnClaim,
    value: B128,
) -> Result<(LinearStep, LinearProver), Lack>
    requires form { (f : Combination) × (_ : combination_of shape.now.tables rows claim.table claim.column ≡ Some f) × IsOn f.table f.column f.vars claim }
    requires there { (f : Combination) → combination_of shape.now.tables rows claim.table claim.column ≡ Some f → TermsAreThere tables.now claim.table (2 ^ f.vars) f.terms }
    ensures { IfOk result (λ both. (F : Filling) × (f : Combination) × (c : Claim) × (_ : both.0 ≡ stated f c) × FollowsLinear both.1 F (stated f c)) }
{
    let mut prover = LinearProver::begin(alloc, shape, claim.table, claim.column, rows, tables)?;
    prover.enter(&claim);
    let mut step = LinearStep::begin(alloc, shape, claim.table, claim.column, rows)?;
    claim.value = value;
    step.enter(&claim);
    Ok((step, prover))
}

/// The values of the claims on which step and prover agree.
fn agreed_claims(alloc: Global, step: &LinearStep, prover: &LinearProver) -> Result<Vec<u128>, Lack>
    requires { (F : Filling) × (claims : List Claim) × (_ : step.now ≡ told claims) × FollowsLinear prover.now F (told claims) }
{
    let mut values = Vec::new(alloc);
    let count = step.claim_count().min(prover.claim_count());
    for i in 0..count {
        if let Some(value) = agreed(prover.claim(i), step.claim(i)) {
            if values.push(value).is_err() {
                return Err(Lack);
            }
        }
    }
    Ok(values)
}

/// Whether the message passes, and the values of the claims on which step and prover agree.
fn meet_linear(
    alloc: Global,
    mut step: LinearStep,
    mut prover: LinearProver,
) -> Result<(bool, Vec<u128>), Lack>
    requires { (F : Filling) × (f : Combination) × (c : Claim) × (_ : step ≡ stated f c) × FollowsLinear prover F (stated f c) }
{
    let mut message = Vec::new(alloc);
    prover.message(&mut message)?;
    if step.message(message.as_slice()).is_err() {
        return Ok((false, Vec::new(alloc)));
    }
    Ok((true, agreed_claims(alloc, &step, &prover)?))
}

/// A list of a value, or none.
fn listed(alloc: Global, value: Option<u128>) -> Result<Vec<u128>, Lack> {
    let mut values = Vec::new(alloc);
    if let Some(value) = value {
        if values.push(value).is_err() {
            return Err(Lack);
        }
    }
    Ok(values)
}

/// A claim on a virtual column, of which the prover is told another value than the walk: how many
/// entries pass, and the values of the claims that both leave.
fn meet_on(
    alloc: Global,
    shape: &Shape,
    rows: u32,
    tables: &ColumnTables,
    claim: ColumnClaim,
    value: B128,
) -> Result<(u32, Vec<u128>), Lack> {
    if !has_lists(shape, claim.table, claim.column, rows, tables) {
        return Err(Lack);
    }
    match form_on(shape, rows, &claim) {
        None => Err(Lack),
        Some(Form::Linear) => {
            let (step, prover) = begin_linear(alloc, shape, rows, tables, claim, value)?;
            let (passed, values) = meet_linear(alloc, step, prover)?;
            Ok((if passed { 1 } else { 0 }, values))
        }
        Some(Form::Packed) => {
            let (walk, prover) = begin_packed(alloc, shape, rows, tables, claim, value)?;
            let (passed, left) = meet_packed(alloc, walk, prover)?;
            Ok((passed, listed(alloc, left)?))
        }
        Some(Form::Projected) => {
            let mut claim = claim;
            claim.value = value;
            let left = meet_projected(alloc, shape, rows, tables, &claim)?;
            Ok((0, listed(alloc, left)?))
        }
        Some(Form::Shifted) => {
            let (walk, prover) = begin_shifted(alloc, shape, rows, tables, claim, value)?;
            let (passed, left) = meet_shifted(alloc, walk, prover)?;
            Ok((passed, listed(alloc, left)?))
        }
    }
}

/// What is claimed of a column of the first table at a point, and what the prover is told.
#[derive(Clone, Copy)]
struct Claimed<'a> {
    column: u32,
    point: &'a [u64],
    value: u64,
    told: u64,
}

/// As `meet_on`, on a text's shape and lists for the first columns.
fn meets(
    alloc: Global,
    text: &[u8],
    rows: u32,
    lists: &[&[u64]],
    claimed: Claimed<'_>,
) -> Result<(u32, Vec<u128>), Fail> {
    let shape = shape_of(alloc, text)?;
    let tables = given_lists(alloc, lists)?;
    let point = elements(alloc, claimed.point)?;
    let claim = ColumnClaim {
        table: 0,
        column: claimed.column,
        point: Values::from_vec(point),
        value: element(claimed.told),
    };
    Ok(meet_on(alloc, &shape, rows, &tables, claim, element(claimed.value))?)
}

/// Whether a claim, of which the prover is told the value or 1, leaves these claims after so many
/// entries; and one of the value that is larger by `error` passes none.
fn passes(
    alloc: Global,
    text: &[u8],
    rows: u32,
    lists: &[&[u64]],
    claimed: Claimed<'_>,
    entries: u32,
    left: &[u128],
) -> Result<bool, Fail> {
    let lying = Claimed { told: 1, ..claimed };
    let refused = Claimed {
        value: claimed.value ^ 1,
        ..claimed
    };
    let (passed, values) = meets(alloc, text, rows, lists, claimed)?;
    let (lying_passed, lying_values) = meets(alloc, text, rows, lists, lying)?;
    let (refused_passed, refused_values) = meets(alloc, text, rows, lists, refused)?;
    Ok(
        passed == entries
            && values.as_slice() == left
            && lying_passed == entries
            && lying_values.as_slice() == left
            && refused_passed == 0
            && refused_values.is_empty(),
    )
}

/// Eight values of two bits.
const SOURCE: &[u64] = &[1, 2, 3, 0, 2, 2, 1, 3];

const PACKED: &[u8] =
    b"table t { column a : b2 x 2; virtual p = pack(a, 1); virtual q = pack(a, 0); }";

#[test]
fn packed_columns(rt: HostRuntime) -> Result<(), Fail> {
    let alloc = rt.alloc();
    let claimed = Claimed {
        column: 1,
        point: &[40, 90],
        value: 0x9a,
        told: 0x9a,
    };
    // the source at (8, 40, 90)
    assert!(rt; passes(alloc, PACKED, 4, &[SOURCE], claimed, 2, &[0x87])?);
    // each value for itself
    let claimed = Claimed {
        column: 2,
        point: &[40, 90, 7],
        value: 0xcb,
        told: 0xcb,
    };
    assert!(rt; passes(alloc, PACKED, 3, &[SOURCE], claimed, 1, &[0xcb])?);
    Ok(())
}

const PROJECTED: &[u8] = b"table t { column a : b2 x 2; virtual p = project(a, 1, 1); }";

#[test]
fn projected_columns(rt: HostRuntime) -> Result<(), Fail> {
    let alloc = rt.alloc();
    let claimed = Claimed {
        column: 1,
        point: &[40, 90],
        value: 0x9d,
        told: 0x9d,
    };
    // the source at (1, 40, 90)
    let (_, left) = meets(alloc, PROJECTED, 4, &[SOURCE], claimed)?;
    assert_eq!(rt; left.as_slice(), [0x9d].as_slice());
    // one row, and a point of no coordinate
    let claimed = Claimed {
        column: 1,
        point: &[],
        value: 1,
        told: 1,
    };
    let (_, left) = meets(alloc, PROJECTED, 1, &[&[0, 1]], claimed)?;
    assert_eq!(rt; left.as_slice(), [1].as_slice());
    Ok(())
}

#[test]
fn linear_columns(rt: HostRuntime) -> Result<(), Fail> {
    let alloc = rt.alloc();
    let lists: [&[u64]; 2] = [&[5, 6, 7, 8], &[9, 1, 0, 2]];
    let texts: [(&[u8], u64, &[u128]); 3] = [
        (
            b"table t { column a : b8; column b : b8; virtual l = linear(1 + 3 * a + 0 * b); }",
            176,
            &[210, 117],
        ),
        // a number times a column
        (
            b"table t { column a : b8; column b : b8; virtual l = linear(9 * a); }",
            206,
            &[210],
        ),
        (
            b"table t { column a : b8; column b : b8; virtual l = linear(7 + a + 19088743 * b); }",
            1978019179,
            &[210, 117],
        ),
    ];
    for (text, value, left) in texts {
        let claimed = Claimed {
            column: 2,
            point: &[40, 90],
            value,
            told: value,
        };
        assert!(rt; passes(alloc, text, 4, &lists, claimed, 1, left)?);
    }
    Ok(())
}

const SHIFTS: [&[u8]; 3] = [b"shl", b"shr", b"rol"];

/// A table with a column of eight values in its row, and one of it shifted.
fn shift_text(alloc: Global, kind: &[u8], block: u32, offset: u32) -> Result<Vec<u8>, Lack> {
    let mut text = Vec::from_slice(alloc, b"table t { column a : b2 x 8; virtual s = ")?;
    text.extend_from_slice(kind)?;
    text.extend_from_slice(b"(a, ")?;
    text.extend_from_slice(&[b'0' + (block % 8) as u8])?;
    text.extend_from_slice(b", ")?;
    text.extend_from_slice(&[b'0' + (offset % 8) as u8])?;
    text.extend_from_slice(b"); }")?;
    Ok(text)
}

#[test]
fn shifted_columns(rt: HostRuntime) -> Result<(), Fail> {
    let alloc = rt.alloc();
    // blocks of 2 ^ block values, and for each offset the values of `shl`, `shr` and `rol`, and how many
    // entries pass; the source at (40, 90, 7), (8, 90, 7), (8, 10, 7) and (8, 10, 12)
    for (block, offset, values, entries, left) in [
        (0, 0, [0xcb, 0xcb, 0xcb], 1, 0xcb),
        (1, 0, [0xcb, 0xcb, 0xcb], 3, 0xca),
        (1, 1, [0x18, 0xef, 0xf7], 3, 0xca),
        (2, 0, [0xcb, 0xcb, 0xcb], 5, 0xa),
        (2, 1, [0xe5, 0x9e, 0xb2], 5, 0xa),
        (2, 3, [0xcf, 0x57, 0x51], 5, 0xa),
        (3, 0, [0xcb, 0xcb, 0xcb], 7, 0xa),
        (3, 1, [0xe5, 0xe5, 0xf3], 7, 0xa),
        (3, 7, [0x17, 0x16, 0xf2], 7, 0xa),
    ] {
        for k in 0..3 {
            let text = shift_text(alloc, SHIFTS[k], block, offset)?;
            let claimed = Claimed {
                column: 1,
                point: &[40, 90, 7],
                value: values[k],
                told: values[k],
            };
            assert!(rt;
                passes(
                    alloc,
                    text.as_slice(),
                    1,
                    &[SOURCE],
                    claimed,
                    entries,
                    &[left]
                )?
            );
        }
    }
    Ok(())
}

#[test]
fn lists_that_lack(rt: HostRuntime) -> Result<(), Fail> {
    let alloc = rt.alloc();
    let shape = shape_of(alloc, PACKED)?;
    // one value less, and one more; a column that isn't there, and a table
    for (lists, column, there) in [
        ([SOURCE], 1, true),
        ([&[2, 3, 0, 2, 2, 1, 3]], 1, false),
        ([&[1, 2, 3, 0, 2, 2, 1, 3, 0]], 1, false),
        ([SOURCE], 3, false),
    ] {
        let tables = given_lists(alloc, &lists)?;
        assert_eq!(rt; has_lists(&shape, 0, column, 4, &tables), there);
        assert!(rt; !has_lists(&shape, 1, column, 4, &tables));
    }
    Ok(())
}

//! The plans of small texts.

ghost use Rattle.std.specs.Prelude.{ℕ, ◌≤◌, IsTrue, slice_index};
ghost use Rattle.table_shape.specs.Limits.{max_rows};

use crate::expected::{are_entries, draws, message, rounds};
use poly_forms::{CheckKind, DrawKind};
use proof_plan::{Plan, PlanEntry};
use std::alloc::AllocError;
use std::process::Abort;
use std::test::Fail;
use table_shape::{MAX_ROWS, SizeStop, resolve};
use table_text::read_tables;

/// One bit in each row: it is its own square.
pub const BITS: &[u8] = b"table t { column a : b1; zero z : a*a + a; }";

/// Sums of words of 32 bits, each of which is asked for by a boundary.
pub const ADDER: &[u8] =
    b"channel sums : 3; boundary pull sums (1, 2, 3); boundary pull sums (0xffffffff, 1, 0); boundary pull sums (0, 0, 0); table adder { column a : b1 x 32; column b : b1 x 32; column cout : b1 x 32; virtual cin = shl(cout, 5, 1); virtual sum = linear(a + b + cin); virtual a32 = pack(a, 5); virtual b32 = pack(b, 5); virtual s32 = pack(sum, 5); zero carry : (a + cin) * (b + cin) + cin + cout; push sums (a32, b32, s32); }";

/// Whether no table has too many rows.
pub fn are_few(rows: &[u32]) -> bool
    ensures { IsTrue result → (t : ℕ) → slice_index rows.now t ≤ max_rows }
{
    for m in rows {
        if *m > MAX_ROWS {
            return false;
        }
    }
    true
}

fn planned(rt: &(impl Abort + AllocGlobal), text: &[u8], rows: &[u32]) -> Result<Plan, SizeStop> {
    assert!(rt; text.len() < 1 << 32);
    let Ok(tables) = read_tables(rt.alloc(), text) else {
        panic!(rt; "not read");
    };
    let Ok(shape) = resolve(rt.alloc(), &tables) else {
        panic!(rt; "not resolved");
    };
    assert!(rt; rows.len() == shape.tables().len());
    assert!(rt; are_few(rows));
    Plan::of(rt.alloc(), &shape, rows)
}

/// The tensor and its coordinates.
fn push_tensor(entries: &mut Vec<PlanEntry>) -> Result<(), AllocError> {
    message(entries, CheckKind::Tensor, 128)?;
    draws(entries, DrawKind::TensorCoordinate, 1, 7)
}

/// The bit claim over `2 ^ places` bits.
fn push_bits(entries: &mut Vec<PlanEntry>, count: u64, places: u32) -> Result<(), AllocError> {
    draws(entries, DrawKind::BitBatch, count, 1)?;
    rounds(entries, DrawKind::BitRound, 3, places)?;
    message(entries, CheckKind::BitFinal, 1)
}

fn push_end(entries: &mut Vec<PlanEntry>) -> Result<(), AllocError> {
    entries.push(PlanEntry::Constant)?;
    entries.push(PlanEntry::Queries)?;
    Ok(())
}

#[test]
fn one_bit(rt: HostRuntime) -> Result<(), Fail> {
    let plan = planned(&rt, BITS, &[1])?;
    let mut entries = Vec::new(rt.alloc());
    entries.push(PlanEntry::Root)?;
    draws(&mut entries, DrawKind::ConstraintBatch, 0, 1)?;
    message(&mut entries, CheckKind::ZeroFinal, 1)?;
    push_bits(&mut entries, 0, 8)?;
    push_tensor(&mut entries)?;
    rounds(&mut entries, DrawKind::SwitchRound, 3, 1)?;
    push_end(&mut entries)?;
    assert!(rt; entries.len() == 33);
    assert!(rt; are_entries(&plan, entries.as_slice()));
    assert!(rt; plan.byte_length() == 8749 && plan.draws() == 18 && plan.total() == 25);
    assert!(rt; plan.packed_vars() == 1);
    Ok(())
}

/// The flush of the adder on three rows: two layers, and leaves of three columns.
fn push_adder_flush(entries: &mut Vec<PlanEntry>) -> Result<(), AllocError> {
    message(entries, CheckKind::LayerFinal, 2)?;
    draws(entries, DrawKind::LayerJoin, 1, 1)?;
    rounds(entries, DrawKind::LayerRound, 4, 1)?;
    message(entries, CheckKind::LayerFinal, 2)?;
    draws(entries, DrawKind::LayerJoin, 1, 1)?;
    rounds(entries, DrawKind::LeafRound, 5, 2)?;
    message(entries, CheckKind::LeafFinal, 3)
}

/// Its constraint, of degree 2 over four columns of 2^7 values.
fn push_adder_group(entries: &mut Vec<PlanEntry>) -> Result<(), AllocError> {
    draws(entries, DrawKind::ConstraintBatch, 0, 1)?;
    draws(entries, DrawKind::ZeroCoordinate, 1, 7)?;
    rounds(entries, DrawKind::ZeroRound, 5, 7)?;
    message(entries, CheckKind::ZeroFinal, 4)
}

fn push_adder_merge(entries: &mut Vec<PlanEntry>, count: u64) -> Result<(), AllocError> {
    draws(entries, DrawKind::Merge, count, 1)?;
    rounds(entries, DrawKind::MergeRound, 3, 7)?;
    message(entries, CheckKind::MergeFinal, 1)
}

/// Its columns from the last to the first: s32, b32 and a32, sum, cin, cout, b and a.
fn push_adder_columns(entries: &mut Vec<PlanEntry>) -> Result<(), AllocError> {
    for _ in 0..3u8 {
        message(entries, CheckKind::Pack, 32)?;
        draws(entries, DrawKind::PackCoordinate, 1, 5)?;
    }
    message(entries, CheckKind::Linear, 3)?;
    push_adder_merge(entries, 1)?;
    rounds(entries, DrawKind::ShiftRound, 3, 5)?;
    message(entries, CheckKind::ShiftFinal, 1)?;
    push_adder_merge(entries, 1)?;
    push_adder_merge(entries, 2)?;
    push_adder_merge(entries, 2)
}

#[test]
fn adder(rt: HostRuntime) -> Result<(), Fail> {
    let plan = planned(&rt, ADDER, &[3])?;
    let mut entries = Vec::new(rt.alloc());
    entries.push(PlanEntry::Root)?;
    draws(&mut entries, DrawKind::Alpha, 12, 1)?;
    draws(&mut entries, DrawKind::Gamma, 3, 1)?;
    message(&mut entries, CheckKind::Products, 1)?;
    assert!(rt; entries.len() == 4);
    push_adder_flush(&mut entries)?;
    assert!(rt; entries.len() == 15);
    push_adder_group(&mut entries)?;
    assert!(rt; entries.len() == 38);
    push_adder_columns(&mut entries)?;
    assert!(rt; entries.len() == 132);
    push_bits(&mut entries, 2, 9)?;
    assert!(rt; entries.len() == 152);
    push_tensor(&mut entries)?;
    assert!(rt; entries.len() == 160);
    rounds(&mut entries, DrawKind::SwitchRound, 3, 1)?;
    entries.push(PlanEntry::Root)?;
    rounds(&mut entries, DrawKind::SwitchRound, 3, 1)?;
    push_end(&mut entries)?;
    assert!(rt; entries.len() == 167);
    assert!(rt; are_entries(&plan, entries.as_slice()));
    assert!(rt; plan.byte_length() == 45 + 32 * 2 + 16 * 427 + 64 * 224);
    assert!(rt; plan.draws() == 93 && plan.total() == 181 && plan.packed_vars() == 2);
    Ok(())
}

#[test]
fn no_columns(rt: HostRuntime) -> Result<(), Fail> {
    for rows in [0, 1, 1000] {
        let plan = planned(&rt, b"table t { }", &[rows])?;
        let mut entries = Vec::new(rt.alloc());
        entries.push(PlanEntry::Root)?;
        push_bits(&mut entries, 0, 8)?;
        push_tensor(&mut entries)?;
        rounds(&mut entries, DrawKind::SwitchRound, 3, 1)?;
        push_end(&mut entries)?;
        assert!(rt; are_entries(&plan, entries.as_slice()));
    }
    Ok(())
}

#[test]
fn sizes(rt: HostRuntime) -> Result<(), Fail> {
    let full = planned(&rt, b"table t { column a : b128; }", &[131072])?;
    assert!(rt; full.packed_vars() == 17);
    let large = planned(&rt, b"table t { column a : b128; }", &[131073]);
    assert!(rt; matches!(large, Err(SizeStop::TooLarge { log_bits: 25 })));
    Ok(())
}

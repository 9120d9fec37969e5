//! Blocks of texts.

ghost use Rattle.std.specs.Prelude.{ℕ, ◌≤◌, IsTrue, slice_index};
ghost use Rattle.table_shape.specs.Limits.{max_rows};

use bit_claim::{Placement, place};
use std::alloc::AllocError;
use std::process::Abort;
use std::test::Fail;
use table_shape::{MAX_ROWS, Shape, SizeStop, resolve};
use table_text::read_tables;

/// Columns of 32 bits in two tables, which stand in the order of their declarations, between a
/// larger one of the second table and a smaller one of the first.
const TIES: &[u8] =
    b"table t { column a : b8; column s : b1; column b : b1 x 8; virtual v = pack(b, 3); } table u { column w : b32; column c : b4 x 2; }";

/// Whether no table has too many rows.
fn are_few(rows: &[u32]) -> bool
    ensures { IsTrue result → (t : ℕ) → slice_index rows.now t ≤ max_rows }
{
    for m in rows {
        if *m > MAX_ROWS {
            return false;
        }
    }
    true
}

fn placed(
    rt: &(impl Abort + AllocGlobal),
    text: &[u8],
    rows: &[u32],
) -> Result<Placement, SizeStop> {
    assert!(rt; text.len() < 1 << 32);
    let Ok(tables) = read_tables(rt.alloc(), text) else {
        panic!(rt; "not read");
    };
    let Ok(shape) = resolve(rt.alloc(), &tables) else {
        panic!(rt; "not resolved");
    };
    assert!(rt; rows.len() == shape.tables().len());
    assert!(rt; are_few(rows));
    place(rt.alloc(), &shape, rows)
}

#[test]
fn ties_stay_in_order(rt: HostRuntime) -> Result<(), Fail> {
    let placement = placed(&rt, TIES, &[4, 3])?;
    let places = [
        (1, 0, 0),
        (0, 0, 128),
        (0, 2, 160),
        (1, 1, 192),
        (0, 1, 224),
    ];
    assert!(rt; placement.blocks().len() == places.len());
    for (block, (table, column, place)) in placement.blocks().iter().zip(places) {
        assert!(rt; block.table == table && block.column == column);
        assert!(rt; placement.offset(table, column) == place);
    }
    assert!(rt; placement.offset(0, 3) == 228 && placement.log_bits() == 8);
    Ok(())
}

#[test]
fn sizes(rt: HostRuntime) -> Result<(), Fail> {
    let none = placed(&rt, b"table t { zero z : 1; }", &[0])?;
    assert!(rt; none.blocks().is_empty() && none.log_bits() == 8);
    let full = placed(&rt, b"table t { column a : b128; column b : b1; }", &[2])?;
    assert!(rt; full.log_bits() == 9 && full.offset(0, 1) == 256);
    let large = placed(&rt, b"table t { column a : b128; }", &[131073]);
    assert!(rt; matches!(large, Err(SizeStop::TooLarge { log_bits: 25 })));
    Ok(())
}

//! Values from outside, and each call once at a small and at a large size.

use cube_mle::{NoMemory, ShiftKind, eq_at, eq_table, fold_low, mle_at, shift_at, step_down_at};
use tower_field::{B128, Tower};

fn element(n: u64) -> B128 {
    B128::join(n as u128, 0)
}

#[test]
fn one_variable(rt: HostRuntime) -> Result<(), NoMemory> {
    let alloc = rt.alloc();
    let four = [element(4)];
    assert_eq!(rt; eq_at(&four, &[element(2)]).number(), 7);
    let table = eq_table(alloc, &four)?;
    assert!(rt; table.as_slice() == [element(5), element(4)].as_slice());
    assert_eq!(rt;
        mle_at(alloc, &[element(1), element(2)], &four)?.number(),
        13
    );
    let mut folded = Vec::from_slice(alloc, &[element(1), element(2)])?;
    fold_low(&mut folded, element(4));
    assert!(rt; folded.as_slice() == [element(13)].as_slice());
    Ok(())
}

#[test]
fn three_variables(rt: HostRuntime) -> Result<(), NoMemory> {
    let alloc = rt.alloc();
    let point = [element(0x1234), element(7), element(0xabcdef0123456789)];
    let values = [3, 1, 4, 1, 5, 9, 2, 6].map(element);
    assert_eq!(rt;
        mle_at(alloc, &values, &point)?.number(),
        0xf3338fbaaa3248c9
    );
    let other = [element(0xfedcba9876543210), element(0x55), element(2)];
    assert_eq!(rt; eq_at(&point, &other).number(), 0xf8d2776c0faf6fcb);
    Ok(())
}

#[test]
fn twelve_variables(rt: HostRuntime) -> Result<(), NoMemory> {
    let alloc = rt.alloc();
    let mut point = [B128::ZERO; 12];
    let mut other = [B128::ZERO; 12];
    for k in 0..12u32 {
        point[k as usize] = B128::join(0x123456789abcdef + k as u128, 77 + k as u128);
        other[k as usize] = B128::join(0xfedcba987 + k as u128, k as u128);
    }
    let table = eq_table(alloc, &point)?;
    let value = mle_at(alloc, table.as_slice(), &other)?;
    assert_eq!(rt; value.number(), 0x60745f361db453e9640810ad57e24056);
    assert_eq!(rt; eq_at(&point, &other).number(), value.number());
    Ok(())
}

#[test]
fn steps(rt: HostRuntime) {
    let point = [element(0x1234), element(7), element(0xabcdef0123456789)];
    assert_eq!(rt; step_down_at(3, &[element(2), element(4)]).number(), 9);
    assert_eq!(rt; step_down_at(0, &point).number(), 0);
    assert_eq!(rt; step_down_at(5, &point).number(), 0x0afb6d19511936fa);
    assert_eq!(rt; step_down_at(8, &point).number(), 1);
}

#[test]
fn shifts(rt: HostRuntime) {
    let two = [element(2)];
    let four = [element(4)];
    let y = [element(0x1234), element(7), element(0xabcdef0123456789)];
    let x = [element(0xfedcba9876543210), element(0x55), element(2)];
    for (kind, one, three) in [
        (ShiftKind::Shl, 10, 0x3453bd8af520d2a7),
        (ShiftKind::Shr, 12, 0xe92873d2f5a72b9c),
        (ShiftKind::Rol, 6, 0xe74e4d9c3a413257),
    ] {
        assert_eq!(rt; shift_at(kind, 1, &two, &four).number(), one);
        assert_eq!(rt; shift_at(kind, 5, &y, &x).number(), three);
    }
}

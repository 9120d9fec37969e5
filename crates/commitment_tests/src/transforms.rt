//! Values worked out by another program, and each call at a small and a large size.

ghost use Rattle.std.specs.Prelude.{◌≡◌, ◌≤◌, ◌^◌, length, IfOk};

use additive_transform::Basis;
use std::alloc::{AllocError, Global};
use std::test::Fail;
use tower_field::{B128, Tower};

// The values are those that the definition gives, by a short program in Python.
#[test]
fn words(rt: HostRuntime) -> Result<(), Fail> {
    let basis = Basis::new(rt.alloc(), 3)?;
    let two = [B128::join(1, 0), B128::join(2, 0)];
    let word = basis.encode(rt.alloc(), &two, 2)?;
    let want = [1u128, 3, 2, 0, 9, 11, 10, 8];
    assert_eq!(rt; word.len(), want.len());
    for (value, number) in word.iter().zip(want.iter()) {
        assert_eq!(rt; value.number(), *number);
    }

    let four = [
        B128::from_bytes(0x0123456789abcdef0011223344556677u128.to_le_bytes()),
        B128::from_bytes(0x02468acf13579bde0022446688aaccee_u128.to_le_bytes()),
        B128::from_bytes(0x0369d0369d0369cd00336699cd003365_u128.to_le_bytes()),
        B128::from_bytes(0x048d159e26af37bc004488cd115599dc_u128.to_le_bytes()),
    ];
    let word = basis.encode(rt.alloc(), &four, 1)?;
    let want = [
        0x0123456789abcdef0011223344556677u128,
        0x0365cfa89afc563100336655ccffaa99,
        0x090770f30ef45091009900576700ff01,
        0x0fccefa23b0cfcf300ffccfcfeffaa33,
        0x0ea56cd0172f1d9700eeaa65b6ccdd6e,
        0x0ffc38db61013eeb00ffff2ce388dd72,
        0x0e4773a3ab85993d00ee4447b733aa7c,
        0x0b933236fb048dfd00bb99c3f32233bc,
    ];
    assert_eq!(rt; word.len(), want.len());
    for (value, number) in word.iter().zip(want.iter()) {
        assert_eq!(rt; value.number(), *number);
    }
    Ok(())
}

#[test]
fn points(rt: HostRuntime) -> Result<(), Fail> {
    let basis = Basis::new(rt.alloc(), 7)?;
    assert_eq!(rt; basis.log_len(), 7);
    assert_eq!(rt; basis.point(0, 5).number(), 5);
    assert_eq!(rt; basis.point(1, 5).number(), 0x0e);
    assert_eq!(rt; basis.point(2, 5).number(), 0x65);
    assert_eq!(rt; basis.point(3, 9).number(), 0x64);
    assert_eq!(rt; basis.point(6, 1), B128::ONE);
    Ok(())
}

fn ones(alloc: Global, log: u32) -> Result<Vec<B128>, AllocError>
    requires { log ≤ 24 }
    ensures { IfOk result (λ ones. length ones.items ≡ 2 ^ log) }
{
    vec![in alloc; B128::ONE; 1usize << log]
}

// The word of ones is the product of 1 plus each hat, and hat i is 1 where bit i is the highest of
// a position. By the sum that defines it the word of 131,072 ones would take hours.
#[test]
fn word_of_ones(rt: HostRuntime) -> Result<(), Fail> {
    let basis = Basis::new(rt.alloc(), 19)?;
    let ones = ones(rt.alloc(), 17)?;
    let word = basis.encode(rt.alloc(), ones.as_slice(), 2)?;
    assert_eq!(rt; word.len(), 524_288);
    for (position, value) in word.iter().enumerate() {
        let zero = *value == B128::ZERO;
        assert_eq!(rt; zero, 0 < position && position < 131_072, "at {position}");
    }
    assert_eq!(rt; word.get(0).copied(), Some(B128::ONE));
    Ok(())
}

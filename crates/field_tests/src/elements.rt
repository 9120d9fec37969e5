//! Values from outside, and each call once at every type.

use std::process::Abort;
use std::test::Fail;
use tower_field::{B1, B2, B4, B8, B16, B32, B64, B128, Tower, Values, lift, lower, numbers_fit};

/// Products at one level, each as two factors and their product.
fn products<F: Tower>(rt: &impl Abort, cases: &[(u128, u128, u128)]) {
    for &(a, b, want) in cases {
        let product = match (F::from_number(a), F::from_number(b)) {
            (Some(a), Some(b)) => Some(a.mul(b).number()),
            _ => None,
        };
        assert_eq!(rt; product, Some(want), "{a} times {b}");
    }
}

/// The greatest number of a level is an element, and is made again from its halves.
fn edges<F: Tower>(rt: &impl Abort, greatest: u128, halves: (u128, u128)) {
    let element = F::from_number(greatest);
    assert_eq!(rt; element.map(|element| element.number()), Some(greatest));
    assert_eq!(rt; element.map(|element| element.split()), Some(halves));
    let wide: Option<B128> = B128::from_number(greatest);
    assert_eq!(rt; wide.map(|wide| wide.number()), Some(greatest));
    if let Some(above) = greatest.checked_add(1) {
        assert!(rt; F::from_number(above).is_none());
    }
    assert_eq!(rt; F::ZERO.number(), 0);
    assert!(rt; F::ZERO.inverse().is_none());
    assert_eq!(rt; F::ONE.inverse().map(|one| one.number()), Some(1));
    assert_eq!(rt; F::ONE.square().number(), 1);
    assert_eq!(rt; F::ONE.add(F::ONE).number(), 0);
}

#[test]
fn squares_of_generators(rt: HostRuntime) {
    products::<B1>(&rt, &[(0, 0, 0), (0, 1, 0), (1, 1, 1)]);
    products::<B2>(&rt, &[(2, 2, 3), (2, 3, 1), (3, 3, 2)]);
    products::<B4>(&rt, &[(2, 2, 3), (4, 4, 9)]);
    products::<B8>(&rt, &[(4, 4, 9), (16, 16, 65)]);
    products::<B16>(&rt, &[(16, 16, 65), (1 << 8, 1 << 8, (1 << 12) + 1)]);
    products::<B32>(&rt, &[(16, 16, 65), (1 << 16, 1 << 16, (1 << 24) + 1)]);
    products::<B64>(&rt, &[(16, 16, 65), (1 << 32, 1 << 32, (1 << 48) + 1)]);
    products::<B128>(
        &rt,
        &[
            (2, 2, 3),
            (4, 4, 9),
            (16, 16, 65),
            (1 << 64, 1 << 64, (1 << 96) + 1),
        ],
    );
}

#[test]
fn edges_of_levels(rt: HostRuntime) {
    edges::<B1>(&rt, 1, (1, 0));
    edges::<B2>(&rt, 3, (1, 1));
    edges::<B4>(&rt, 15, (3, 3));
    edges::<B8>(&rt, 255, (15, 15));
    edges::<B16>(&rt, 65535, (255, 255));
    edges::<B32>(&rt, u32::MAX as u128, (65535, 65535));
    edges::<B64>(&rt, u64::MAX as u128, (u32::MAX as u128, u32::MAX as u128));
    edges::<B128>(&rt, u128::MAX, (u64::MAX as u128, u64::MAX as u128));
}

#[test]
fn halves_and_levels(rt: HostRuntime) {
    assert_eq!(rt; B1::join(1, 0).number(), 1);
    assert_eq!(rt; B2::join(1, 0).number(), 1);
    assert_eq!(rt; B4::join(1, 2).split(), (1, 2));
    assert_eq!(rt; B8::join(1, 2).number(), 33);
    assert_eq!(rt; B16::join(1, 2).number(), 513);
    assert_eq!(rt; B32::join(1, 2).split(), (1, 2));
    assert_eq!(rt; B64::join(1, 2).split(), (1, 2));
    assert_eq!(rt; B128::join(1, 2).number(), (2 << 64) + 1);
    assert_eq!(rt; lift::<B8, B128>(B8::join(1, 2)).number(), 33);
    assert_eq!(rt; lift::<B8, B8>(B8::join(1, 2)), B8::join(1, 2));
    assert_eq!(rt; lift::<B1, B2>(B1::ONE), B2::ONE);
}

/// Each number below `end` but 0 has an inverse whose product with it is 1.
fn inverses_below<F: Tower>(rt: &impl Abort, end: u128) {
    for n in 1..end {
        let product = match F::from_number(n) {
            Some(element) => element
                .inverse()
                .map(|inverse| inverse.mul(element).number()),
            None => None,
        };
        assert_eq!(rt; product, Some(1), "{n}");
    }
}

#[test]
fn inverses(rt: HostRuntime) {
    assert_eq!(rt; B2::join(0, 1).inverse(), Some(B2::join(1, 1)));
    inverses_below::<B2>(&rt, 4);
    inverses_below::<B4>(&rt, 16);
    inverses_below::<B8>(&rt, 256);
}

#[test]
fn generators(rt: HostRuntime) {
    assert_eq!(rt; B1::ONE.mul_gen().number(), 1);
    assert_eq!(rt; B2::ONE.mul_gen().number(), 2);
    assert_eq!(rt; B4::ONE.mul_gen().number(), 4);
    assert_eq!(rt; B8::ONE.mul_gen().number(), 16);
    assert_eq!(rt; B16::ONE.mul_gen().number(), 1 << 8);
    assert_eq!(rt; B32::ONE.mul_gen().number(), 1 << 16);
    assert_eq!(rt; B64::ONE.mul_gen().number(), 1 << 32);
    assert_eq!(rt; B128::ONE.mul_gen().number(), 1 << 64);
    assert_eq!(rt; B128::ONE.mul_gen().square().number(), (1 << 96) + 1);
}

#[test]
fn bytes_and_lists(rt: HostRuntime) -> Result<(), Fail> {
    let mut bytes = [0; 16];
    bytes[0] = 2;
    bytes[15] = 128;
    let element = B128::from_bytes(bytes);
    assert_eq!(rt; element.number(), (1 << 127) + 2);
    assert_eq!(rt; element.to_bytes(), bytes);
    assert_eq!(rt; element + element, B128::ZERO);
    assert_eq!(rt; element * B128::ONE, element);
    assert!(rt; lower::<B128, B64>(element).is_none());
    assert_eq!(rt; lower::<B128, B2>(B128::join(3, 0)), Some(B2::join(1, 1)));
    let mut values = Values::new(rt.alloc());
    assert_eq!(rt; values.push(element), Ok(()));
    assert_eq!(rt; values.push(B128::ONE), Ok(()));
    assert_eq!(rt; values.as_slice(), [element, B128::ONE].as_slice());
    assert_eq!(rt;
        format!(in rt.alloc(); "{values:?}")?.as_str(),
        "Values { items: [B128 { bits: 170141183460469231731687303715884105730 }, B128 { bits: 1 }] }"
    );
    numbers_fit(values.as_slice());
    let items = values.into_vec();
    assert_eq!(rt; Values::from_vec(items).as_slice().len(), 2);
    Ok(())
}

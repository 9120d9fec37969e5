//! Values of the hats, by those of the vanishing polynomials at the powers of 2.

ghost use Rattle.std.specs.Prelude.{◌≡◌, ◌<◌, ◌≤◌, ◌^◌, length, IfOk};
ghost use Rattle.additive_transform.specs.Basis.{AreTops};
ghost use Rattle.word_laws.specs.CodeWord.{hat, vanish};

use crate::no_memory::NoMemory;
use std::alloc::Global;
use tower_field::{B128, Tower};

/// The element of a number.
pub(crate) fn element(number: u128) -> B128
    ensures { result ≡ number }
{
    match B128::from_number(number) {
        Some(element) => element,
        None => unreachable!(),
    }
}

/// The vanishing polynomial of a level.
pub(crate) fn vanish_by(tops: &[B128], level: u32, x: u128) -> B128
    requires level { level ≤ length tops.now }
    requires tops { AreTops tops.now (length tops.now) }
    ensures { result ≡ vanish level x }
{
    let mut value = element(x);
    for i in 0..level {
        let top = tops[i as usize];
        value = value * (value + top);
    }
    value
}

/// The same with the value 1 at 2^level.
pub(crate) fn hat_by(tops: &[B128], level: u32, x: u128) -> B128
    requires level { level < length tops.now }
    requires tops { AreTops tops.now (length tops.now) }
    ensures { result ≡ hat level x }
{
    let value = vanish_by(tops, level, x);
    match tops[level as usize].inverse() {
        Some(inverse) => value * inverse,
        None => unreachable!(),
    }
}

/// The values at the powers of 2.
pub(crate) fn tops(alloc: Global, count: u32) -> Result<Vec<B128>, NoMemory>
    requires { count ≤ 24 }
    ensures { IfOk result (λ tops. AreTops tops.items count) }
{
    let mut tops: Vec<B128> = Vec::with_capacity(alloc, count as usize)?;
    for i in 0..count {
        let top = vanish_by(tops.as_slice(), i, 1 << i);
        tops.push(top)?;
    }
    Ok(tops)
}

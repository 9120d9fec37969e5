//! Numbers of a text as elements.

ghost use Rattle.std.specs.Prelude.{◌≡◌, IfOk};

use std::alloc::{AllocError, Global};
use tower_field::{B128, Tower, Values};

pub(crate) fn element(n: u128) -> B128
    ensures { result ≡ n }
{
    match B128::from_number(n) {
        Some(element) => element,
        None => unreachable!(),
    }
}

/// These numbers as a list of elements.
pub(crate) fn elements(alloc: Global, numbers: &[u128]) -> Result<Values, AllocError>
    ensures { IfOk result (λ values. values ≡ numbers.now) }
{
    let mut values = Vec::new(alloc);
    for n in numbers {
        values.push(element(*n))?;
    }
    Ok(Values::from_vec(values))
}

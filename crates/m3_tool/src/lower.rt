//! The command `lower`: the products of each channel, and whether the lowered statement holds.

ghost use Rattle.std.specs.Prelude.{◌≡◌, IfOk};
ghost use Rattle.m3_tool.specs.Answer.{answer_of};
ghost use Rattle.m3_tool.specs.Checking.{EndsCheck};
ghost use Rattle.m3_tool.specs.Run.{IsLowered};

use crate::answer::{Answer, made};
use crate::lines::lowered_text;
use crate::status::Status;
use column_store::Store;
use oracle_lowering::{lower, products_at};
use std::alloc::{AllocError, Global};
use tower_field::{B128, Tower};

/// The element of a number.
fn element(number: u128) -> B128
    ensures { result ≡ number }
{
    match B128::from_number(number) {
        Some(element) => element,
        None => unreachable!(),
    }
}

/// What the values come to at alpha and gamma.
pub(crate) fn lowered(
    alloc: Global,
    store: &Store,
    alpha: u128,
    gamma: u128,
) -> Result<Answer, AllocError>
    ensures lowered { IfOk result (λ a. IsLowered alpha gamma store.now.shape store.now.rows store.now.filling (answer_of a)) }
    ensures kind { IfOk result (λ a. EndsCheck a.status) }
{
    let Ok(values) = lower(alloc, store) else {
        return Err(AllocError);
    };
    let Ok(products) = products_at(alloc, &values, element(alpha), element(gamma)) else {
        return Err(AllocError);
    };
    let text = lowered_text(alloc, store.shape(), &products)?;
    Ok(made(Status::Yes, text))
}

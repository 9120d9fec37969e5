//! The messages of a sum of the products of two tables, whose last is the value of the second.

ghost use Rattle.std.specs.Prelude.{◌≡◌, length, IfOk};
ghost use Rattle.eval_reduce.specs.Ending.{CanTell, Gives};

use crate::ending::Ending;
use sumcheck::{NoMemory, Pair, SumProver};
use tower_field::B128;

/// A round, or the last message, with which the claim is told.
pub fn give(
    sum: &SumProver<Pair>,
    ending: &mut Ending,
    rest: &[B128],
    out: &mut Vec<B128>,
) -> Result<(), NoMemory>
    requires two { length sum.now.lists ≡ 2 }
    requires tells { sum.now.left ≡ 0 → CanTell ending.old rest.now }
    ensures { IfOk result (λ _. Gives sum.now rest.now ending.old ending.new out.old.items out.new.items) }
{
    if sum.left() > 0 {
        sum.round(out)?;
        return Ok(());
    }
    let value = sum.finals()[1];
    if out.push(value).is_err() {
        return Err(NoMemory);
    }
    ending.tell(rest, value);
    Ok(())
}

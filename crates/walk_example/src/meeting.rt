//! A walk and its prover, side by side.

ghost use Rattle.std.specs.Prelude.{◌≡◌, ◌+◌, ◌<◌, ◌^◌, ◌∷◌, length, is_none, true, false, IfOk, Some};
ghost use Rattle.tower_laws.specs.Tower.{Fits};
ghost use Rattle.sumcheck.specs.Machine.{first_entry, Filling};
ghost use Rattle.walk_example.specs.Meeting.{IsTrueOf};

use sumcheck::{Entry, Honest, NoMemory, Steps};
use tower_field::{B128, Tower};

/// That a challenge is an element of level 7. Does nothing.
fn fits(challenge: B128)
    ensures { Fits 7 challenge }
{
    let _ = challenge.number();
}

/// The entry that is due, on both sides: whether it passes. That of a true state does.
pub fn step<P: Honest>(
    walk: &mut P::Walk,
    prover: &mut P,
    entry: Entry,
    challenge: B128,
    values: &mut Vec<B128>,
) -> Result<bool, NoMemory>
    requires { (F : Filling) × (_ : P.follows prover.old F walk.old) × (first_entry (P.Walk.machine.entries walk.old) ≡ Some entry) }
    ensures follows { IfOk result (λ passed. passed ≡ true → (F : Filling) → P.follows prover.old F walk.old → P.follows prover.new F walk.new) }
    ensures passed { IfOk result (λ passed. passed ≡ true → P.Walk.machine.entries walk.old ≡ entry ∷ P.Walk.machine.entries walk.new) }
    ensures refused { IfOk result (λ passed. passed ≡ false → walk.new ≡ walk.old) }
    ensures true_passes { IfOk result (λ passed. (F : Filling) → P.follows prover.old F walk.old → IsTrueOf P.Walk.machine F walk.old → (passed ≡ true) × IsTrueOf P.Walk.machine F walk.new) }
{
    P::Walk::is_lawful();
    match entry {
        Entry::Message { .. } => {
            values.clear();
            prover.message(values)?;
            if walk.message(values.as_slice()).is_err() {
                return Ok(false);
            }
            Ok(true)
        }
        Entry::Draw { .. } => {
            fits(challenge);
            walk.draw(challenge);
            prover.draw(challenge);
            Ok(true)
        }
    }
}

/// Entry by entry on both sides, at most so many, with the elements 7, 8, 9, .. as draws: how many
/// pass, and whether none is due after them. A true state passes to the end, or as far as that.
pub fn meet<P: Honest>(
    walk: &mut P::Walk,
    prover: &mut P,
    most: u32,
    values: &mut Vec<B128>,
) -> Result<(u32, bool), NoMemory>
    requires { (F : Filling) × P.follows prover.old F walk.old }
    ensures count { IfOk result (λ met. length (P.Walk.machine.entries walk.old) ≡ met.0 + length (P.Walk.machine.entries walk.new)) }
    ensures ends { IfOk result (λ met. met.1 ≡ is_none (first_entry (P.Walk.machine.entries walk.new))) }
    ensures follows { IfOk result (λ met. met.1 ≡ true → (F : Filling) → P.follows prover.old F walk.old → P.follows prover.new F walk.new) }
    ensures true_passes { IfOk result (λ met. (F : Filling) → P.follows prover.old F walk.old → IsTrueOf P.Walk.machine F walk.old → met.1 ≡ false → met.0 ≡ most) }
{
    for k in 0..most {
        let Some(entry) = walk.due() else {
            return Ok((k, true));
        };
        let challenge = B128::join(7 + k as u128, 0);
        if !step(walk, prover, entry, challenge, values)? {
            return Ok((k, false));
        }
    }
    Ok((most, walk.due().is_none()))
}

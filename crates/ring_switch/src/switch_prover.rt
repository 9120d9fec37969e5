//! The prover of a ring switch.

ghost use Rattle.std.specs.Prelude.{◌≡◌, ℕ, ◌≤◌, ◌<◌, ◌-◌, ◌^◌, ◌++◌, length, is_some, true, IfOk};
ghost use Rattle.cube_laws.specs.Extension.{extension};
ghost use Rattle.sumcheck.specs.Machine.{AwaitsSome, Filling};
ghost use Rattle.sumcheck.specs.Rounds.{Rounds};
ghost use Rattle.sumcheck.specs.Summing.{adding, closed, summed_entries, summed_honest, summed_message};
ghost use Rattle.ring_switch.specs.Switching.{packed, summed, switch_sum, switching_entries, true_columns, valued, PackedValue as Claim, Switched as Sum, Switching};
ghost use Rattle.ring_switch.specs.SwitchProver.{FollowsEnd, FollowsSwitch, GoesOn, IsNew};

use crate::combining::begin_sum;
use crate::ending::Ending;
use crate::no_memory::NoMemory;
use crate::switch_walk::SwitchWalk;
use crate::switched::Switched;
use cube_mle::eq_table;
use packed_words::Buckets;
use std::alloc::Global;
use sumcheck::{Honest, Pair, SumProver};
use tower_field::B128;

/// The prover of a ring switch, who makes the tables of the sum with its first round, and has at the
/// end the point of the draws and the true value of the words there.
#[derive(Drop)]
pub struct SwitchProver {
    alloc: Global,
    log_bits: u32,
    words: Vec<B128>,
    switched: Switched,
    drawn: u32,
    sum: Option<SumProver<Pair>>,
    ending: Ending,
}

/// A round, or the last message, after which the value is told.
fn give(
    sum: &SumProver<Pair>,
    ending: &mut Ending,
    out: &mut Vec<B128>,
) -> Result<(), sumcheck::NoMemory>
    requires { (F : Filling) × (t : Sum) × (r : Rounds) × (_ : GoesOn sum.now ending.old F t r) × AwaitsSome (summed_entries switch_sum (adding t r)) }
    ensures { IfOk result (λ _. (F : Filling) (t : Sum) (r : Rounds) → GoesOn sum.now ending.old F t r → AwaitsSome (summed_entries switch_sum (adding t r)) → (out.new.items ≡ out.old.items ++ summed_honest switch_sum F (adding t r)) × FollowsEnd sum.now ending.new F (summed_message switch_sum (adding t r) (summed_honest switch_sum F (adding t r)))) }
{
    if sum.left() > 0 {
        sum.round(out)?;
        return Ok(());
    }
    let value = sum.finals()[1];
    if out.push(value).is_err() {
        return Err(sumcheck::NoMemory);
    }
    ending.tell(value);
    Ok(())
}

impl SwitchProver {
    /// The prover for a table of `2 ^ log_bits` bits, from its words.
    pub fn begin(alloc: Global, log_bits: u32, packed: &[B128]) -> Result<SwitchProver, NoMemory>
        requires size { (8 ≤ log_bits) × (log_bits ≤ 24) }
        requires whole { length packed.now ≡ 2 ^ (log_bits - 7) }
        ensures new { IfOk result IsNew }
        ensures words { IfOk result (λ prover. prover.words.items ≡ packed.now) }
        ensures size { IfOk result (λ prover. prover.log_bits ≡ log_bits) }
    {
        Ok(SwitchProver {
            alloc,
            log_bits,
            words: Vec::from_slice(alloc, packed)?,
            switched: Switched::begin(alloc)?,
            drawn: 0,
            sum: None,
            ending: Ending::begin(alloc)?,
        })
    }

    /// Takes the point of the claim. What value is claimed makes no difference.
    pub fn enter(&mut self, point: &[B128], value: B128)
        requires new { IsNew self.old }
        requires long { length point.now ≡ self.old.log_bits }
        ensures { (F : Filling) (claimed : ℕ) → packed F ≡ self.old.words.items → FollowsSwitch self.new F (valued point.now claimed) }
    {
        let _ = value;
        self.switched.place(&point[7..]);
    }

    /// The point and the value that are left at the end. The value is true, whatever the walk would
    /// have refused.
    pub fn result(&self) -> (&[B128], B128)
        requires { (F : Filling) × (p : Claim) × FollowsSwitch self.now F (summed (closed p)) }
        ensures claim { (F : Filling) (p : Claim) → FollowsSwitch self.now F (summed (closed p)) → (result.0.now ≡ p.point) × (result.1 ≡ p.value) }
        ensures holds { (F : Filling) (p : Claim) → FollowsSwitch self.now F (summed (closed p)) → extension (packed F) result.0.now ≡ result.1 }
    {
        (self.ending.point(), self.ending.value())
    }

    /// Appends the columns of the tensor.
    fn give_columns(&self, out: &mut Vec<B128>) -> Result<(), NoMemory>
        ensures { IfOk result (λ _. out.new.items ≡ out.old.items ++ true_columns self.now.switched.high self.now.words.items) }
    {
        let weights = eq_table(self.alloc, self.switched.high())?;
        let mut buckets = Buckets::new(self.alloc)?;
        let columns = buckets.columns(weights.as_slice(), self.words.as_slice());
        out.extend_from_slice(&columns)?;
        Ok(())
    }

    /// Makes the tables, where there are none yet.
    fn start(&mut self) -> Result<(), NoMemory>
        requires { (F : Filling) × (s : Switching) × (_ : FollowsSwitch self.old F s) × (_ : AwaitsSome (switching_entries s)) × (7 ≤ self.old.drawn) }
        ensures started { IfOk result (λ _. is_some self.new.sum ≡ true) }
        ensures follows { IfOk result (λ _. (F : Filling) (s : Switching) → FollowsSwitch self.old F s → AwaitsSome (switching_entries s) → FollowsSwitch self.new F s) }
    {
        if self.sum.is_some() {
            return Ok(());
        }
        let words = std::mem::replace(&mut self.words, Vec::new(self.alloc));
        self.sum = Some(begin_sum(self.alloc, &self.switched, words)?);
        Ok(())
    }
}

impl Honest for SwitchProver {
    type Walk = SwitchWalk;

    ghost follows = { FollowsSwitch };

    fn message(&mut self, out: &mut Vec<B128>) -> Result<(), sumcheck::NoMemory> {
        if self.drawn < 7 {
            if self.give_columns(out).is_err() {
                return Err(sumcheck::NoMemory);
            }
            return Ok(());
        }
        if self.start().is_err() {
            return Err(sumcheck::NoMemory);
        }
        match &self.sum {
            Some(sum) => give(sum, &mut self.ending, out),
            None => unreachable!(),
        }
    }

    fn draw(&mut self, c: B128) {
        match &mut self.sum {
            Some(sum) => {
                sum.bind(c);
                self.ending.set(c);
            }
            None => {
                self.switched.set(self.drawn, c);
                self.drawn += 1;
            }
        }
    }
}

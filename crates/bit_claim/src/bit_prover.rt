//! The prover of a batch of claims.

ghost use Rattle.std.specs.Prelude.{◌≡◌, ℕ, ◌≤◌, ◌*◌, ◌^◌, ◌∷◌, [], length, map, is_some, true, List, IfOk};
ghost use Rattle.std.specs.List.{AllByRecursion};
ghost use Rattle.cube_laws.specs.Extension.{extension};
ghost use Rattle.cube_laws.specs.SumClaim.{AllLong};
ghost use Rattle.batch_laws.specs.Batch.{batched};
ghost use Rattle.sumcheck.specs.declared.column_claim.ColumnClaim.{ColumnClaim as Claim};
ghost use Rattle.sumcheck.specs.Machine.{AwaitsSome, Filling};
ghost use Rattle.sumcheck.specs.Summing.{closed};
ghost use Rattle.table_shape.specs.Placement.{places_log};
ghost use Rattle.tensor_laws.specs.Tensor.{bits_of_table};
ghost use Rattle.bit_claim.specs.BatchFollowing.{FollowsBatch, Gives, IsNew, places};
ghost use Rattle.bit_claim.specs.Batching.{Batching, BitValue as OnBits, batching_entries, opening, summed};
ghost use Rattle.bit_claim.specs.Bits.{bits, claim_table, IsPlaced};

use crate::batched::Batched;
use crate::bit_sum::BitSum;
use crate::bit_table::BitTable;
use crate::bit_walk::BitWalk;
use crate::no_memory::NoMemory;
use crate::placement::Placement;
use crate::room::Room;
use std::alloc::Global;
use sumcheck::{ColumnClaim, Honest};
use tower_field::{B128, Tower};

/// The prover of a batch, who makes the table of the claims with the first message, and has at the end
/// the claim on the table of bits with its true value.
#[derive(Drop)]
pub struct BitProver {
    alloc: Global,
    batched: Batched,
    room: Room,
    bits: BitTable,
    sum: Option<BitSum>,
    draws: Vec<B128>,
    value: B128,
}

/// Appends a round, or the last message, and answers the value that this tells.
fn give(sum: &mut BitSum, out: &mut Vec<B128>) -> Result<Option<B128>, NoMemory>
    ensures kept { sum.new ≡ sum.old }
    ensures given { IfOk result (λ told. Gives sum.old told out.old.items out.new.items) }
{
    if sum.left() > 0 {
        sum.round(out)?;
        return Ok(None);
    }
    let value = sum.bits_value()?;
    if out.push(value).is_err() {
        return Err(NoMemory);
    }
    Ok(Some(value))
}

impl BitProver {
    /// The prover for the columns of these blocks, whose bits stand in the table. `claims` is how many
    /// claims `enter` can take.
    pub fn begin(
        alloc: Global,
        placement: &Placement,
        claims: u32,
        bits: &[B128],
    ) -> Result<BitProver, NoMemory>
        requires { length bits.now ≡ 2 ^ places_log placement.now }
        ensures new { IfOk result (λ prover. IsNew placement.now prover) }
        ensures room { IfOk result (λ prover. prover.room ≡ claims) }
        ensures bits { IfOk result (λ prover. prover.bits ≡ bits.now) }
    {
        let held = Vec::from_slice(alloc, bits)?;
        BitProver::begin_with(alloc, placement, claims, BitTable::of_elements(held))
    }

    /// The same from the packed table: word w has the bits of places 128·w to 128·w + 127, the lowest
    /// first. The words stay packed: until seven challenges have come, the prover has 256 elements for
    /// each claim beside them, and then two tables of an element for each word. Only where there are
    /// more claims than words, or none, does its first message unpack them.
    pub fn begin_packed(
        alloc: Global,
        placement: &Placement,
        claims: u32,
        words: &[B128],
    ) -> Result<BitProver, NoMemory>
        requires whole { 128 * length words.now ≡ 2 ^ places_log placement.now }
        ensures new { IfOk result (λ prover. IsNew placement.now prover) }
        ensures room { IfOk result (λ prover. prover.room ≡ claims) }
        ensures bits { IfOk result (λ prover. prover.bits ≡ bits_of_table 128 words.now) }
    {
        let held = Vec::from_slice(alloc, words)?;
        BitProver::begin_with(alloc, placement, claims, BitTable::of_words(held))
    }

    /// The same from a table that is its own.
    fn begin_with(
        alloc: Global,
        placement: &Placement,
        claims: u32,
        bits: BitTable,
    ) -> Result<BitProver, NoMemory>
        requires { length bits ≡ 2 ^ places_log placement.now }
        ensures new { IfOk result (λ prover. IsNew placement.now prover) }
        ensures room { IfOk result (λ prover. prover.room ≡ claims) }
        ensures bits { IfOk result (λ prover. prover.bits ≡ bits) }
    {
        Ok(BitProver {
            alloc,
            batched: Batched::none(alloc, placement.copy(alloc)?),
            room: Room::begin(alloc, claims)?,
            bits,
            sum: None,
            draws: Vec::with_capacity(alloc, placement.vars() as usize)?,
            value: B128::ZERO,
        })
    }

    /// Takes the claims. What values are claimed makes no difference.
    pub fn enter(&mut self, claims: &[ColumnClaim])
        requires new { IsNew self.old.batched.blocks self.old }
        requires placed { AllByRecursion (IsPlaced self.old.batched.blocks) claims.now }
        requires room { length claims.now ≤ self.old.room }
        ensures { (F : Filling) (cs : List Claim) → places cs ≡ places claims.now → bits F self.old.batched.blocks ≡ self.old.bits → FollowsBatch self.new F (opening self.old.batched.blocks cs) }
    {
        self.batched.placement().points_are_short(claims);
        let copies = self.room.fill(self.alloc, claims);
        self.batched.enter(copies);
    }

    /// The same of claims in their own memory.
    pub fn enter_owned(&mut self, claims: Vec<ColumnClaim>)
        requires new { IsNew self.old.batched.blocks self.old }
        requires placed { AllByRecursion (IsPlaced self.old.batched.blocks) claims.items }
        ensures { (F : Filling) (cs : List Claim) → places cs ≡ places claims.items → bits F self.old.batched.blocks ≡ self.old.bits → FollowsBatch self.new F (opening self.old.batched.blocks cs) }
    {
        self.batched.enter(claims);
    }

    /// The point and the value of the claim at the end. It is true, whatever the walk would have refused.
    pub fn result(&self) -> (&[B128], B128)
        requires { (F : Filling) × (b : OnBits) × FollowsBatch self.now F (summed (closed b)) }
        ensures claim { (F : Filling) (b : OnBits) → FollowsBatch self.now F (summed (closed b)) → (result.0.now ≡ b.point) × (result.1 ≡ b.value) }
        ensures holds { (F : Filling) (b : OnBits) → FollowsBatch self.now F (summed (closed b)) → extension (bits F b.blocks) result.0.now ≡ result.1 }
    {
        (self.draws.as_slice(), self.value)
    }

    /// Makes the tables, where there are none yet.
    fn start(&mut self) -> Result<(), NoMemory>
        requires { (F : Filling) × (s : Batching) × (_ : FollowsBatch self.old F s) × AwaitsSome (batching_entries s) }
        ensures started { IfOk result (λ _. is_some self.new.sum ≡ true) }
        ensures follows { IfOk result (λ _. (F : Filling) (s : Batching) → FollowsBatch self.old F s → AwaitsSome (batching_entries s) → FollowsBatch self.new F s) }
    {
        if self.sum.is_some() {
            return Ok(());
        }
        let bits = std::mem::replace(&mut self.bits, BitTable::of_elements(Vec::new(self.alloc)));
        let none = Batched::none(self.alloc, Placement::none(self.alloc));
        let batched = std::mem::replace(&mut self.batched, none);
        let sum = BitSum::begin(self.alloc, batched, bits)?;
        self.sum = Some(sum);
        Ok(())
    }
}

impl Honest for BitProver {
    type Walk = BitWalk;

    ghost follows = { FollowsBatch };

    fn message(&mut self, out: &mut Vec<B128>) -> Result<(), sumcheck::NoMemory> {
        let Ok(()) = self.start() else {
            return Err(sumcheck::NoMemory);
        };
        let Some(sum) = &mut self.sum else {
            unreachable!();
        };
        let Ok(told) = give(sum, out) else {
            return Err(sumcheck::NoMemory);
        };
        if let Some(value) = told {
            self.value = value;
        }
        Ok(())
    }

    fn draw(&mut self, c: B128) {
        match &mut self.sum {
            Some(sum) => {
                sum.bind(c);
                if self.draws.push(c).is_err() {
                    unreachable!();
                }
            }
            None => self.batched.join(c),
        }
    }
}

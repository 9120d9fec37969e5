//! The prover of the sum of a batch.

ghost use Rattle.std.specs.Prelude.{◌≡◌, ℕ, suc, ◌<◌, ◌-◌, ◌^◌, ◌++◌, [], length, map, IfOk};
ghost use Rattle.cube_laws.specs.Extension.{fold_low};
ghost use Rattle.cube_laws.specs.SumClaim.{AllLong};
ghost use Rattle.sumcheck.specs.Pair.{pair_form};
ghost use Rattle.sumcheck.specs.Proving.{sum_of};
ghost use Rattle.sumcheck.specs.Rounds.{true_round};
ghost use Rattle.table_shape.specs.Placement.{places_log};
ghost use Rattle.bit_claim.specs.BatchSum.{begun, second};

use crate::batched::Batched;
use crate::bit_table::BitTable;
use crate::no_memory::NoMemory;
use crate::sum_form::SumForm;
use std::alloc::Global;
use std::marker::Model;
use tower_field::B128;

/// The sum over the cube of the product of the table of the claims and the table of bits. Contracts
/// see it as a sum of two tables, each with its first variables set to the draws so far.
#[derive(Drop)]
pub struct BitSum {
    alloc: Global,
    form: SumForm,
}

impl Model for BitSum {
    ghost use Rattle.std.specs.Prelude.{◌≡◌, length};
    ghost use Rattle.sumcheck.specs.Proving.{Proving};
    ghost use Rattle.sumcheck.specs.declared.summand.Pair.{Pair};
    ghost use Rattle.bit_claim.specs.SumForm.{proving_of};

    ghost Value = { Proving Pair };

    ghost view = { λ s. proving_of s.form };

    ghost invariant = { λ s. length (proving_of s.form).lists ≡ 2 };
}

impl BitSum {
    /// The sum of a batch, with its tables.
    pub fn begin(alloc: Global, batch: Batched, bits: BitTable) -> Result<BitSum, NoMemory>
        requires { length bits ≡ 2 ^ places_log batch.blocks }
        ensures sum { IfOk result (λ p. p ≡ begun batch bits) }
        ensures long { IfOk result (λ p. AllLong (2 ^ places_log batch.blocks) p.lists) }
    {
        let form = SumForm::begin(alloc, batch, bits)?;
        Ok(BitSum { alloc, form })
    }

    /// How many variables are not set.
    pub fn left(&self) -> u32
        ensures { result ≡ self.now.left }
    {
        self.form.left()
    }

    /// Appends the true values of the round, at 0, 1 and 2.
    pub fn round(&mut self, out: &mut Vec<B128>) -> Result<(), NoMemory>
        requires { 0 < self.old.left }
        ensures kept { self.new ≡ self.old }
        ensures values { IfOk result (λ _. (n : ℕ) → self.old.left ≡ suc n → out.new.items ≡ out.old.items ++ true_round (sum_of pair_form self.old) self.old.degree n []) }
    {
        self.form.prepare(self.alloc)?;
        self.form.round(out)?;
        Ok(())
    }

    /// Sets the lowest variable.
    pub fn bind(&mut self, r: B128)
        requires { 0 < self.old.left }
        ensures { self.new ≡ record self.old { left = self.old.left - 1; lists = map (fold_low r) self.old.lists } }
    {
        self.form.bind(r);
    }

    /// Once all variables are set, the value of the table of bits.
    pub fn bits_value(&mut self) -> Result<B128, NoMemory>
        requires { self.old.left ≡ 0 }
        ensures kept { self.new ≡ self.old }
        ensures value { IfOk result (λ value. value ≡ second self.old) }
    {
        self.form.prepare(self.alloc)?;
        Ok(self.form.bits_value())
    }
}

//! The prover of the sum of a batch on packed words, while the variables of the place in a word are set.

ghost use Rattle.std.specs.Prelude.{◌≡◌, ℕ, suc, ◌-◌, ◌*◌, ◌^◌, ◌<◌, ◌≤◌, ◌∷◌, ◌++◌, [], length, map, IfOk};
ghost use Rattle.cube_laws.specs.Extension.{fold_all};
ghost use Rattle.sumcheck.specs.Pair.{pair_form};
ghost use Rattle.sumcheck.specs.Proving.{sum_of};
ghost use Rattle.sumcheck.specs.Rounds.{true_round};
ghost use Rattle.table_shape.specs.Placement.{places_log};
ghost use Rattle.bit_claim.specs.PackedSum.{packed_proving};

use crate::batched::Batched;
use crate::no_memory::NoMemory;
use crate::packed_tables::{fold_words, high_table, part_tables};
use crate::pairs::Pairs;
use crate::part::split;
use std::alloc::Global;
use std::marker::Model;
use sumcheck::{Pair, SumProver, Tables128};
use tower_field::{B128, Values};

/// The sum over the cube of the product of the table of the claims and the table of bits, of which
/// neither is made: for each claim two tables of 128 numbers, one for each place in a word. Contracts
/// see the batch, the words and the draws so far.
#[derive(Drop)]
pub struct PackedSum {
    batch: Batched,
    words: Vec<B128>,
    draws: Vec<B128>,
    parts: SumProver<Pairs>,
}

impl Model for PackedSum {
    ghost use Rattle.std.specs.Prelude.{vec_capacity};
    ghost use Rattle.bit_claim.specs.PackedSum.{PackedBatch, PackedFits};

    ghost Value = { PackedBatch };

    ghost view = { λ s. record { batch = s.batch; words = s.words.items; draws = s.draws.items } };

    ghost invariant = { λ s. PackedFits s.batch s.words.items s.draws.items (vec_capacity s.draws) s.parts };
}

impl PackedSum {
    /// The sum of a batch of at least one claim, and no more claims than there are words.
    pub fn begin(alloc: Global, batch: Batched, words: Vec<B128>) -> Result<PackedSum, NoMemory>
        requires whole { 128 * length words.items ≡ 2 ^ places_log batch.blocks }
        requires some { 0 < length batch.claims }
        requires few { length batch.claims ≤ length words.items }
        ensures { IfOk result (λ sum. sum ≡ record { batch = batch; words = words.items; draws = [] }) }
    {
        let vars = batch.placement().vars();
        batch.placement().levels_are_low();
        let count = batch.claims().len() as u32;
        let tables = part_tables(alloc, &batch, words.as_slice())?;
        let parts = SumProver::begin(alloc, Pairs { count }, 2, tables)?;
        let draws = Vec::with_capacity(alloc, vars as usize)?;
        Ok(PackedSum {
            batch,
            words,
            draws,
            parts,
        })
    }

    /// How many variables are not set.
    pub fn left(&self) -> u32
        ensures { result ≡ places_log self.now.batch.blocks - length self.now.draws }
    {
        self.batch.placement().vars() - self.draws.len() as u32
    }

    /// How many variables of the place in a word are not set.
    pub fn left_in_word(&self) -> u32
        ensures { result ≡ 7 - length self.now.draws }
    {
        self.parts.left()
    }

    /// Appends the true values of the round, at 0, 1 and 2.
    pub fn round(&self, out: &mut Vec<B128>) -> Result<(), sumcheck::NoMemory>
        requires { length self.now.draws < 7 }
        ensures { IfOk result (λ _. (n : ℕ) → (packed_proving self.now).left ≡ suc n → out.new.items ≡ out.old.items ++ true_round (sum_of pair_form (packed_proving self.now)) 2 n []) }
    {
        self.parts.round(out)?;
        Ok(())
    }

    /// Sets the lowest variable.
    pub fn bind(&mut self, r: B128)
        requires { length self.old.draws < places_log self.old.batch.blocks }
        ensures { self.new ≡ record self.old { draws = self.old.draws ++ r ∷ [] } }
    {
        if self.parts.left() > 0 {
            self.parts.bind(r);
        }
        if self.draws.push(r).is_err() {
            unreachable!();
        }
    }

    /// The same sum by its two tables, which have a number for each word once the variables of the
    /// place in a word are set.
    pub fn by_words(&self, alloc: Global) -> Result<SumProver<Pair>, NoMemory>
        requires { 7 ≤ length self.now.draws }
        ensures { IfOk result (λ sum. sum ≡ packed_proving self.now) }
    {
        let (within, later) = split(self.draws.as_slice(), 7);
        let table = high_table(alloc, &self.batch, self.parts.finals(), self.words.len())?;
        let cells = fold_words(alloc, within, self.words.as_slice())?;
        let mut tables = Tables128::new(alloc);
        tables.push(Values::from_vec(table))?;
        tables.push(Values::from_vec(cells))?;
        let mut sum = SumProver::begin(alloc, Pair, 2, tables)?;
        bind_all(&mut sum, later);
        Ok(sum)
    }
}

/// Sets the lowest variables.
fn bind_all(sum: &mut SumProver<Pair>, draws: &[B128])
    requires { length draws.now ≤ sum.old.left }
    ensures { sum.new ≡ record sum.old { left = sum.old.left - length draws.now; lists = map (fold_all draws.now) sum.old.lists } }
{
    for r in draws {
        sum.bind(*r);
    }
}

//! The sum of a batch by its tables, or on packed words.

ghost use Rattle.std.specs.Prelude.{◌≡◌, ℕ, suc, ◌*◌, ◌<◌, ◌-◌, ◌^◌, ◌++◌, [], length, map, IfOk};
ghost use Rattle.cube_laws.specs.Extension.{fold_low};
ghost use Rattle.cube_laws.specs.SumClaim.{AllLong};
ghost use Rattle.sumcheck.specs.Pair.{pair_form};
ghost use Rattle.sumcheck.specs.Proving.{sum_of};
ghost use Rattle.sumcheck.specs.Rounds.{true_round};
ghost use Rattle.table_shape.specs.Placement.{places_log};
ghost use Rattle.tensor_laws.specs.Tensor.{bits_of_table};
ghost use Rattle.bit_claim.specs.BatchSum.{begun, second};
ghost use Rattle.bit_claim.specs.SumForm.{proving_of, IsReady};

use crate::batch_table::batch_table;
use crate::batched::Batched;
use crate::bit_table::BitTable;
use crate::no_memory::NoMemory;
use crate::packed_sum::PackedSum;
use std::alloc::Global;
use sumcheck::{Pair, SumProver, Tables128};
use tower_field::{B128, Values};

#[derive(Drop)]
pub enum SumForm {
    /// Two tables, with a number for each place, or once the variables of the place in a word are set,
    /// for each word.
    Tables(SumProver<Pair>),
    /// Packed words, while these variables are set.
    Words(PackedSum),
}

/// The sum by both tables.
fn by_tables(alloc: Global, batch: &Batched, bits: BitTable) -> Result<SumProver<Pair>, NoMemory>
    requires { length bits ≡ 2 ^ places_log batch.now.blocks }
    ensures sum { IfOk result (λ p. p ≡ begun batch.now bits) }
    ensures long { IfOk result (λ p. AllLong (2 ^ places_log batch.now.blocks) p.lists) }
{
    let table = batch_table(alloc, batch)?;
    let cells = bits.into_elements(alloc)?;
    let mut tables = Tables128::new(alloc);
    tables.push(Values::from_vec(table))?;
    tables.push(Values::from_vec(cells))?;
    let sum = SumProver::begin(alloc, Pair, 2, tables)?;
    Ok(sum)
}

/// The sum on words; but by both tables where there are no claims, or so many that their tables for the
/// places in a word would be longer.
fn on_words(alloc: Global, batch: Batched, words: Vec<B128>) -> Result<SumForm, NoMemory>
    requires { 128 * length words.items ≡ 2 ^ places_log batch.blocks }
    ensures sum { IfOk result (λ form. proving_of form ≡ begun batch (bits_of_table 128 words.items)) }
    ensures long { IfOk result (λ form. AllLong (2 ^ places_log batch.blocks) (proving_of form).lists) }
{
    let claims = batch.claims().len();
    if claims == 0 || claims > words.len() {
        let sum = by_tables(alloc, &batch, BitTable::of_words(words))?;
        return Ok(SumForm::Tables(sum));
    }
    let sum = PackedSum::begin(alloc, batch, words)?;
    Ok(SumForm::Words(sum))
}

impl SumForm {
    /// The sum of a batch.
    pub fn begin(alloc: Global, batch: Batched, bits: BitTable) -> Result<SumForm, NoMemory>
        requires { length bits ≡ 2 ^ places_log batch.blocks }
        ensures sum { IfOk result (λ form. proving_of form ≡ begun batch bits) }
        ensures long { IfOk result (λ form. AllLong (2 ^ places_log batch.blocks) (proving_of form).lists) }
    {
        match bits.try_into_words() {
            Ok(words) => {
                let form = on_words(alloc, batch, words)?;
                Ok(form)
            }
            Err(bits) => {
                let sum = by_tables(alloc, &batch, bits)?;
                Ok(SumForm::Tables(sum))
            }
        }
    }

    /// How many variables are not set.
    pub fn left(&self) -> u32
        ensures { result ≡ (proving_of self.now).left }
    {
        match self {
            SumForm::Tables(sum) => sum.left(),
            SumForm::Words(sum) => sum.left(),
        }
    }

    /// Makes the tables with a number for each word, where they are due.
    pub fn prepare(&mut self, alloc: Global) -> Result<(), NoMemory>
        ensures kept { proving_of self.new ≡ proving_of self.old }
        ensures ready { IfOk result (λ _. IsReady self.new) }
    {
        let tables = match self {
            SumForm::Tables(_) => return Ok(()),
            SumForm::Words(sum) => {
                if sum.left_in_word() > 0 {
                    return Ok(());
                }
                sum.by_words(alloc)?
            }
        };
        *self = SumForm::Tables(tables);
        Ok(())
    }

    /// Appends the true values of the round, at 0, 1 and 2.
    pub fn round(&self, out: &mut Vec<B128>) -> Result<(), sumcheck::NoMemory>
        requires ready { IsReady self.now }
        requires left { 0 < (proving_of self.now).left }
        ensures { IfOk result (λ _. (n : ℕ) → (proving_of self.now).left ≡ suc n → out.new.items ≡ out.old.items ++ true_round (sum_of pair_form (proving_of self.now)) (proving_of self.now).degree n []) }
    {
        match self {
            SumForm::Tables(sum) => sum.round(out),
            SumForm::Words(sum) => sum.round(out),
        }
    }

    /// Sets the lowest variable.
    pub fn bind(&mut self, r: B128)
        requires { 0 < (proving_of self.old).left }
        ensures { proving_of self.new ≡ record (proving_of self.old) { left = (proving_of self.old).left - 1; lists = map (fold_low r) (proving_of self.old).lists } }
    {
        match self {
            SumForm::Tables(sum) => sum.bind(r),
            SumForm::Words(sum) => sum.bind(r),
        }
    }

    /// Once all variables are set, the value of the table of bits.
    pub fn bits_value(&self) -> B128
        requires ready { IsReady self.now }
        requires two { length (proving_of self.now).lists ≡ 2 }
        requires set { (proving_of self.now).left ≡ 0 }
        ensures { result ≡ second (proving_of self.now) }
    {
        match self {
            SumForm::Tables(sum) => sum.finals()[1],
            SumForm::Words(_) => unreachable!(),
        }
    }
}

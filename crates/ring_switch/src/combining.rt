//! The sum's table.

ghost use Rattle.std.specs.Prelude.{◌≡◌, ◌∷◌, ◌≤◌, ◌<◌, ◌^◌, [], length, map, IfOk};
ghost use Rattle.cube_laws.specs.Extension.{bit, dot};
ghost use Rattle.cube_laws.specs.Sums.{tabulate};
ghost use Rattle.tensor_laws.specs.Switch.{combined};

use crate::bit_weights::BitWeights;
use crate::no_memory::NoMemory;
use crate::switched::Switched;
use cube_mle::eq_table;
use std::alloc::Global;
use sumcheck::{Pair, SumProver, Tables128};
use tower_field::{B128, Values};

/// For each element the sum of the weights of its bits, in place.
fn combine(cells: &mut Vec<B128>, weights: &BitWeights)
    ensures { cells.new.items ≡ map (λ e. dot (tabulate 128 (bit e)) weights.now) cells.old.items }
{
    for i in 0..cells.len() {
        cells[i] = weights.sum(cells[i]);
    }
}

/// The table that the weights of the draws combine out of eq of the high point.
fn combined_table(alloc: Global, switched: &Switched) -> Result<Vec<B128>, NoMemory>
    requires { length switched.now.combine ≡ 7 }
    ensures { IfOk result (λ cells. cells.items ≡ combined switched.now.high switched.now.combine) }
{
    let mut cells = eq_table(alloc, switched.high())?;
    let weights = BitWeights::new(alloc, eq_table(alloc, switched.prefix(7))?)?;
    combine(&mut cells, &weights);
    Ok(cells)
}

/// The prover of the sum, with its tables.
pub(crate) fn begin_sum(
    alloc: Global,
    switched: &Switched,
    words: Vec<B128>,
) -> Result<SumProver<Pair>, NoMemory>
    requires seven { length switched.now.combine ≡ 7 }
    requires few { length switched.now.high ≤ 17 }
    requires whole { length words.items ≡ 2 ^ length switched.now.high }
    ensures { IfOk result (λ p. p ≡ record { summand = record {}; degree = 2; left = length switched.now.high; lists = combined switched.now.high switched.now.combine ∷ words.items ∷ [] }) }
{
    let cells = combined_table(alloc, switched)?;
    let mut tables = Tables128::new(alloc);
    tables.push(Values::from_vec(cells))?;
    tables.push(Values::from_vec(words))?;
    Ok(SumProver::begin(alloc, Pair, 2, tables)?)
}

//! The sums for a value of a layer and of the leaves, with their tables.

ghost use Rattle.std.specs.Prelude.{◌≡◌, ℕ, ◌+◌, ◌^◌, ◌<◌, ◌≤◌, ◌++◌, ◌∷◌, [], drop, length, map, take, IfOk, OnOk};
ghost use Rattle.std.specs.List.{AllByRecursion};
ghost use Rattle.batch_laws.specs.Batch.{eq_sum};
ghost use Rattle.cube_laws.specs.Extension.{weights};
ghost use Rattle.cube_laws.specs.Sums.{tabulate};
ghost use Rattle.layer_laws.specs.Layers.{layer_sum};
ghost use Rattle.layer_laws.specs.LeafForm.{leaf_form};
ghost use Rattle.sumcheck.specs.Proving.{Goes};
ghost use Rattle.sumcheck.specs.Rounds.{sum_claim};
ghost use Rattle.table_shape.specs.Limits.{max_channel_width};
ghost use Rattle.channel_products.specs.Descent.{leaf_lists, row_vars, selector_list};
ghost use Rattle.channel_products.specs.Given.{selector_columns, table_of, FlushIsThere, IsThere};
ghost use Rattle.channel_products.specs.Summands.{halves_form, leaf_term_form};

use crate::flushed::Flushed;
use crate::halves::Halves;
use crate::layers::{power, steps};
use crate::leaf_term::LeafTerm;
use crate::leaves::list_at;
use crate::no_memory::NoMemory;
use cube_mle::eq_table;
use std::alloc::{AllocError, Global};
use sumcheck::{ColumnTables, SumProver, Tables128};
use tower_field::{B128, Tower, Values};

/// 1 for each row of a filled-up table.
fn ones(alloc: Global, count: u32) -> Result<Vec<B128>, AllocError>
    ensures { IfOk result (λ ones. ones.items ≡ tabulate count (λ row. 1)) }
{
    let mut ones = Vec::with_capacity(alloc, count as usize)?;
    for _ in 0..count {
        ones.push(B128::ONE)?;
    }
    Ok(ones)
}

/// A copy of the list of a column that is there.
fn copied_list(
    alloc: Global,
    tables: &ColumnTables,
    table: u32,
    column: u32,
) -> Result<Vec<B128>, AllocError>
    requires { (n : ℕ) × IsThere tables.now table n column }
    ensures { IfOk result (λ copy. copy.items ≡ table_of tables.now table column) }
{
    let mut copy = Vec::new(alloc);
    copy.extend_from_slice(list_at(tables, table, column))?;
    Ok(copy)
}

/// A copy of a selector's list, and 1 throughout where there is no selector.
fn selector_table(
    alloc: Global,
    tables: &ColumnTables,
    table: u32,
    selector: Option<u32>,
    vars: u32,
) -> Result<Vec<B128>, AllocError>
    requires few { vars < 32 }
    requires there { AllByRecursion (IsThere tables.now table (2 ^ vars)) (selector_columns selector) }
    ensures { IfOk result (λ list. list.items ≡ selector_list (table_of tables.now table) vars selector) }
{
    match selector {
        Some(column) => copied_list(alloc, tables, table, column),
        None => ones(alloc, power(vars)),
    }
}

/// Appends copies of the lists of columns.
fn push_columns(
    alloc: Global,
    tables: &ColumnTables,
    table: u32,
    columns: &[u32],
    lists: &mut Tables128,
) -> Result<(), NoMemory>
    requires { (n : ℕ) × AllByRecursion (IsThere tables.now table n) columns.now }
    ensures { OnOk result (lists.new ≡ lists.old ++ map (table_of tables.now table) columns.now) }
{
    for column in columns {
        let copy = copied_list(alloc, tables, table, *column)?;
        lists.push(Values::from_vec(copy))?;
    }
    Ok(())
}

/// eq of the point, and both halves of the layer below.
fn layer_tables(
    alloc: Global,
    point: &[B128],
    half: u32,
    below: &[B128],
) -> Result<Tables128, NoMemory>
    requires { half ≤ length below.now }
    ensures { IfOk result (λ tables. tables ≡ weights point.now ∷ take half below.now ∷ drop half below.now ∷ []) }
{
    let weights = eq_table(alloc, point)?;
    let mut tables = Tables128::new(alloc);
    tables.push(Values::from_vec(weights))?;
    let half = half as usize;
    let mut low = Vec::new(alloc);
    low.extend_from_slice(&below[..half])?;
    tables.push(Values::from_vec(low))?;
    let mut high = Vec::new(alloc);
    high.extend_from_slice(&below[half..])?;
    tables.push(Values::from_vec(high))?;
    Ok(tables)
}

/// eq of the point, the steps, the selector and the columns of the tuple.
fn leaf_tables(
    alloc: Global,
    tables: &ColumnTables,
    flush: &Flushed,
    vars: u32,
    point: &[B128],
) -> Result<Tables128, NoMemory>
    requires few { vars < 32 }
    requires vars { vars ≡ row_vars flush.now }
    requires there { FlushIsThere tables.now flush.now }
    ensures { IfOk result (λ lists. lists ≡ weights point.now ∷ leaf_lists (table_of tables.now) flush.now) }
{
    let weights = eq_table(alloc, point)?;
    let steps = steps(alloc, flush.rows, power(vars))?;
    let selector = selector_table(alloc, tables, flush.table, flush.shape.selector, vars)?;
    let mut lists = Tables128::new(alloc);
    lists.push(Values::from_vec(weights))?;
    lists.push(Values::from_vec(steps))?;
    lists.push(Values::from_vec(selector))?;
    let columns = flush.shape.columns.as_slice();
    push_columns(alloc, tables, flush.table, columns, &mut lists)?;
    Ok(lists)
}

/// The prover of the sum for a value of a layer.
pub(crate) fn sum_of_layer(
    alloc: Global,
    layer: u32,
    point: &[B128],
    below: &[B128],
) -> Result<SumProver<Halves>, NoMemory>
    requires few { layer < 32 }
    requires point { length point.now ≡ layer }
    requires below { length below.now ≡ 2 ^ layer + 2 ^ layer }
    ensures { IfOk result (λ sum. (c : ℕ) → Goes halves_form sum (layer_sum layer point.now below.now) (sum_claim 3 layer [] c)) }
{
    let tables = layer_tables(alloc, point, power(layer), below)?;
    Ok(SumProver::begin(alloc, Halves, 3, tables)?)
}

/// The prover of the sum for a value of the leaves.
pub(crate) fn sum_of_leaves(
    alloc: Global,
    tables: &ColumnTables,
    flush: &Flushed,
    vars: u32,
    point: &[B128],
    alpha: B128,
    gamma: B128,
) -> Result<SumProver<LeafTerm>, NoMemory>
    requires few { vars < 32 }
    requires width { length flush.now.shape.columns ≤ max_channel_width }
    requires vars { vars ≡ row_vars flush.now }
    requires point { length point.now ≡ vars }
    requires there { FlushIsThere tables.now flush.now }
    ensures { IfOk result (λ sum. (c : ℕ) → Goes leaf_term_form sum (eq_sum point.now (leaf_form alpha gamma (length flush.now.shape.columns)) (leaf_lists (table_of tables.now) flush.now)) (sum_claim 4 vars [] c)) }
{
    let lists = leaf_tables(alloc, tables, flush, vars, point)?;
    let width = flush.shape.columns.len() as u32;
    let term = LeafTerm {
        alpha,
        gamma,
        width,
    };
    Ok(SumProver::begin(alloc, term, 4, lists)?)
}

//! The layers of a flush's product.

ghost use Rattle.std.specs.Prelude.{◌≡◌, ℕ, ◌+◌, ◌^◌, ◌<◌, ◌≤◌, length, map, slice_index, IfOk};
ghost use Rattle.std.specs.List.{All};
ghost use Rattle.std.specs.Option.{option_copied};
ghost use Rattle.cube_laws.specs.Sums.{tabulate};
ghost use Rattle.multiset_laws.specs.Fingerprint.{fingerprint, leaf};
ghost use Rattle.layer_laws.specs.Layers.{halved};
ghost use Rattle.table_shape.specs.Lowering.{step};
ghost use Rattle.channel_products.specs.Channels.{leaves_of};
ghost use Rattle.channel_products.specs.Descent.{row_steps, row_vars};
ghost use Rattle.channel_products.specs.Given.{selected_at, table_of, FlushIsThere, SelectorIsLong};
ghost use Rattle.channel_products.specs.Stacked.{stacked};

use crate::fingerprint::{collapse, leaf};
use crate::flushed::Flushed;
use crate::leaves::{list_at, lists_at, read_tuple, selected};
use crate::no_memory::NoMemory;
use std::alloc::{AllocError, Global};
use sumcheck::ColumnTables;
use tower_field::{B128, Tower, Values};

/// 2 ^ n.
pub(crate) fn power(n: u32) -> u32
    requires { n < 32 }
    ensures { result ≡ 2 ^ n }
{
    1u32 << n
}

/// 1 where a row is below a number of rows, and 0 elsewhere.
fn step(rows: u32, row: u32) -> B128
    ensures { result ≡ step rows row }
{
    if row < rows { B128::ONE } else { B128::ZERO }
}

/// The steps of all rows of a filled-up table.
pub(crate) fn steps(alloc: Global, rows: u32, count: u32) -> Result<Vec<B128>, AllocError>
    ensures { IfOk result (λ steps. steps.items ≡ tabulate count (step rows)) }
{
    let mut steps = Vec::with_capacity(alloc, count as usize)?;
    for row in 0..count {
        steps.push(step(rows, row))?;
    }
    Ok(steps)
}

/// The leaves of all rows of a filled-up table.
fn leaves_at(
    alloc: Global,
    lists: &[&[B128]],
    selector: Option<&[B128]>,
    rows: u32,
    count: u32,
    alpha: B128,
    gamma: B128,
) -> Result<Vec<B128>, AllocError>
    requires long { All (λ l. count ≤ length l.now) lists.now }
    requires selector { SelectorIsLong count (option_copied selector) }
    ensures { IfOk result (λ leaves. leaves.items ≡ tabulate count (λ row. leaf (step rows row) (selected_at (option_copied selector.entry) row) (fingerprint alpha gamma (map (λ l. slice_index l.now row) lists.now)))) }
{
    let mut tuple = Vec::new(alloc);
    let mut leaves = Vec::with_capacity(alloc, count as usize)?;
    for row in 0..count {
        read_tuple(lists, row, &mut tuple)?;
        let collapsed = collapse(alpha, tuple.as_slice());
        leaves.push(leaf(step(rows, row), selected(selector, row), gamma, collapsed))?;
    }
    Ok(leaves)
}

/// The leaves of a flush, from the lists of its columns.
pub(crate) fn leaf_table(
    alloc: Global,
    tables: &ColumnTables,
    flush: &Flushed,
    count: u32,
    alpha: B128,
    gamma: B128,
) -> Result<Vec<B128>, AllocError>
    requires there { FlushIsThere tables.now flush.now }
    requires count { count ≡ 2 ^ row_vars flush.now }
    ensures { IfOk result (λ leaves. leaves.items ≡ leaves_of (table_of tables.now) alpha gamma flush.now) }
{
    let lists = lists_at(alloc, tables, flush.table, flush.shape.columns.as_slice())?;
    let selector = match flush.shape.selector {
        Some(column) => Some(list_at(tables, flush.table, column)),
        None => None,
    };
    leaves_at(
        alloc,
        lists.as_slice(),
        selector,
        flush.rows,
        count,
        alpha,
        gamma,
    )
}

/// The layer above a layer: the products of its lower and its upper half.
fn halved(alloc: Global, half: u32, table: &[B128]) -> Result<Vec<B128>, AllocError>
    requires { length table.now ≡ half + half }
    ensures { IfOk result (λ products. products.items ≡ halved half table.now) }
{
    let half = half as usize;
    let mut products = Vec::with_capacity(alloc, half)?;
    for p in 0..half {
        products.push(table[p] * table[p + half])?;
    }
    Ok(products)
}

/// The layers below the first, from the leaves on.
pub(crate) fn layers_below(
    alloc: Global,
    leaves: Vec<B128>,
    vars: u32,
) -> Result<Vec<Values>, NoMemory>
    requires few { vars < 32 }
    requires long { length leaves.items ≡ 2 ^ vars }
    ensures { IfOk result (λ layers. layers.items ≡ stacked leaves.items 0 vars) }
{
    let mut layers = Vec::with_capacity(alloc, vars as usize)?;
    let mut last = leaves;
    let mut layer = vars;
    while layer > 0 {
        layer -= 1;
        let above = halved(alloc, power(layer), last.as_slice())?;
        if layers.push(Values::from_vec(last)).is_err() {
            return Err(NoMemory);
        }
        last = above;
    }
    Ok(layers)
}

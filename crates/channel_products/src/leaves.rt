//! The product of a flush's leaves.

ghost use Rattle.std.specs.Prelude.{◌≡◌, ℕ, ◌+◌, ◌<◌, ◌≤◌, length, map, slice_index, IfOk};
ghost use Rattle.std.specs.List.{All, AllByRecursion};
ghost use Rattle.std.specs.Option.{option_copied};
ghost use Rattle.tower_laws.specs.Lists.{product_all};
ghost use Rattle.cube_laws.specs.Sums.{tabulate};
ghost use Rattle.multiset_laws.specs.Fingerprint.{fingerprint, leaf};
ghost use Rattle.table_shape.specs.Lowering.{flush_product};
ghost use Rattle.channel_products.specs.Given.{selected_at, table_of, FlushIsThere, IsThere, SelectorIsLong};

use crate::fingerprint::{collapse, leaf};
use crate::flushed::Flushed;
use std::alloc::{AllocError, Global};
use sumcheck::ColumnTables;
use tower_field::{B128, Tower};

/// The list of a column that is there.
pub(crate) fn list_at(tables: &ColumnTables, table: u32, column: u32) -> &[B128]
    requires { (n : ℕ) × IsThere tables.now table n column }
    ensures { result.now ≡ table_of tables.now table column }
{
    match tables.get(table, column) {
        Some(list) => list,
        None => unreachable!(),
    }
}

/// The lists of columns that are there.
pub(crate) fn lists_at<'a>(
    alloc: Global,
    tables: &'a ColumnTables,
    table: u32,
    columns: &[u32],
) -> Result<Vec<&'a [B128]>, AllocError>
    requires { (n : ℕ) × AllByRecursion (IsThere tables.now table n) columns.now }
    ensures { IfOk result (λ lists. map (λ l. l.now) lists.items ≡ map (table_of tables.now table) columns.now) }
{
    let mut lists = Vec::new(alloc);
    for column in columns {
        lists.push(list_at(tables, table, *column))?;
    }
    Ok(lists)
}

/// The tuple of a row, in place of what `tuple` holds.
pub(crate) fn read_tuple(
    lists: &[&[B128]],
    row: u32,
    tuple: &mut Vec<B128>,
) -> Result<(), AllocError>
    requires { All (λ l. row < length l.now) lists.now }
    ensures { IfOk result (λ _. tuple.new.items ≡ map (λ l. slice_index l.now row) lists.now) }
{
    tuple.clear();
    for list in lists {
        tuple.push(list[row as usize])?;
    }
    Ok(())
}

/// The value of a selector at a row, and 1 where there is none.
pub(crate) fn selected(selector: Option<&[B128]>, row: u32) -> B128
    requires { SelectorIsLong (row + 1) (option_copied selector) }
    ensures { result ≡ selected_at (option_copied selector.entry) row }
{
    match selector {
        Some(list) => list[row as usize],
        None => B128::ONE,
    }
}

/// The product of the leaves of rows.
fn rows_product(
    alloc: Global,
    lists: &[&[B128]],
    selector: Option<&[B128]>,
    rows: u32,
    alpha: B128,
    gamma: B128,
) -> Result<B128, AllocError>
    requires long { All (λ l. rows ≤ length l.now) lists.now }
    requires selector { SelectorIsLong rows (option_copied selector) }
    ensures { IfOk result (λ product. product ≡ product_all (tabulate rows (λ row. leaf 1 (selected_at (option_copied selector.entry) row) (fingerprint alpha gamma (map (λ l. slice_index l.now row) lists.now))))) }
{
    let mut tuple = Vec::new(alloc);
    let mut product = B128::ONE;
    for row in 0..rows {
        read_tuple(lists, row, &mut tuple)?;
        let collapsed = collapse(alpha, tuple.as_slice());
        product = product * leaf(B128::ONE, selected(selector, row), gamma, collapsed);
    }
    Ok(product)
}

/// The product of a flush's leaves, from the lists of its columns.
pub(crate) fn flush_product(
    alloc: Global,
    tables: &ColumnTables,
    flush: &Flushed,
    alpha: B128,
    gamma: B128,
) -> Result<B128, AllocError>
    requires { FlushIsThere tables.now flush.now }
    ensures { IfOk result (λ product. product ≡ flush_product alpha gamma (table_of tables.now flush.now.table) flush.now.rows flush.now.shape) }
{
    let lists = lists_at(alloc, tables, flush.table, flush.shape.columns.as_slice())?;
    let selector = match flush.shape.selector {
        Some(column) => Some(list_at(tables, flush.table, column)),
        None => None,
    };
    rows_product(alloc, lists.as_slice(), selector, flush.rows, alpha, gamma)
}

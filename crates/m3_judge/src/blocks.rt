//! The values of an expression at several positions at once. That costs less than one by one, since
//! its tree is gone through, and each of its columns looked up, once for all of them.

ghost use Rattle.table_text.specs.Limits.{max_log_values};
ghost use Rattle.table_shape.specs.Limits.{max_rows};
ghost use Rattle.std.specs.Prelude.{◌≡◌, ℕ, ◌+◌, ◌≤◌, ◌<◌, ◌^◌, bit_xor, get_or, length, map, slice_index, IsTrue, IfSome};
ghost use Rattle.table_shape.specs.Value.{value};
ghost use Rattle.tower_laws.specs.Lists.{product_all, sum_all};
ghost use Rattle.tower_laws.specs.Tower.{mul};
ghost use Rattle.column_store.specs.Column.{lists};
ghost use Rattle.m3_judge.specs.Blocks.{BlockFits, HasNumbers, IsZeroBetween};
ghost use Rattle.m3_judge.specs.Judging.{values_in};

use column_store::Column;
use table_shape::{ConstraintShape, ShapeExpr};
use tower_field::Tower;

/// How many positions are taken at once.
const SIZE: usize = 16;

/// How many rows are taken at once, which is a whole number of blocks of positions.
pub(crate) const ROWS: u32 = 16;

/// The values of a column from a position on. None where one is no element of the field of F.
fn values_from<F: Tower>(column: &Column, first: usize) -> Option<[F; SIZE]>
    requires { first < 2 ^ 32 }
    ensures { IfSome result (λ block. HasNumbers F.number block (λ i. slice_index column.now.values (first + i))) }
{
    let mut block = [F::ZERO; SIZE];
    for i in 0..SIZE {
        block[i] = F::from_number(column.get(first + i))?;
    }
    Some(block)
}

/// The values of the column of this number, and zeros where there is none.
fn column_block<F: Tower>(columns: &[Column], column: u32, first: usize) -> Option<[F; SIZE]>
    requires { first < 2 ^ 32 }
    ensures { IfSome result (λ block. HasNumbers F.number block (λ i. values_in columns.now (first + i) column)) }
{
    match columns.get(column as usize) {
        Some(column) => values_from(column, first),
        None => Some([F::ZERO; SIZE]),
    }
}

fn add_to<F: Tower>(sums: &mut [F; SIZE], block: &[F; SIZE])
    ensures long { length sums.new ≡ length sums.old }
    ensures numbers { (i : ℕ) (d : F) → i < length sums.new → F.number (get_or sums.new i d) ≡ bit_xor (F.number (get_or sums.old i d)) (F.number (get_or block.now i d)) }
{
    for i in 0..SIZE {
        sums[i] = sums[i].add(block[i]);
    }
}

fn multiply<F: Tower>(products: &mut [F; SIZE], block: &[F; SIZE])
    ensures long { length products.new ≡ length products.old }
    ensures numbers { (i : ℕ) (d : F) → i < length products.new → F.number (get_or products.new i d) ≡ mul (F.number (get_or products.old i d)) (F.number (get_or block.now i d)) }
{
    for i in 0..SIZE {
        products[i] = products[i].mul(block[i]);
    }
}

/// The values of an expression from a position on, in the field of F. None where a number of it, or
/// a value of its columns, is no element of that field.
#[cycle(blocks)]
fn block_in<F: Tower>(columns: &[Column], expr: &ShapeExpr, first: usize) -> Option<[F; SIZE]>
    requires { first < 2 ^ 32 }
    ensures { IfSome result (λ block. HasNumbers F.number block (λ i. value (values_in columns.now (first + i)) expr.now)) }
{
    match expr {
        ShapeExpr::Number(n) => Some([F::from_number(n.number())?; SIZE]),
        ShapeExpr::Column(column) => column_block(columns, *column, first),
        ShapeExpr::Sum(parts) => sum_block(columns, parts.as_slice(), first),
        ShapeExpr::Product(parts) => product_block(columns, parts.as_slice(), first),
    }
}

#[cycle(blocks)]
fn sum_block<F: Tower>(columns: &[Column], parts: &[ShapeExpr], first: usize) -> Option<[F; SIZE]>
    requires { first < 2 ^ 32 }
    ensures { IfSome result (λ block. HasNumbers F.number block (λ i. sum_all (map (value (values_in columns.now (first + i))) parts.now))) }
{
    let mut sums = [F::ZERO; SIZE];
    for part in parts {
        let block = block_in(columns, part, first)?;
        add_to(&mut sums, &block);
    }
    Some(sums)
}

#[cycle(blocks)]
fn product_block<F: Tower>(
    columns: &[Column],
    parts: &[ShapeExpr],
    first: usize,
) -> Option<[F; SIZE]>
    requires { first < 2 ^ 32 }
    ensures { IfSome result (λ block. HasNumbers F.number block (λ i. product_all (map (value (values_in columns.now (first + i))) parts.now))) }
{
    let Some((head, others)) = parts.split_first() else {
        return Some([F::ONE; SIZE]);
    };
    let mut products: [F; SIZE] = block_in(columns, head, first)?;
    for part in others {
        let block = block_in(columns, part, first)?;
        multiply(&mut products, &block);
    }
    Some(products)
}

fn are_zero<F: Tower>(block: &[F; SIZE]) -> bool
    ensures { IsTrue result → (i : ℕ) (d : F) → i < 16 → F.number (get_or block.now i d) ≡ 0 }
{
    for i in 0..SIZE {
        if block[i] != F::ZERO {
            return false;
        }
    }
    true
}

/// Whether an expression is found to be 0 from a position on.
fn is_zero_block<F: Tower>(columns: &[Column], expr: &ShapeExpr, first: usize) -> bool
    requires block_fits { BlockFits F.row }
    requires position { first < 2 ^ 32 }
    ensures { IsTrue result → (i : ℕ) → i < 16 → value (values_in columns.now (first + i)) expr.now ≡ 0 }
{
    match block_in::<F>(columns, expr, first) {
        Some(block) => are_zero(&block),
        None => false,
    }
}

/// Whether a constraint is found to be 0 on as many rows as are taken at once, from a row on.
pub(crate) fn are_zero_rows<F: Tower>(
    columns: &[Column],
    constraint: &ConstraintShape,
    row: u32,
) -> bool
    requires block_fits { BlockFits F.row }
    requires row { row < max_rows }
    requires log_values { constraint.now.log_values ≤ max_log_values }
    ensures { IsTrue result → IsZeroBetween (lists columns.now) constraint.now row 16 }
{
    let count = 1usize << constraint.log_values;
    let first = row as usize * count;
    for k in 0..count {
        if !is_zero_block::<F>(columns, &constraint.expr, first + k * SIZE) {
            return false;
        }
    }
    true
}

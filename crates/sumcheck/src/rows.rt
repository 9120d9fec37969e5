//! The values of a form at the positions of tables.

ghost use Rattle.std.specs.Prelude.{◌≡◌, ◌*◌, ◌^◌, ◌<◌, ◌≤◌, length, get_or, bit_xor, vec_capacity, map, IfSome};
ghost use Rattle.cube_laws.specs.Extension.{fold_low};
ghost use Rattle.tower_laws.specs.Tower.{mul};
ghost use Rattle.cube_laws.specs.Form.{value};
ghost use Rattle.cube_laws.specs.SumClaim.{AllLong, row};
ghost use Rattle.cube_laws.specs.Sums.{sum_to, tabulate};
ghost use Rattle.sumcheck.specs.Proving.{row_at};

use crate::summand::Summand;
use cube_mle::fold_low;
use packed_words::{Multiples, times_byte};
use std::alloc::Global;
use tower_field::{B8, B128, Tower, Values};

/// From as many pairs on, a fold by a table of the challenge's multiples is quicker.
pub const MANY: usize = 512;

/// The point of the number `n`, a byte.
fn point(n: u8) -> B8
    ensures { result ≡ n }
{
    match B8::from_number(n as u128) {
        Some(element) => element,
        None => unreachable!(),
    }
}

/// A value of a table.
#[inline]
fn cell(table: &Values, p: usize) -> B128
    requires { p < length table.now }
    ensures { result ≡ get_or table.now p 0 }
{
    table.as_slice()[p]
}

/// The value at `k` of a cell that is `low` at 0 and `high` at 1.
fn cell_at(low: B128, high: B128, k: u8) -> B128
    ensures { result ≡ bit_xor low (mul k (bit_xor low high)) }
{
    match k {
        0 => low,
        1 => high,
        _ => low + times_byte(low + high, point(k)),
    }
}

/// The values of the tables at `p` once their lowest variable is set to `k`.
fn fill_row(tables: &[Values], half: usize, p: usize, k: u8, row: &mut Vec<B128>)
    requires long { AllLong (2 * half) tables.now }
    requires small { half < 2 ^ 33 }
    requires within { p < half }
    requires room { length tables.now ≤ vec_capacity row.old }
    ensures row { row.new.items ≡ row_at k tables.now p }
    ensures capacity { vec_capacity row.old ≤ vec_capacity row.new }
{
    row.clear();
    for table in tables {
        if row
            .push(cell_at(cell(table, 2 * p), cell(table, 2 * p + 1), k))
            .is_err()
        {
            unreachable!();
        }
    }
}

/// Adds to sum k the value of the form at `p` once the lowest variable is set to k.
fn add_position<S: Summand>(
    summand: &S,
    tables: &[Values],
    half: usize,
    p: usize,
    sums: &mut Vec<B128>,
    row: &mut Vec<B128>,
)
    requires long { AllLong (2 * half) tables.now }
    requires small { half < 2 ^ 33 }
    requires within { p < half }
    requires suits { S.suits summand.now (length tables.now) }
    requires room { length tables.now ≤ vec_capacity row.old }
    requires few { length sums.old.items < 256 }
    ensures sums { sums.new.items ≡ tabulate (length sums.old.items) (λ k. bit_xor (value (S.form summand.now) (row_at k tables.now p)) (get_or sums.old.items k 0)) }
    ensures capacity { vec_capacity row.old ≤ vec_capacity row.new }
{
    for k in 0..sums.len() {
        fill_row(tables, half, p, k as u8, row);
        sums[k] = summand.value_at(row.as_slice()) + sums[k];
    }
}

/// Sets all values to 0.
fn clear_cells(cells: &mut Vec<B128>)
    ensures { cells.new.items ≡ tabulate (length cells.old.items) (λ k. 0) }
{
    for k in 0..cells.len() {
        cells[k] = B128::ZERO;
    }
}

/// For each k the sum of the form over all positions once the lowest variable is set to k, in one
/// pass over the tables.
pub fn sum_positions<S: Summand>(
    summand: &S,
    tables: &[Values],
    half: usize,
    sums: &mut Vec<B128>,
    row: &mut Vec<B128>,
)
    requires long { AllLong (2 * half) tables.now }
    requires small { half < 2 ^ 33 }
    requires suits { S.suits summand.now (length tables.now) }
    requires room { length tables.now ≤ vec_capacity row.old }
    requires few { length sums.old.items < 256 }
    ensures sums { sums.new.items ≡ tabulate (length sums.old.items) (λ k. sum_to half (λ p. value (S.form summand.now) (row_at k tables.now p))) }
    ensures len { length sums.new.items ≡ length sums.old.items }
    ensures capacity { vec_capacity row.old ≤ vec_capacity row.new }
{
    clear_cells(sums);
    for p in 0..half {
        add_position(summand, tables, half, p, sums, row);
    }
}

/// Makes the multiples of `r`, where tables of that many pairs are folded by them.
pub fn prepare(multiples: &mut Option<Multiples>, half: usize, r: B128)
    ensures { MANY ≤ half → IfSome multiples.new (λ m. m ≡ r) }
{
    if half >= MANY {
        if let Some(multiples) = multiples {
            multiples.set(r);
        }
    }
}

/// Sets the lowest variable of a table to `r`, in its memory.
fn fold_table(
    alloc: Global,
    table: &mut Values,
    half: usize,
    r: B128,
    multiples: &Option<Multiples>,
)
    requires some { 0 < half }
    requires long { length table.old ≡ 2 * half }
    requires prepared { MANY ≤ half → IfSome multiples.now (λ m. m ≡ r) }
    ensures { table.new ≡ fold_low r table.old }
{
    let mut cells = std::mem::replace(table, Values::new(alloc)).into_vec();
    match multiples {
        Some(multiples) if half >= MANY => multiples.fold_low(&mut cells),
        _ => fold_low(&mut cells, r),
    }
    *table = Values::from_vec(cells);
}

/// Sets the lowest variable of all tables to `r`.
fn fold_slice(
    alloc: Global,
    tables: &mut [Values],
    half: usize,
    r: B128,
    multiples: &Option<Multiples>,
)
    requires some { 0 < half }
    requires long { AllLong (2 * half) tables.old }
    requires prepared { MANY ≤ half → IfSome multiples.now (λ m. m ≡ r) }
    ensures { tables.new ≡ map (fold_low r) tables.old }
{
    for i in 0..tables.len() {
        fold_table(alloc, &mut tables[i], half, r, multiples);
    }
}

/// Sets the lowest variable of all tables to `r`.
pub fn fold_tables(
    alloc: Global,
    tables: &mut Vec<Values>,
    half: usize,
    r: B128,
    multiples: &Option<Multiples>,
)
    requires some { 0 < half }
    requires long { AllLong (2 * half) tables.old.items }
    requires prepared { MANY ≤ half → IfSome multiples.now (λ m. m ≡ r) }
    ensures { tables.new.items ≡ map (fold_low r) tables.old.items }
{
    fold_slice(alloc, tables.as_mut_slice(), half, r, multiples);
}

/// The first values of the tables.
pub fn fill_firsts(tables: &[Values], firsts: &mut Vec<B128>)
    requires long { AllLong 1 tables.now }
    requires room { length tables.now ≤ vec_capacity firsts.old }
    ensures row { firsts.new.items ≡ row tables.now 0 }
    ensures capacity { vec_capacity firsts.old ≤ vec_capacity firsts.new }
{
    firsts.clear();
    for table in tables {
        if firsts.push(cell(table, 0)).is_err() {
            unreachable!();
        }
    }
}

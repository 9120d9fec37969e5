//! What the tests of all reductions are given.

ghost use Rattle.std.specs.Prelude.{◌≡◌, ℕ, ◌≤◌, ◌^◌, ◌++◌, IfOk, IsTrue, length, slice_index};
ghost use Rattle.cube_laws.specs.Extension.{bit};
ghost use Rattle.cube_laws.specs.Sums.{tabulate};
ghost use Rattle.table_shape.specs.Limits.{max_rows};
ghost use Rattle.tensor_laws.specs.Tensor.{bits_of_table};

use cube_mle::mle_at;
use std::alloc::{AllocError, Global};
use std::test::Fail;
use sumcheck::{ColumnClaim, ColumnTables};
use table_shape::{MAX_ROWS, Shape, resolve};
use table_text::read_tables;
use tower_field::{B128, Tower};

/// There is no memory left, or a test is given more than it takes.
#[derive(Clone, Copy, PartialEq, Eq, Debug)]
pub struct Lack;

impl From<AllocError> for Lack {
    fn from(_: AllocError) -> Lack {
        Lack
    }
}

impl From<channel_products::NoMemory> for Lack {
    fn from(_: channel_products::NoMemory) -> Lack {
        Lack
    }
}

impl From<cube_mle::NoMemory> for Lack {
    fn from(_: cube_mle::NoMemory) -> Lack {
        Lack
    }
}

impl From<eval_reduce::NoMemory> for Lack {
    fn from(_: eval_reduce::NoMemory) -> Lack {
        Lack
    }
}

impl From<ring_switch::NoMemory> for Lack {
    fn from(_: ring_switch::NoMemory) -> Lack {
        Lack
    }
}

impl From<sumcheck::NoMemory> for Lack {
    fn from(_: sumcheck::NoMemory) -> Lack {
        Lack
    }
}

impl From<zerocheck::NoMemory> for Lack {
    fn from(_: zerocheck::NoMemory) -> Lack {
        Lack
    }
}

pub fn element(n: u64) -> B128
    ensures { result ≡ n }
{
    B128::join(n as u128, 0)
}

/// A list of elements.
pub fn elements(alloc: Global, numbers: &[u64]) -> Result<Vec<B128>, Lack> {
    let mut values = Vec::new(alloc);
    for n in numbers {
        if values.push(element(*n)).is_err() {
            return Err(Lack);
        }
    }
    Ok(values)
}

/// The element of a number of 128 bits.
pub fn word(n: u128) -> B128
    ensures { result ≡ n }
{
    match B128::from_number(n) {
        Some(word) => word,
        None => unreachable!(),
    }
}

/// A list of such elements.
pub fn words(alloc: Global, numbers: &[u128]) -> Result<Vec<B128>, AllocError> {
    let mut values = Vec::new(alloc);
    for n in numbers {
        values.push(word(*n))?;
    }
    Ok(values)
}

/// Appends the bits of a value, the lowest first.
fn push_value(level: u32, value: B128, bits: &mut Vec<B128>) -> Result<(), AllocError>
    requires { level ≤ 7 }
    ensures { IfOk result (λ _. bits.new.items ≡ bits.old.items ++ tabulate (2 ^ level) (bit value)) }
{
    let number = value.number();
    for u in 0..1u32 << level {
        bits.push(element(((number >> u) % 2) as u64))?;
    }
    Ok(())
}

/// Appends the bits of values, `2 ^ level` of each.
pub fn push_bits(level: u32, values: &[B128], bits: &mut Vec<B128>) -> Result<(), AllocError>
    requires { level ≤ 7 }
    ensures { IfOk result (λ _. bits.new.items ≡ bits.old.items ++ bits_of_table (2 ^ level) values.now) }
{
    for value in values {
        push_value(level, *value, bits)?;
    }
    Ok(())
}

/// The extension of a table at a point, where both fit together.
pub fn value_at(alloc: Global, table: &[B128], point: &[B128]) -> Result<B128, Lack> {
    if point.len() > 24 || table.len() != 1 << point.len() {
        return Err(Lack);
    }
    Ok(mle_at(alloc, table, point)?)
}

/// The shape of a text.
pub fn shape_of(alloc: Global, text: &[u8]) -> Result<Shape, Fail> {
    if text.len() > 10000 {
        return Err(Fail::from(Lack));
    }
    Ok(resolve(alloc, &read_tables(alloc, text)?)?)
}

/// Whether no table has more rows than it may have.
fn are_few(rows: &[u32]) -> bool
    ensures { IsTrue result → (t : ℕ) → slice_index rows.now t ≤ max_rows }
{
    for n in rows {
        if *n > MAX_ROWS {
            return false;
        }
    }
    true
}

/// Whether each table has a number of rows, and none too many.
pub fn rows_fit(shape: &Shape, rows: &[u32]) -> bool
    ensures counts { IsTrue result → length rows.now ≡ length shape.now.tables }
    ensures few { IsTrue result → (t : ℕ) → slice_index rows.now t ≤ max_rows }
{
    rows.len() == shape.tables().len() && are_few(rows)
}

/// Adds the list of a column that has none yet.
pub fn add_list(
    table: u32,
    column: u32,
    list: Vec<B128>,
    tables: &mut ColumnTables,
) -> Result<(), Lack> {
    if tables.get(table, column).is_some() {
        return Err(Lack);
    }
    tables.add(table, column, list)?;
    Ok(())
}

/// Adds lists of elements for the first columns of a table.
fn add_lists(
    alloc: Global,
    table: u32,
    lists: &[&[u64]],
    tables: &mut ColumnTables,
) -> Result<(), Lack> {
    for c in 0..lists.len().min(256) {
        add_list(table, c as u32, elements(alloc, lists[c])?, tables)?;
    }
    Ok(())
}

/// Lists of elements for the first columns of each table.
pub fn given_tables(alloc: Global, lists: &[&[&[u64]]]) -> Result<ColumnTables, Lack> {
    let mut tables = ColumnTables::new(alloc);
    for t in 0..lists.len().min(64) {
        add_lists(alloc, t as u32, lists[t], &mut tables)?;
    }
    Ok(tables)
}

/// Lists of elements for the first columns of the first table.
pub fn given_lists(alloc: Global, lists: &[&[u64]]) -> Result<ColumnTables, Lack> {
    let mut tables = ColumnTables::new(alloc);
    add_lists(alloc, 0, lists, &mut tables)?;
    Ok(tables)
}

/// The value of a prover's claim, where it is the walk's.
pub fn agreed(own: &ColumnClaim, left: &ColumnClaim) -> Option<u128> {
    if own.table != left.table
        || own.column != left.column
        || own.point.as_slice() != left.point.as_slice()
        || own.value != left.value
    {
        return None;
    }
    Some(own.value.number())
}

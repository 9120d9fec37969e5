//! Lists of committed columns, the table of their bits, and claims on them.

ghost use Rattle.std.specs.Prelude.{◌≡◌, ◌≤◌, ◌^◌, ◌++◌, length, map, IfOk};
ghost use Rattle.std.specs.List.{AllByRecursion};
ghost use Rattle.cube_laws.specs.Sums.{tabulate};
ghost use Rattle.tensor_laws.specs.Tensor.{bits_of_table};
ghost use Rattle.table_shape.specs.Limits.{max_size_log};
ghost use Rattle.table_shape.specs.Placement.{bits_taken, places_log};
ghost use Rattle.zerocheck.specs.Given.{table_of};
ghost use Rattle.bit_claim.specs.Bits.{bits, column_bits, IsPlaced};
ghost use Rattle.bit_claim.specs.Placement.{seen};

use bit_claim::{Block, Placement};
use reduction_inputs::{Lack, add_list, element, push_bits, value_at, words};
use std::alloc::{AllocError, Global};
use sumcheck::{ColumnClaim, ColumnTables};
use tower_field::{B128, Tower, Values};

/// The values of a column of a table.
#[derive(Clone, Copy)]
pub struct Column<'a> {
    pub table: u32,
    pub column: u32,
    pub values: &'a [u128],
}

/// A claim on a column at the point from a coordinate on, whose value is off by `error`.
#[derive(Clone, Copy)]
pub struct Claimed {
    pub table: u32,
    pub column: u32,
    pub first: u32,
    pub error: u64,
}

/// The lists of columns.
pub fn lists_of(alloc: Global, columns: &[Column<'_>]) -> Result<ColumnTables, Lack> {
    let mut lists = ColumnTables::new(alloc);
    for column in columns {
        let values = words(alloc, column.values)?;
        add_list(column.table, column.column, values, &mut lists)?;
    }
    Ok(lists)
}

/// Appends the bits of a block's column.
fn push_block(block: Block, lists: &ColumnTables, table: &mut Vec<B128>) -> Result<(), Lack>
    ensures { IfOk result (λ _. table.new.items ≡ table.old.items ++ bits_of_table (2 ^ block.level) (table_of lists.now block.table block.column)) }
{
    let Some(values) = lists.get(block.table, block.column) else {
        return Err(Lack);
    };
    if block.level > 7 {
        return Err(Lack);
    }
    push_bits(block.level, values, table)?;
    Ok(())
}

/// Appends the bits of the columns of blocks.
fn push_blocks(blocks: &[Block], lists: &ColumnTables, table: &mut Vec<B128>) -> Result<(), Lack>
    ensures { IfOk result (λ _. table.new.items ≡ table.old.items ++ column_bits (table_of lists.now) (map seen blocks.now)) }
{
    for block in blocks {
        push_block(*block, lists, table)?;
    }
    Ok(())
}

/// Appends zeros.
fn push_zeros(count: u64, table: &mut Vec<B128>) -> Result<(), AllocError>
    ensures { IfOk result (λ _. table.new.items ≡ table.old.items ++ tabulate count (λ _. 0)) }
{
    for _ in 0..count {
        table.push(B128::ZERO)?;
    }
    Ok(())
}

/// How many bits blocks take.
fn bits_taken(blocks: &[Block]) -> u64
    requires { bits_taken (map seen blocks.now) ≤ 2 ^ max_size_log }
    ensures { result ≡ bits_taken (map seen blocks.now) }
{
    let mut bits = 0;
    for block in blocks {
        bits += 1u64 << block.log_bits;
    }
    bits
}

/// The table of the bits of columns, where the lists fill all blocks.
pub fn table_of_bits(
    alloc: Global,
    placement: &Placement,
    lists: &ColumnTables,
) -> Result<Vec<B128>, Lack>
    ensures bits { IfOk result (λ table. table.items ≡ bits (table_of lists.now) placement.now) }
    ensures whole { IfOk result (λ table. length table.items ≡ 2 ^ places_log placement.now) }
{
    let blocks = placement.blocks();
    let mut table = Vec::new(alloc);
    push_blocks(blocks, lists, &mut table)?;
    let log = placement.log_bits();
    if log > 24 {
        return Err(Lack);
    }
    let places = 1u64 << log;
    push_zeros(places.saturating_sub(bits_taken(blocks)), &mut table)?;
    if table.len() as u64 != places {
        return Err(Lack);
    }
    Ok(table)
}

/// The coordinates from a number on.
fn coordinates(alloc: Global, first: u32, count: u32) -> Result<Values, Lack>
    ensures { IfOk result (λ point. length point ≡ count) }
{
    let mut point = Values::new(alloc);
    for k in 0..count {
        if point
            .push(element(u64::from(first) + u64::from(k)))
            .is_err()
        {
            return Err(Lack);
        }
    }
    Ok(point)
}

/// A claim on a committed column that has a list.
fn claim(
    alloc: Global,
    placement: &Placement,
    lists: &ColumnTables,
    told: Claimed,
) -> Result<ColumnClaim, Lack>
    ensures { IfOk result (IsPlaced placement.now) }
{
    let Some(values) = lists.get(told.table, told.column) else {
        return Err(Lack);
    };
    let Some(block) = placement.block_in(told.table, told.column) else {
        return Err(Lack);
    };
    if block.log_bits < block.level {
        return Err(Lack);
    }
    let point = coordinates(alloc, told.first, block.log_bits - block.level)?;
    let value = value_at(alloc, values, point.as_slice())?;
    Ok(ColumnClaim {
        table: told.table,
        column: told.column,
        point,
        value: value + element(told.error),
    })
}

/// Claims on columns, at most 100.
pub fn claims_on(
    alloc: Global,
    placement: &Placement,
    lists: &ColumnTables,
    told: &[Claimed],
) -> Result<Vec<ColumnClaim>, Lack>
    ensures few { IfOk result (λ claims. length claims.items ≤ 100) }
    ensures placed { IfOk result (λ claims. AllByRecursion (IsPlaced placement.now) claims.items) }
{
    let mut claims = Vec::new(alloc);
    for k in 0..told.len().min(100) {
        if claims
            .push(claim(alloc, placement, lists, told[k])?)
            .is_err()
        {
            return Err(Lack);
        }
    }
    Ok(claims)
}

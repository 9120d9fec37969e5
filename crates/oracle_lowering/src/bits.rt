//! The bits of the committed columns, by their place in one table.

ghost use Rattle.std.specs.Prelude.{◌≡◌, ℕ, ◌+◌, ◌-◌, ◌*◌, ◌^◌, ◌<◌, ◌≤◌, length, map, take, drop, slice_get, slice_index, Some};
ghost use Rattle.tensor_laws.specs.Tensor.{bits_of_table, from_bits};
ghost use Rattle.shift_laws.specs.Shifts.{flag};
ghost use Rattle.table_shape.specs.Limits.{max_size_log};
ghost use Rattle.table_shape.specs.Oracle.{bit_table, block_bits, word_at};
ghost use Rattle.table_shape.specs.Placement.{Block as Placed, bits_taken, blocks, places_log};
ghost use Rattle.bit_claim.specs.Placement.{seen};
ghost use Rattle.column_store.specs.Column.{list_of, lists};

use bit_claim::{Block, Placement};
use column_store::{Column, Store};

/// The value of a column at a position, and 0 where there is none.
fn value_at(columns: &[Column], column: u32, position: u64) -> u128
    ensures { result ≡ slice_index (list_of (lists columns.now) column) position }
{
    match columns.get(column as usize) {
        Some(column) => column.get(position as usize),
        None => 0,
    }
}

/// The bit at a place of a column's bits.
fn column_bit(columns: &[Column], block: &Block, place: u64) -> bool
    requires { block.now.level ≤ 7 }
    ensures { flag result ≡ slice_index (bits_of_table (2 ^ block.now.level) (list_of (lists columns.now) block.now.column)) place }
{
    let width = 1u64 << block.level;
    value_at(columns, block.column, place / width) >> (place % width) as u32 & 1 == 1
}

/// The number of the bits of as many values of a column, from the first on.
fn column_word(columns: &[Column], block: &Block, first: u64, count: u64) -> u128
    requires is_a_level { block.now.level ≤ 7 }
    requires room { count * 2 ^ block.now.level ≤ 128 }
    requires small { first < 2 ^ 57 }
    requires fits { (p : ℕ) → slice_index (list_of (lists columns.now) block.now.column) p < 2 ^ (2 ^ block.now.level) }
    ensures value { result ≡ from_bits (take (count * 2 ^ block.now.level) (drop (first * 2 ^ block.now.level) (bits_of_table (2 ^ block.now.level) (list_of (lists columns.now) block.now.column)))) }
    ensures fits { result < 2 ^ (count * 2 ^ block.now.level) }
{
    let width = 1u64 << block.level;
    let mut number = 0;
    for k in 0..count {
        number += value_at(columns, block.column, first + k) << (k * width) as u32;
    }
    number
}

/// A place in a block of a list, or past all.
#[derive(Clone, Copy)]
struct Spot {
    block: usize,
    place: u64,
}

/// Where a place of the table of bits stands.
fn spot_of(blocks: &[Block], place: u64) -> Spot
    requires { bits_taken (map seen blocks.now) ≤ 2 ^ max_size_log }
    ensures stands { bits_taken (take result.block (map seen blocks.now)) + result.place ≡ place }
    ensures within { (b : Placed) → slice_get (map seen blocks.now) result.block ≡ Some b → result.place < 2 ^ b.log_bits }
{
    let mut rest = place;
    for (k, block) in blocks.iter().enumerate() {
        let size = 1u64 << block.log_bits;
        if rest < size {
            return Spot {
                block: k,
                place: rest,
            };
        }
        rest -= size;
    }
    Spot {
        block: blocks.len(),
        place: rest,
    }
}

/// The bit at a place of the table of bits, and 0 past the table.
pub(crate) fn bit_at(store: &Store, placement: &Placement, place: u64) -> bool
    requires { placement.now ≡ blocks store.now.shape.tables store.now.rows }
    ensures { flag result ≡ slice_index (bit_table store.now.shape.tables store.now.rows store.now.filling) place }
{
    let blocks = placement.blocks();
    let spot = spot_of(blocks, place);
    let _rows = store.rows();
    let _tables = store.shape().tables();
    match blocks.get(spot.block) {
        Some(block) => column_bit(store.columns(block.table), block, spot.place),
        None => false,
    }
}

/// The number of the 128 bits of a word of the packed table: a part of one block, or whole blocks,
/// since each begins at a multiple of its own size.
pub(crate) fn word_at(store: &Store, placement: &Placement, word: u64) -> u128
    requires own { placement.now ≡ blocks store.now.shape.tables store.now.rows }
    requires small { word < 2 ^ (places_log (blocks store.now.shape.tables store.now.rows) - 7) }
    ensures { result ≡ word_at (bit_table store.now.shape.tables store.now.rows store.now.filling) word }
{
    let blocks = placement.blocks();
    let spot = spot_of(blocks, 128 * word);
    let _rows = store.rows();
    let _tables = store.shape().tables();
    match blocks.get(spot.block) {
        Some(block) if block.log_bits >= 7 => {
            let columns = store.columns(block.table);
            column_word(
                columns,
                block,
                spot.place >> block.level,
                128 >> block.level,
            )
        }
        Some(_) => word_of_blocks(store, placement, spot.block),
        None => 0,
    }
}

/// The number of the 128 bits from a block on that has fewer.
fn word_of_blocks(store: &Store, placement: &Placement, first: usize) -> u128
    requires own { placement.now ≡ blocks store.now.shape.tables store.now.rows }
    requires within { first < length placement.now }
    requires small { (b : Placed) → slice_get placement.now first ≡ Some b → b.log_bits < 7 }
    ensures { result ≡ from_bits (take 128 (drop (bits_taken (take first placement.now)) (block_bits store.now.filling placement.now))) }
{
    let blocks = placement.blocks();
    let _rows = store.rows();
    let _tables = store.shape().tables();
    let mut number = 0;
    let mut taken = 0u32;
    for block in &blocks[first..] {
        if taken == 128 {
            return number;
        }
        let columns = store.columns(block.table);
        number += column_word(columns, block, 0, 1 << (block.log_bits - block.level)) << taken;
        taken += 1 << block.log_bits;
    }
    number
}

//! How many challenges may hide that a channel is out of balance.

ghost use Rattle.std.specs.Prelude.{◌≡◌, ℕ, ◌≤◌, ◌+◌, ◌*◌, ◌-◌, ◌^◌, max, length, slice_index};
ghost use Rattle.std.specs.List.{filter};
ghost use Rattle.table_text.specs.declared.decl.Side.TheVariants.{Push, Pull};
ghost use Rattle.table_shape.specs.Channels.{is_boundary_of, is_flush_of};
ghost use Rattle.table_shape.specs.Counts.{alpha_count, flush_rows, gamma_count, most_tuples};
ghost use Rattle.table_shape.specs.Limits.{max_flushes, max_rows};

use crate::sides::{is_boundary_of, is_flush_of};
use table_shape::{BoundaryShape, FlushShape, Shape, TableShape};
use table_text::Side;

/// How many flushes are of this side of this channel.
fn flush_count(side: Side, channel: u32, flushes: &[FlushShape]) -> u64
    requires { length flushes.now ≤ max_flushes }
    ensures count { result ≡ length (filter (is_flush_of side channel) flushes.now) }
    ensures few { result ≤ max_flushes }
{
    let mut count = 0;
    for flush in flushes {
        if is_flush_of(side, channel, flush) {
            count += 1;
        }
    }
    count
}

/// How many boundaries are of this side of this channel.
fn boundary_count(side: Side, channel: u32, boundaries: &[BoundaryShape]) -> u64
    requires { length boundaries.now ≤ 4096 }
    ensures count { result ≡ length (filter (is_boundary_of side channel) boundaries.now) }
    ensures few { result ≤ 4096 }
{
    let mut count = 0;
    for boundary in boundaries {
        if is_boundary_of(side, channel, boundary) {
            count += 1;
        }
    }
    count
}

/// The rows of all flushes of this side of this channel, taken or not.
fn flush_rows(side: Side, channel: u32, shape: &Shape, rows: &[u32]) -> u64
    requires counts { length rows.now ≡ length shape.now.tables }
    requires few { (t : ℕ) → slice_index rows.now t ≤ max_rows }
    ensures rows { result ≡ flush_rows side channel rows.now 0 shape.now.tables }
    ensures few { result ≤ 2 ^ 32 }
{
    let mut total = 0;
    for (t, table) in shape.tables().iter().enumerate() {
        total += flush_count(side, channel, table.flushes.as_slice()) * u64::from(rows[t]);
    }
    total
}

/// With its boundaries, as many tuples as there may be.
fn most_tuples(side: Side, shape: &Shape, rows: &[u32], channel: u32) -> u64
    requires counts { length rows.now ≡ length shape.now.tables }
    requires few { (t : ℕ) → slice_index rows.now t ≤ max_rows }
    ensures tuples { result ≡ most_tuples side shape.now rows.now channel }
    ensures few { result ≤ 2 ^ 33 }
{
    flush_rows(side, channel, shape, rows) + boundary_count(side, channel, shape.boundaries())
}

/// The most alphas that may hide that a channel is out of balance: for each tuple its width less 1.
fn channel_alphas(shape: &Shape, rows: &[u32], channel: u32, width: u32) -> u64
    requires counts { length rows.now ≡ length shape.now.tables }
    requires few { (t : ℕ) → slice_index rows.now t ≤ max_rows }
    requires wide { 1 ≤ width }
    requires narrow { width ≤ 16 }
    ensures { result ≡ (most_tuples Push shape.now rows.now channel + most_tuples Pull shape.now rows.now channel) * (width - 1) }
{
    let pushed = most_tuples(Side::Push, shape, rows, channel);
    let pulled = most_tuples(Side::Pull, shape, rows, channel);
    (pushed + pulled) * u64::from(width - 1)
}

/// The most gammas that may hide that the sums of a channel differ: the tuples of the side that has
/// more.
fn channel_gammas(shape: &Shape, rows: &[u32], channel: u32) -> u64
    requires counts { length rows.now ≡ length shape.now.tables }
    requires few { (t : ℕ) → slice_index rows.now t ≤ max_rows }
    ensures { result ≡ max (most_tuples Push shape.now rows.now channel) (most_tuples Pull shape.now rows.now channel) }
{
    let pushed = most_tuples(Side::Push, shape, rows, channel);
    let pulled = most_tuples(Side::Pull, shape, rows, channel);
    pushed.max(pulled)
}

/// The most alphas that may hide that some channel is out of balance.
pub fn alpha_count(shape: &Shape, rows: &[u32]) -> u64
    requires counts { length rows.now ≡ length shape.now.tables }
    requires few { (t : ℕ) → slice_index rows.now t ≤ max_rows }
    ensures { result ≡ alpha_count shape.now rows.now }
{
    let mut greatest = 0;
    for (c, channel) in shape.channels().iter().enumerate() {
        greatest = channel_alphas(shape, rows, c as u32, channel.width).max(greatest);
    }
    greatest
}

/// The most gammas that may hide that the sums of some channel differ.
pub fn gamma_count(shape: &Shape, rows: &[u32]) -> u64
    requires counts { length rows.now ≡ length shape.now.tables }
    requires few { (t : ℕ) → slice_index rows.now t ≤ max_rows }
    ensures { result ≡ gamma_count shape.now rows.now }
{
    let mut greatest = 0;
    for c in 0..shape.channels().len() {
        greatest = channel_gammas(shape, rows, c as u32).max(greatest);
    }
    greatest
}

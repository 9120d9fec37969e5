//! Claims that are pending.

use crate::column_claim::ColumnClaim;
use tower_field::B128;

/// Which sum a sum or round claim is about. In `Shift` the column is the virtual one.
#[derive(Clone, Copy)]
pub enum SumOf<'a> {
    Layer {
        table: u32,
        flush: u32,
        alpha: B128,
        gamma: B128,
        layer: u32,
        point: &'a [B128],
    },
    Leaf {
        table: u32,
        flush: u32,
        alpha: B128,
        gamma: B128,
        point: &'a [B128],
    },
    Zero {
        table: u32,
        log_values: u32,
        beta: B128,
        point: &'a [B128],
    },
    Merge {
        claims: &'a [ColumnClaim],
        mu: B128,
    },
    Shift {
        table: u32,
        column: u32,
        point: &'a [B128],
    },
    Bits {
        claims: &'a [ColumnClaim],
        lambda: B128,
    },
    Switch {
        high: &'a [B128],
        combine: &'a [B128],
    },
}

/// A claim that is pending. `prefix` holds the draws by which lowest variables are set already.
#[derive(Clone, Copy)]
pub enum Pending<'a> {
    Balance,
    Collapsed {
        alpha: B128,
    },
    Products {
        alpha: B128,
        gamma: B128,
    },
    FlushProduct {
        table: u32,
        flush: u32,
        alpha: B128,
        gamma: B128,
        value: B128,
    },
    LayerPair {
        table: u32,
        flush: u32,
        alpha: B128,
        gamma: B128,
        layer: u32,
        point: &'a [B128],
        low: B128,
        high: B128,
    },
    Group {
        table: u32,
        log_values: u32,
    },
    ZeroVector {
        table: u32,
        log_values: u32,
        beta: B128,
        prefix: &'a [B128],
    },
    Sum {
        terms: SumOf<'a>,
        prefix: &'a [B128],
        value: B128,
    },
    Round {
        terms: SumOf<'a>,
        prefix: &'a [B128],
        values: &'a [B128],
    },
    Column {
        claim: &'a ColumnClaim,
    },
    ColumnList {
        table: u32,
        column: u32,
        point: &'a [B128],
        prefix: &'a [B128],
        values: &'a [B128],
    },
    Bit {
        point: &'a [B128],
        value: B128,
    },
    Rows {
        high: &'a [B128],
        prefix: &'a [B128],
        values: &'a [B128],
    },
    Packed {
        point: &'a [B128],
        value: B128,
    },
}

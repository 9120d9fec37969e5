//! Declarations, in the order of the text.

use crate::expr::{Expr, Name, Names};
use sqlite_items::Items;

/// Whether tuples go into a channel or come out of it.
#[derive(Clone, Copy, Debug, PartialEq, Eq)]
pub enum Side {
    Push,
    Pull,
}

pub type Numbers = Items<u128>;

/// A coefficient and the column that it multiplies.
#[derive(Debug, Drop)]
pub struct Term {
    pub coefficient: u128,
    pub column: Name,
}

pub type Terms = Items<Term>;

/// How a virtual column comes from others.
#[derive(Debug, Drop)]
pub enum VirtualForm {
    Shl {
        column: Name,
        block: u128,
        offset: u128,
    },
    Shr {
        column: Name,
        block: u128,
        offset: u128,
    },
    Rol {
        column: Name,
        block: u128,
        offset: u128,
    },
    Pack {
        column: Name,
        log: u128,
    },
    Project {
        column: Name,
        log: u128,
        index: u128,
    },
    Linear {
        constant: u128,
        terms: Terms,
    },
}

/// What a table has.
#[derive(Debug, Drop)]
pub enum Item {
    /// A committed column of `2 ^ log_values` values per row, each of `2 ^ level` bits.
    Column {
        name: Name,
        level: u32,
        log_values: u32,
    },
    Virtual {
        name: Name,
        form: VirtualForm,
    },
    Zero {
        name: Name,
        expr: Expr,
    },
    Flush {
        side: Side,
        channel: Name,
        columns: Names,
        selector: Option<Name>,
    },
}

pub type TableItems = Items<Item>;

#[derive(Debug, Drop)]
pub enum Decl {
    Channel {
        name: Name,
        width: u128,
    },
    Boundary {
        side: Side,
        channel: Name,
        values: Numbers,
    },
    Table {
        name: Name,
        items: TableItems,
    },
}

pub type Decls = Items<Decl>;

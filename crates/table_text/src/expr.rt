//! Names and expressions.

use sqlite_items::Items;

/// The bytes of a name.
pub type Name = Items<u8>;

pub type Names = Items<Name>;

/// An expression over the columns of a table.
#[derive(Debug, Drop)]
pub enum Expr {
    Number(u128),
    Column(Name),
    /// At least two terms.
    Sum(Items<Expr>),
    /// At least two factors.
    Product(Items<Expr>),
}

pub type Exprs = Items<Expr>;

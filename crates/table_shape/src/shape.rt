//! The shape of tables: what each has, with numbers in place of names.

ghost use Rattle.std.specs.Prelude.{◌≡◌, IfOk, IsSome, Some};

use crate::copying::{copied_boundaries, copied_channels, copied_tables};
use crate::no_memory::NoMemory;
use sqlite_items::Items;
use std::alloc::Global;
use std::marker::Model;
use table_text::{Name, Side};
use tower_field::{B128, Values};

/// A channel of tuples of `width` numbers.
#[derive(Debug, Drop)]
pub struct ChannelShape {
    pub name: Name,
    pub width: u32,
}

pub type ChannelShapes = Items<ChannelShape>;

/// A tuple that goes into a channel or comes out of it once.
#[derive(Debug, Drop)]
pub struct BoundaryShape {
    pub side: Side,
    pub channel: u32,
    pub values: Values,
}

pub type BoundaryShapes = Items<BoundaryShape>;

/// A coefficient and the number of the column that it multiplies.
#[derive(Debug, Drop)]
pub struct ShapeTerm {
    pub coefficient: B128,
    pub column: u32,
}

pub type ShapeTerms = Items<ShapeTerm>;

/// How a virtual column comes from columns that stand before it in its table.
#[derive(Debug, Drop)]
pub enum ShapeForm {
    /// Up by `offset` within blocks of `2 ^ block` values, with zeros below.
    Shl {
        column: u32,
        block: u32,
        offset: u32,
    },
    /// Down by `offset` within blocks of `2 ^ block` values, with zeros above.
    Shr {
        column: u32,
        block: u32,
        offset: u32,
    },
    /// Up by `offset` within blocks of `2 ^ block` values, the highest coming in below.
    Rol {
        column: u32,
        block: u32,
        offset: u32,
    },
    /// Each `2 ^ log` values as one, the first in the lowest bits.
    Pack {
        column: u32,
        log: u32,
    },
    /// Of each `2 ^ log` values the one of this index.
    Project {
        column: u32,
        log: u32,
        index: u32,
    },
    /// A constant plus the sum of the terms.
    Linear {
        constant: B128,
        terms: ShapeTerms,
    },
}

/// Where a column's values come from: the witness, or other columns.
#[derive(Debug, Drop)]
pub enum ColumnKind {
    Committed,
    Virtual(ShapeForm),
}

/// A column of `2 ^ log_values` values per row, each of `2 ^ level` bits.
#[derive(Debug, Drop)]
pub struct ColumnShape {
    pub name: Name,
    pub level: u32,
    pub log_values: u32,
    pub kind: ColumnKind,
}

pub type ColumnShapes = Items<ColumnShape>;

/// An expression over numbered columns.
#[derive(Debug, Drop)]
pub enum ShapeExpr {
    Number(B128),
    Column(u32),
    Sum(Items<ShapeExpr>),
    Product(Items<ShapeExpr>),
}

pub type ShapeExprs = Items<ShapeExpr>;

/// An expression that is to be 0 at each row and each of `2 ^ log_values` indices.
#[derive(Debug, Drop)]
pub struct ConstraintShape {
    pub name: Name,
    pub log_values: u32,
    pub degree: u32,
    pub expr: ShapeExpr,
}

pub type ConstraintShapes = Items<ConstraintShape>;

/// The numbers of columns.
pub type Numbers32 = Items<u32>;

/// The tuples of these columns that go into a channel or come out of it, one of each row whose
/// selector is 1, or of each row where there is no selector.
#[derive(Debug, Drop)]
pub struct FlushShape {
    pub side: Side,
    pub channel: u32,
    pub columns: Numbers32,
    pub selector: Option<u32>,
}

pub type FlushShapes = Items<FlushShape>;

#[derive(Debug, Drop)]
pub struct TableShape {
    pub name: Name,
    pub columns: ColumnShapes,
    pub constraints: ConstraintShapes,
    pub flushes: FlushShapes,
}

pub type TableShapes = Items<TableShape>;

/// Channels, boundaries and tables within the limits: each constraint, each virtual column and each
/// flush over columns of its table that stand before it, with as many values per row as its kind
/// asks for, each tuple as wide as its channel, and with names that differ.
#[derive(Debug, Drop)]
pub struct Shape {
    channels: ChannelShapes,
    boundaries: BoundaryShapes,
    tables: TableShapes,
    digest: [u8; 32],
}

impl Model for Shape {
    ghost use Rattle.std.specs.Coded.{codes};
    ghost use Rattle.table_shape.specs.Parts.{ShapeParts};
    ghost use Rattle.table_shape.specs.contracts.shape.ShapeExpr as expr;

    ghost Value = { ShapeParts };

    ghost coded = { Prim.hlevel (codes, expr.the_row.coded) };

    ghost use Rattle.table_shape.specs.Fits.{ShapeFits};

    ghost view = { λ s. record { channels = s.channels; boundaries = s.boundaries; tables = s.tables; digest = s.digest } };

    ghost invariant = { λ s. ShapeFits (record { channels = s.channels; boundaries = s.boundaries; tables = s.tables; digest = s.digest }) };
}

impl Shape {
    ghost use Rattle.table_shape.specs.Fits.{ShapeFits};
    ghost use Rattle.table_shape.specs.Names.{name_of_channel, name_of_table, name_of_column, name_of_constraint};

    /// The shape of these parts.
    pub(crate) fn of(
        channels: ChannelShapes,
        boundaries: BoundaryShapes,
        tables: TableShapes,
        digest: [u8; 32],
    ) -> Shape
        requires { ShapeFits (record { channels = channels; boundaries = boundaries; tables = tables; digest = digest }) }
        ensures { result ≡ record { channels = channels; boundaries = boundaries; tables = tables; digest = digest } }
    {
        Shape {
            channels,
            boundaries,
            tables,
            digest,
        }
    }

    /// The channels, in the order of their declarations.
    pub fn channels(&self) -> &[ChannelShape]
        ensures all { result.now ≡ self.now.channels }
        ensures fits { ShapeFits self.now }
    {
        self.channels.as_slice()
    }

    /// The boundaries, in the order of their declarations.
    pub fn boundaries(&self) -> &[BoundaryShape]
        ensures all { result.now ≡ self.now.boundaries }
        ensures fits { ShapeFits self.now }
    {
        self.boundaries.as_slice()
    }

    /// The tables, in the order of their declarations.
    pub fn tables(&self) -> &[TableShape]
        ensures all { result.now ≡ self.now.tables }
        ensures fits { ShapeFits self.now }
    {
        self.tables.as_slice()
    }

    /// SHA-256 of the canonical text.
    pub fn digest(&self) -> [u8; 32]
        ensures { result ≡ self.now.digest }
    {
        self.digest
    }

    /// An equal shape, in memory of its own.
    pub fn copy(&self, alloc: Global) -> Result<Shape, NoMemory>
        ensures { IfOk result (λ copy. copy ≡ self.now) }
    {
        Ok(Shape {
            channels: copied_channels(alloc, self.channels.as_slice())?,
            boundaries: copied_boundaries(alloc, self.boundaries.as_slice())?,
            tables: copied_tables(alloc, self.tables.as_slice())?,
            digest: self.digest,
        })
    }

    /// The name of a channel.
    pub fn channel_name(&self, channel: u32) -> &Name
        requires { IsSome (name_of_channel self.now.channels channel) }
        ensures { name_of_channel self.now.channels channel ≡ Some result.now }
    {
        &self.channels()[channel as usize].name
    }

    /// The name of a table.
    pub fn table_name(&self, table: u32) -> &Name
        requires { IsSome (name_of_table self.now.tables table) }
        ensures { name_of_table self.now.tables table ≡ Some result.now }
    {
        &self.tables()[table as usize].name
    }

    /// The name of a column of a table.
    pub fn column_name(&self, table: u32, column: u32) -> &Name
        requires { IsSome (name_of_column self.now.tables table column) }
        ensures { name_of_column self.now.tables table column ≡ Some result.now }
    {
        &self.tables()[table as usize].columns.as_slice()[column as usize].name
    }

    /// The name of a constraint of a table.
    pub fn constraint_name(&self, table: u32, constraint: u32) -> &Name
        requires { IsSome (name_of_constraint self.now.tables table constraint) }
        ensures { name_of_constraint self.now.tables table constraint ≡ Some result.now }
    {
        &self.tables()[table as usize].constraints.as_slice()[constraint as usize].name
    }
}

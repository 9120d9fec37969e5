//! What may be wrong with declarations.

ghost use Rattle.std.specs.Prelude.{◌≡◌, Err};

use std::alloc::AllocError;

/// What is wrong with a declaration.
#[derive(Clone, Copy, Debug, PartialEq, Eq)]
pub enum ShapeKind {
    /// A column that no earlier declaration of the table has, or a channel that none has.
    UnknownName,
    /// A channel, a table, a column of a table or a constraint of a table of a name that an earlier
    /// one has.
    DoubleName,
    /// Packed values of more than 128 bits.
    LevelTooHigh,
    /// An expression or a sum over columns of different numbers of values per row.
    UnequalWidth,
    /// Blocks of more values than a row has.
    BlockTooLong,
    /// An offset or an index that is no place in its block.
    OffsetOutOfRange,
    /// A column twice in a sum.
    RepeatedTerm,
    /// An expression of degree above 8.
    DegreeTooHigh,
    /// A channel of width 0 or above 16, or a tuple of another number of members than its channel's
    /// width.
    TupleWidth,
    /// A column of several values per row in a tuple.
    NotOneValue,
    /// A selector of more than one bit per row.
    SelectorNotBit,
    /// A 65th channel or table, a 4,097th boundary, a 257th column or constraint of a table, a 65th
    /// flush of a table, or a 65th term of a sum.
    TooMany,
}

/// The first fault of declarations, and the number of its declaration.
#[derive(Clone, Copy, Debug, PartialEq, Eq)]
pub struct ShapeFault {
    pub item: u32,
    pub kind: ShapeKind,
}

#[derive(Clone, Copy, Debug, PartialEq, Eq)]
pub enum ShapeStop {
    Fault(ShapeFault),
    NoMemory,
}

impl From<AllocError> for ShapeStop {
    ghost use Rattle.std.specs.Prelude.{◌≡◌};
    ghost use Rattle.table_shape.specs.declared.fault.ShapeStop.TheVariants.{NoMemory};

    ghost from_gives = { λ _ stop. stop ≡ NoMemory };

    fn from(_failed: AllocError) -> ShapeStop {
        ShapeStop::NoMemory
    }
}

pub(crate) fn refused<T>(item: u32, kind: ShapeKind) -> Result<T, ShapeStop>
    ensures { result ≡ Err (ShapeStop.Fault (record { item = item; kind = kind })) }
{
    Err(ShapeStop::Fault(ShapeFault { item, kind }))
}

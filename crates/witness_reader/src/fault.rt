//! What may be wrong with a witness file.

ghost use Rattle.std.specs.Prelude.{◌≡◌};
ghost use Rattle.witness_reader.specs.declared.fault.WitnessStop.TheVariants.{NoMemory};

use std::alloc::AllocError;

/// Where a witness is faulty.
#[derive(Clone, Copy, Debug, PartialEq, Eq)]
pub enum WitnessPlace {
    Whole,
    Table(u32),
    /// A column of a table, by its number among all columns of the table.
    Column(u32, u32),
}

/// What is wrong there.
#[derive(Clone, Copy, Debug, PartialEq, Eq)]
pub enum WitnessKind {
    /// The file isn't UTF-8, or no JSON.
    NotJson,
    /// The file, or what it has for a table, is no object.
    NotAnObject,
    MissingTable,
    /// A table has no `rows`, or `rows` is no whole number from 0 to 1048576.
    BadRows,
    MissingColumn,
    /// What a table has for a column is no text.
    NotAText,
    /// An odd number of digits, or a character that is no hexadecimal digit.
    BadHex,
    /// More or fewer bytes than hold the bits of the column.
    WrongLength,
    /// A bit past those of the column is 1.
    PaddingBits,
    /// A table has another member than `rows` and its columns.
    ExtraColumn,
    /// The whole has another member than the tables.
    ExtraTable,
}

/// The first fault of a witness.
#[derive(Clone, Copy, Debug, PartialEq, Eq)]
pub struct WitnessFault {
    pub place: WitnessPlace,
    pub kind: WitnessKind,
}

#[derive(Clone, Copy, Debug, PartialEq, Eq)]
pub enum WitnessStop {
    Fault(WitnessFault),
    /// The columns take more than `2 ^ 24` bits: at most `2 ^ log_bits`.
    TooLarge { log_bits: u32 },
    NoMemory,
}

impl From<AllocError> for WitnessStop {
    ghost from_gives = { λ _ stop. stop ≡ NoMemory };

    fn from(_e: AllocError) -> WitnessStop {
        WitnessStop::NoMemory
    }
}

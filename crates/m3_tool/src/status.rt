//! How a run ends.

ghost use Rattle.std.specs.Prelude.{◌≡◌};
ghost use Rattle.m3_tool.specs.Status.{code_of};

/// How a run ends, with the number that the process ends with.
#[derive(Clone, Copy, Debug, PartialEq, Eq)]
pub enum Status {
    /// Satisfied, or the text was printed.
    Yes,
    /// The witness violates the tables.
    No,
    /// The words fit no pattern, or a count has another number of rows than there are tables.
    Words,
    /// The text of the tables or their shape is refused.
    Tables,
    /// The witness isn't one for these tables.
    Witness,
    /// A read failed.
    ReadFault,
    /// A write failed.
    WriteFault,
    /// The columns take more bits than is allowed.
    TooLarge,
    /// Out of memory.
    NoMemory,
    /// A file has more bytes than is allowed.
    TooLong,
}

impl Status {
    /// The number of this status.
    pub fn code(self) -> u8
        ensures { result ≡ code_of self }
    {
        match self {
            Status::Yes => 0,
            Status::No => 1,
            Status::Words => 2,
            Status::Tables => 3,
            Status::Witness => 4,
            Status::ReadFault => 6,
            Status::WriteFault => 7,
            Status::TooLarge => 8,
            Status::NoMemory => 9,
            Status::TooLong => 10,
        }
    }
}

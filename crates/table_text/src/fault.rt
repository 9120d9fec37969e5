//! Why a text is refused.

/// What is wrong with the first byte or token that is wrong.
#[derive(Clone, Copy, Debug, PartialEq, Eq)]
pub enum TextKind {
    /// A byte that no text has.
    NotText,
    /// What the grammar doesn't allow there, or the end where it wants more.
    Unexpected,
    /// A number of `2 ^ 128` or more.
    NumberTooWide,
    /// A word above 64 bytes.
    NameTooLong,
    /// The parenthesis of a sum that would be the 33rd open one.
    TooDeep,
    /// The first word of the 65,536th declaration.
    TooMany,
}

/// The first fault of a text, and the place of its first byte.
#[derive(Clone, Copy, Debug, PartialEq, Eq)]
pub struct TextFault {
    pub place: u32,
    pub kind: TextKind,
}

#[derive(Clone, Copy, Debug, PartialEq, Eq)]
pub enum TextStop {
    Fault(TextFault),
    NoMemory,
}

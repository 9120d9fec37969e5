//! The limits of the language.

/// The most bytes of a word.
pub const MAX_WORD: usize = 64;

/// The most parentheses that are open at once.
pub const MAX_OPEN: usize = 32;

/// The most declarations of a text.
pub const MAX_DECLARATIONS: usize = 65_535;

/// The widest type has `2 ^ (2 ^ MAX_LEVEL)` elements.
pub const MAX_LEVEL: u32 = 7;

/// A column has at most `2 ^ MAX_LOG_VALUES` values per row.
pub const MAX_LOG_VALUES: u32 = 7;

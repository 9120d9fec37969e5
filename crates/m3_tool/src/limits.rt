//! The limits of files.

/// The most bytes of a file of tables.
pub const MAX_TABLES_FILE: u64 = 1_048_576;

/// The most bytes of a file of a witness.
pub const MAX_WITNESS_FILE: u64 = 16_777_216;

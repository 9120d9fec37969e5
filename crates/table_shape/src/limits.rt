//! The limits of shapes and of the columns' values.

/// The most tables.
pub const MAX_TABLES: usize = 64;

/// The most channels.
pub const MAX_CHANNELS: usize = 64;

/// The most boundaries.
pub const MAX_BOUNDARIES: usize = 4096;

/// The most numbers of a channel's tuples.
pub const MAX_CHANNEL_WIDTH: u32 = 16;

/// The most columns of a table.
pub const MAX_COLUMNS: usize = 256;

/// The most constraints of a table.
pub const MAX_CONSTRAINTS: usize = 256;

/// The most flushes of a table.
pub const MAX_FLUSHES: usize = 64;

/// The most terms of a linear column.
pub const MAX_TERMS: usize = 64;

/// The greatest level.
pub const MAX_LEVEL: u32 = 7;

/// The greatest degree of a constraint.
pub const MAX_DEGREE: u32 = 8;

/// The most rows of a table.
pub const MAX_ROWS: u32 = 1_048_576;

/// All columns take at most `2 ^ MAX_SIZE_LOG` bits.
pub const MAX_SIZE_LOG: u32 = 24;

/// One column takes at most `2 ^ MAX_BLOCK_LOG` bits.
pub const MAX_BLOCK_LOG: u32 = 34;

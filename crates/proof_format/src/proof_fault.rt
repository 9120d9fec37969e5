//! The faults of a proof's file.

/// What is wrong with the bytes of a proof, the first fault in their order.
#[derive(Clone, Copy, PartialEq, Eq, Debug)]
pub enum ProofFault {
    /// The mark at the beginning is another one.
    BadMagic { found: [u8; 8] },
    BadVersion { found: u8 },
    /// The digest is not that of these tables.
    OtherTables { kept: [u8; 32], found: [u8; 32] },
    /// A table has more rows than a table may have.
    BadRows { table: u32, found: u32 },
    /// The file ends within a field or a piece; `need` bytes are due.
    Short { have: u64, need: u64 },
    /// The file goes on after `need` bytes.
    Trailing { need: u64, next: u8 },
}

//! The head of a proof's file.

ghost use Rattle.std.specs.Prelude.{◌≡◌, ◌≤◌, ◌<◌, ◌+◌, length, IfOk, None, Some};
ghost use Rattle.table_shape.specs.Limits.{max_tables};
ghost use Rattle.proof_plan.specs.Sizes.{head_length};
ghost use Rattle.proof_format.specs.Head.{bad_magic, bad_rows, bad_version, field, head_fault, head_rows, other_tables, rows_fault, rows_in, rows_place, short};
ghost use Rattle.proof_format.specs.HeadStop.{OnFault, fault_of};

use crate::head_stop::HeadStop;
use crate::proof_fault::ProofFault;
use sqlite_items::Items;
use std::alloc::{AllocError, Global};
use table_shape::{MAX_ROWS, Shape};

/// How many rows each table has, in the order of the tables.
pub type Rows = Items<u32>;

/// What the head of a proof tells.
#[derive(Debug, Drop)]
pub struct Head {
    pub version: u8,
    pub rows: Rows,
}

pub const MAGIC: [u8; 8] = [66, 77, 51, 80, 82, 79, 79, 70];

pub const VERSION: u8 = 1;

/// How many bytes the head of a proof for these tables has.
pub fn head_length(shape: &Shape) -> u32
    ensures { result ≡ head_length (length shape.now.tables) }
{
    length_for(shape.tables().len() as u32)
}

fn length_for(tables: u32) -> u32
    requires { tables ≤ max_tables }
    ensures { result ≡ head_length tables }
{
    41 + 4 * tables
}

/// The head that a proof for these tables begins with, or the first fault in it.
pub fn read_head(alloc: Global, shape: &Shape, bytes: &[u8]) -> Result<Head, HeadStop>
    ensures head { IfOk result (λ h. (head_fault shape.now.digest (length shape.now.tables) bytes.now ≡ None) × ((h.version ≡ 1) × (h.rows ≡ head_rows (length shape.now.tables) bytes.now))) }
    ensures fault { OnFault result (λ f. head_fault shape.now.digest (length shape.now.tables) bytes.now ≡ Some f) }
{
    let tables = shape.tables().len() as u32;
    check_head(shape.digest(), tables, bytes)?;
    let rows = read_rows(alloc, tables, bytes)?;
    Ok(Head {
        version: VERSION,
        rows,
    })
}

/// The first fault of a head, field by field: that it is whole, and then what it says.
fn check_head(digest: [u8; 32], tables: u32, bytes: &[u8]) -> Result<(), ProofFault>
    requires { tables ≤ max_tables }
    ensures fault { fault_of result ≡ head_fault digest tables bytes.now }
    ensures whole { IfOk result (λ _. head_length tables ≤ length bytes.now) }
{
    check_whole(bytes, 8, tables)?;
    check_magic(bytes)?;
    check_whole(bytes, 9, tables)?;
    check_version(bytes)?;
    check_whole(bytes, 41, tables)?;
    check_digest(digest, bytes)?;
    check_rows(tables, bytes)
}

/// That a file has so many bytes of the head.
fn check_whole(bytes: &[u8], due: u32, tables: u32) -> Result<(), ProofFault>
    requires { tables ≤ max_tables }
    ensures fault { fault_of result ≡ short tables due bytes.now }
    ensures whole { IfOk result (λ _. due ≤ length bytes.now) }
{
    let have = bytes.len() as u64;
    if have < u64::from(due) {
        let need = u64::from(length_for(tables));
        return Err(ProofFault::Short { have, need });
    }
    Ok(())
}

fn check_magic(bytes: &[u8]) -> Result<(), ProofFault>
    requires { 8 ≤ length bytes.now }
    ensures { fault_of result ≡ bad_magic bytes.now }
{
    let mut found = [0u8; 8];
    found.copy_from_slice(&bytes[..8]);
    if found == MAGIC {
        Ok(())
    } else {
        Err(ProofFault::BadMagic { found })
    }
}

fn check_version(bytes: &[u8]) -> Result<(), ProofFault>
    requires { 9 ≤ length bytes.now }
    ensures { fault_of result ≡ bad_version bytes.now }
{
    let found = bytes[8];
    if found == VERSION {
        Ok(())
    } else {
        Err(ProofFault::BadVersion { found })
    }
}

fn check_digest(kept: [u8; 32], bytes: &[u8]) -> Result<(), ProofFault>
    requires { 41 ≤ length bytes.now }
    ensures { fault_of result ≡ other_tables kept bytes.now }
{
    let mut found = [0u8; 32];
    found.copy_from_slice(&bytes[9..41]);
    if found == kept {
        Ok(())
    } else {
        Err(ProofFault::OtherTables { kept, found })
    }
}

/// Of the rows of all tables.
fn check_rows(tables: u32, bytes: &[u8]) -> Result<(), ProofFault>
    requires few { tables ≤ max_tables }
    requires begun { 41 ≤ length bytes.now }
    ensures fault { fault_of result ≡ rows_fault tables 0 tables bytes.now }
    ensures whole { IfOk result (λ _. head_length tables ≤ length bytes.now) }
{
    for table in 0..tables {
        check_whole(bytes, 45 + 4 * table, tables)?;
        check_table_rows(table, bytes)?;
    }
    Ok(())
}

fn check_table_rows(table: u32, bytes: &[u8]) -> Result<(), ProofFault>
    requires few { table < max_tables }
    requires whole { rows_place table + 4 ≤ length bytes.now }
    ensures { fault_of result ≡ bad_rows table bytes.now }
{
    let found = rows_of(table, bytes);
    if found > MAX_ROWS {
        Err(ProofFault::BadRows { table, found })
    } else {
        Ok(())
    }
}

/// The rows that the head tells of a table.
fn rows_of(table: u32, bytes: &[u8]) -> u32
    requires few { table < max_tables }
    requires whole { rows_place table + 4 ≤ length bytes.now }
    ensures { result ≡ rows_in bytes.now table }
{
    let at = 41 + 4 * table as usize;
    let mut field = [0u8; 4];
    field.copy_from_slice(&bytes[at..at + 4]);
    u32::from_le_bytes(field)
}

fn read_rows(alloc: Global, tables: u32, bytes: &[u8]) -> Result<Rows, AllocError>
    requires few { tables ≤ max_tables }
    requires whole { head_length tables ≤ length bytes.now }
    ensures { IfOk result (λ rows. rows ≡ head_rows tables bytes.now) }
{
    let mut rows = Items::new(alloc);
    for table in 0..tables {
        rows.push(rows_of(table, bytes))?;
    }
    Ok(rows)
}

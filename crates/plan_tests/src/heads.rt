//! The head of a proof, whole, cut short and with each field wrong.

use proof_format::{HeadStop, ProofFault, head_length, read_head};
use std::alloc::{AllocError, Global};
use std::test::Fail;
use table_shape::{Shape, resolve};
use table_text::read_tables;

const TWO: &[u8] = b"table t { column a : b1; } table u { column b : b8; }";

fn shape_of(alloc: Global) -> Result<Shape, Fail> {
    Ok(resolve(alloc, &read_tables(alloc, TWO)?)?)
}

/// A head for two tables, and a byte after it.
fn head_of(alloc: Global, digest: [u8; 32], rows: [u32; 2]) -> Result<Vec<u8>, AllocError> {
    let mut bytes = Vec::new(alloc);
    bytes.extend_from_slice(b"BM3PROOF")?;
    bytes.push(1)?;
    bytes.extend_from_slice(&digest)?;
    for m in rows {
        bytes.extend_from_slice(&m.to_le_bytes())?;
    }
    bytes.push(9)?;
    Ok(bytes)
}

/// The first fault of the first `have` bytes of a head, where each change names a byte and the bits of it
/// that are others.
fn first_fault(
    alloc: Global,
    shape: &Shape,
    have: usize,
    changes: &[(usize, u8)],
) -> Result<Option<ProofFault>, Fail> {
    let mut bytes = head_of(alloc, shape.digest(), [3, 1_048_576])?;
    for (at, bits) in changes {
        if *at < bytes.len() {
            bytes[*at] ^= *bits;
        }
    }
    match read_head(alloc, shape, &bytes[..have.min(bytes.len())]) {
        Ok(_) => Ok(None),
        Err(HeadStop::Fault(fault)) => Ok(Some(fault)),
        Err(HeadStop::NoMemory) => Err(AllocError.into()),
    }
}

/// Another digest than that of the tables, by one byte.
fn other(kept: [u8; 32], at: usize, bits: u8) -> Option<ProofFault> {
    let mut found = kept;
    if at < 32 {
        found[at] ^= bits;
    }
    Some(ProofFault::OtherTables { kept, found })
}

fn short(have: u64) -> Option<ProofFault> {
    Some(ProofFault::Short { have, need: 49 })
}

fn magic(found: &[u8; 8]) -> Option<ProofFault> {
    Some(ProofFault::BadMagic { found: *found })
}

fn version(found: u8) -> Option<ProofFault> {
    Some(ProofFault::BadVersion { found })
}

fn rows(table: u32, found: u32) -> Option<ProofFault> {
    Some(ProofFault::BadRows { table, found })
}

#[test]
fn rows_are_read(rt: HostRuntime) -> Result<(), Fail> {
    let alloc = rt.alloc();
    let shape = shape_of(alloc)?;
    assert_eq!(rt; head_length(&shape), 49);
    let bytes = head_of(alloc, shape.digest(), [3, 1_048_576])?;
    match read_head(alloc, &shape, bytes.as_slice()) {
        Ok(head) => {
            assert_eq!(rt; head.version, 1);
            assert!(rt; head.rows.as_slice() == [3, 1_048_576].as_slice());
        }
        Err(_) => panic!(rt; "not read"),
    }
    Ok(())
}

#[test]
fn short_heads(rt: HostRuntime) -> Result<(), Fail> {
    let alloc = rt.alloc();
    let shape = shape_of(alloc)?;
    for have in 0..49usize {
        let fault = first_fault(alloc, &shape, have, &[])?;
        assert!(rt; fault == short(have as u64), "{have}");
    }
    Ok(())
}

#[test]
fn first_faults(rt: HostRuntime) -> Result<(), Fail> {
    let alloc = rt.alloc();
    let shape = shape_of(alloc)?;
    let kept = shape.digest();
    let cases: [(usize, &[(usize, u8)], Option<ProofFault>); 26] = [
        (49, &[], None),
        (50, &[(49, 255)], None),
        (50, &[(0, 1)], magic(b"CM3PROOF")),
        (50, &[(2, 1)], magic(b"BM2PROOF")),
        (50, &[(3, 32)], magic(b"BM3pROOF")),
        (50, &[(7, 1)], magic(b"BM3PROOG")),
        (8, &[(7, 1)], magic(b"BM3PROOG")),
        (7, &[(0, 1)], short(7)),
        (50, &[(8, 1)], version(0)),
        (50, &[(8, 2)], version(3)),
        (50, &[(8, 254)], version(255)),
        (9, &[(8, 3)], version(2)),
        (50, &[(0, 1), (8, 1)], magic(b"CM3PROOF")),
        (50, &[(9, 128)], other(kept, 0, 128)),
        (50, &[(40, 1)], other(kept, 31, 1)),
        (41, &[(24, 7)], other(kept, 15, 7)),
        (40, &[(9, 1)], short(40)),
        (50, &[(8, 1), (9, 1)], version(0)),
        (50, &[(41, 3)], None),
        (50, &[(43, 16)], rows(0, 1_048_579)),
        (45, &[(44, 128)], rows(0, 2_147_483_651)),
        (50, &[(45, 1)], rows(1, 1_048_577)),
        (50, &[(47, 16)], None),
        (50, &[(48, 1)], rows(1, 17_825_792)),
        (48, &[(43, 16), (48, 1)], rows(0, 1_048_579)),
        (48, &[(45, 1)], short(48)),
    ];
    for (have, changes, fault) in cases {
        assert!(rt;
            first_fault(alloc, &shape, have, changes)? == fault,
            "{have} {changes:?}"
        );
    }
    Ok(())
}

//! The pieces of proofs, and their texts as they are written and read again.

ghost use Rattle.std.specs.Prelude.{◌≡◌, ◌<◌, ◌≤◌, length, IfOk};
ghost use Rattle.table_shape.specs.Limits.{max_size_log};
ghost use Rattle.proof_plan.specs.Sizes.{proof_length};
ghost use Rattle.proof_format.specs.Pieces.{pieces};

use crate::plans::{ADDER, BITS, are_few};
use proof_format::{Piece, ProofText, body_pieces, head_length, read_head, read_values};
use proof_plan::{Plan, PlanEntry};
use std::alloc::{AllocError, Global};
use std::process::Abort;
use std::test::Fail;
use table_shape::{Shape, resolve};
use table_text::read_tables;
use tower_field::B128;

/// The entries and the lengths of the pieces of one bit before its queries.
const BIT_PIECES: [(u32, u32); 14] = [
    (0, 32),
    (2, 16),
    (4, 48),
    (6, 48),
    (8, 48),
    (10, 48),
    (12, 48),
    (14, 48),
    (16, 48),
    (18, 48),
    (20, 16),
    (21, 2048),
    (29, 48),
    (31, 16),
];

fn planned(
    rt: &(impl Abort + AllocGlobal),
    text: &[u8],
    rows: &[u32],
) -> Result<(Shape, Plan), Fail>
    ensures { IfOk result (λ made. made.1.tables ≡ length rows.now) }
{
    assert!(rt; text.len() < 1 << 32);
    let shape = resolve(rt.alloc(), &read_tables(rt.alloc(), text)?)?;
    assert!(rt; rows.len() == shape.tables().len());
    assert!(rt; are_few(rows));
    let plan = Plan::of(rt.alloc(), &shape, rows)?;
    Ok((shape, plan))
}

/// All pieces of a plan.
fn listed(alloc: Global, plan: &Plan) -> Result<Vec<Piece>, AllocError>
    ensures { IfOk result (λ list. list.items ≡ pieces plan.now.packed_log 0 plan.now.entries) }
{
    let mut list = Vec::new(alloc);
    for piece in body_pieces(plan) {
        list.push(piece)?;
    }
    Ok(list)
}

fn whole(entry: u32, length: u32) -> Piece {
    Piece {
        entry,
        query: None,
        round: 0,
        length,
    }
}

fn opening(entry: u32, query: u32, round: u32, length: u32) -> Piece {
    Piece {
        entry,
        query: Some(query),
        round,
        length,
    }
}

fn is_root(plan: &Plan, entry: u32) -> bool {
    entry < plan.len() && plan.entry(entry) == PlanEntry::Root
}

/// How many bytes the pieces of roots, of values and of openings have.
fn lengths(plan: &Plan) -> [u64; 3] {
    let (mut roots, mut values, mut openings) = (0u64, 0u64, 0u64);
    for piece in body_pieces(plan) {
        let length = u64::from(piece.length);
        if piece.query.is_some() {
            openings = openings.saturating_add(length);
        } else if is_root(plan, piece.entry) {
            roots = roots.saturating_add(length);
        } else {
            values = values.saturating_add(length);
        }
    }
    [roots, values, openings]
}

#[test]
fn bit_pieces(rt: HostRuntime) -> Result<(), Fail> {
    let (_, plan) = planned(&rt, BITS, &[1])?;
    let list = listed(rt.alloc(), &plan)?;
    assert!(rt; list.len() == 14 + 64);
    for i in 0..14usize {
        let (entry, length) = BIT_PIECES[i];
        assert!(rt; list.as_slice()[i] == whole(entry, length), "{i}");
    }
    for query in 0..64u32 {
        let piece = list.as_slice()[14 + query as usize];
        assert!(rt; piece == opening(32, query, 0, 96), "{query}");
    }
    Ok(())
}

#[test]
fn adder_pieces(rt: HostRuntime) -> Result<(), Fail> {
    let (_, plan) = planned(&rt, ADDER, &[3])?;
    assert!(rt; lengths(&plan) == [32 * 2, 16 * 427, 64 * 224]);
    let list = listed(rt.alloc(), &plan)?;
    assert!(rt; list.len() > 130);
    let last = &list.as_slice()[list.len() - 129..];
    assert!(rt; last[0] == whole(165, 16));
    for query in 0..64u32 {
        let at = 1 + 2 * query as usize;
        assert!(rt; last[at] == opening(166, query, 0, 128), "{query}");
        assert!(rt; last[at + 1] == opening(166, query, 1, 96), "{query}");
    }
    Ok(())
}

/// So many values of an entry, no two of which are equal.
fn values_of(alloc: Global, entry: u32, count: u32) -> Result<Vec<B128>, AllocError> {
    let mut values = Vec::new(alloc);
    for k in 0..count {
        let value = u128::from(entry) << 64 | u128::from(k);
        values.push(B128::from_bytes(value.to_le_bytes()))?;
    }
    Ok(values)
}

fn root_of(entry: u32) -> [u8; 32] {
    [entry.to_le_bytes()[0]; 32]
}

/// So many bytes in place of the opening for a round of a query.
fn opening_of(alloc: Global, query: u32, round: u32, length: u32) -> Result<Vec<u8>, AllocError> {
    let byte = query.to_le_bytes()[0] ^ round.to_le_bytes()[0] << 6;
    let mut bytes = Vec::new(alloc);
    for _ in 0..length {
        bytes.push(byte)?;
    }
    Ok(bytes)
}

fn write_root(rt: &impl Abort, entry: u32, due: u64, text: &mut ProofText)
    requires { text.old.length ≡ due }
    ensures { text.new.length ≡ due }
{
    let have = text.bytes().len();
    assert!(rt; have < 1 << 32 && have as u64 + 32 <= due);
    text.push_root(&root_of(entry));
}

fn write_values(rt: &impl Abort, values: &[B128], due: u64, text: &mut ProofText)
    requires { text.old.length ≡ due }
    ensures { text.new.length ≡ due }
{
    let (have, count) = (text.bytes().len(), values.len());
    assert!(rt; have < 1 << 32 && count < 1 << 32 && have as u64 + 16 * count as u64 <= due);
    text.push_values(values);
}

fn write_opening(rt: &impl Abort, bytes: &[u8], due: u64, text: &mut ProofText)
    requires { text.old.length ≡ due }
    ensures { text.new.length ≡ due }
{
    let (have, count) = (text.bytes().len(), bytes.len());
    assert!(rt; have < 1 << 32 && count < 1 << 32 && have as u64 + count as u64 <= due);
    text.push_openings(bytes);
}

/// Openings of all queries, each over so many rounds.
fn write_openings(
    rt: &(impl Abort + AllocGlobal),
    rounds: u32,
    due: u64,
    text: &mut ProofText,
) -> Result<(), AllocError>
    requires low { rounds ≤ max_size_log }
    requires due { text.old.length ≡ due }
    ensures { text.new.length ≡ due }
{
    for query in 0..64u32 {
        for round in 0..rounds {
            let length = 32 + 32 * (rounds - round + 1);
            let bytes = opening_of(rt.alloc(), query, round, length)?;
            write_opening(rt, bytes.as_slice(), due, text);
        }
    }
    Ok(())
}

/// What is due at an entry.
fn write_entry(
    rt: &(impl Abort + AllocGlobal),
    plan: &Plan,
    i: u32,
    due: u64,
    text: &mut ProofText,
) -> Result<(), AllocError>
    requires within { i < length plan.now.entries }
    requires due { text.old.length ≡ due }
    ensures { text.new.length ≡ due }
{
    match plan.entry(i) {
        PlanEntry::Root => write_root(rt, i, due, text),
        PlanEntry::Message { length, .. } => {
            let values = values_of(rt.alloc(), i, length)?;
            write_values(rt, values.as_slice(), due, text);
        }
        PlanEntry::Draw { .. } => {}
        PlanEntry::Constant => {
            let values = values_of(rt.alloc(), i, 1)?;
            write_values(rt, values.as_slice(), due, text);
        }
        PlanEntry::Queries => write_openings(rt, plan.packed_vars(), due, text)?,
    }
    Ok(())
}

/// The bytes of a proof that holds the root, the values and the openings above.
fn written(
    rt: &(impl Abort + AllocGlobal),
    shape: &Shape,
    plan: &Plan,
    rows: &[u32],
) -> Result<Vec<u8>, AllocError>
    requires { plan.now.tables ≡ length rows.now }
{
    let due = plan.byte_length();
    let mut text = ProofText::begin(rt.alloc(), plan, &shape.digest(), rows)?;
    for i in 0..plan.len() {
        write_entry(rt, plan, i, due, &mut text)?;
    }
    assert!(rt; text.bytes().len() as u64 == due);
    Ok(text.finish())
}

/// That a piece holds what was written.
fn check_piece(
    rt: &(impl Abort + AllocGlobal),
    plan: &Plan,
    piece: Piece,
    found: &[u8],
) -> Result<(), Fail> {
    if let Some(query) = piece.query {
        let bytes = opening_of(rt.alloc(), query, piece.round, piece.length)?;
        assert!(rt; found == bytes.as_slice(), "{piece:?}");
    } else if is_root(plan, piece.entry) {
        assert!(rt; found == root_of(piece.entry).as_slice(), "{piece:?}");
    } else {
        assert!(rt; found.len() % 16 == 0, "{piece:?}");
        let mut values = Vec::new(rt.alloc());
        read_values(found, &mut values)?;
        let due = values_of(rt.alloc(), piece.entry, piece.length / 16)?;
        assert!(rt; values.as_slice() == due.as_slice(), "{piece:?}");
    }
    Ok(())
}

/// That the pieces after a head hold what was written, and that nothing follows.
fn check_pieces(rt: &(impl Abort + AllocGlobal), plan: &Plan, bytes: &[u8]) -> Result<(), Fail> {
    let mut rest = bytes;
    for piece in body_pieces(plan) {
        assert!(rt; piece.length as usize <= rest.len(), "{piece:?}");
        let (found, tail) = rest.split_at(piece.length as usize);
        check_piece(rt, plan, piece, found)?;
        rest = tail;
    }
    assert!(rt; rest.is_empty());
    Ok(())
}

#[test]
fn texts_are_read_again(rt: HostRuntime) -> Result<(), Fail> {
    let two = b"table t { column a : b1; } table u { column b : b8; }".as_slice();
    let cases: [(&[u8], &[u32], u32, usize); 6] = [
        (b"table t { }", &[1000], 45, 8733),
        (two, &[3, 5], 49, 8737),
        (two, &[0, 0], 49, 8737),
        (BITS, &[1], 45, 8749),
        (BITS, &[0], 45, 8749),
        (ADDER, &[3], 45, 21277),
    ];
    for (text, rows, head, length) in cases {
        let (shape, plan) = planned(&rt, text, rows)?;
        let bytes = written(&rt, &shape, &plan, rows)?;
        assert!(rt;
            bytes.len() == length && head_length(&shape) == head,
            "{length}"
        );
        let read = read_head(rt.alloc(), &shape, bytes.as_slice())?;
        assert!(rt; read.rows.as_slice() == rows, "{length}");
        assert!(rt; (head as usize) < bytes.len());
        check_pieces(&rt, &plan, &bytes[head as usize..])?;
    }
    Ok(())
}

//! The verdict on the bytes of a file.

ghost use Rattle.std.specs.Prelude.{◌≡◌, ℕ, ◌≤◌, length, slice_index, IfErr, IfOk};
ghost use Rattle.table_shape.specs.Limits.{max_rows};
ghost use Rattle.proof_plan.specs.Sizes.{head_length, proof_length};
ghost use Rattle.m3_verifier.specs.declared.verify_stop.VerifyStop.TheVariants.{NoMemory};
ghost use Rattle.m3_verifier.specs.Begun.{AreDue, IsFirst, IsPlan, StopsForRows};
ghost use Rattle.m3_verifier.specs.Reading.{reading};
ghost use Rattle.m3_verifier.specs.Verdict.{begun, said_at_end, said_of, said_of_halt, verdict, verdict_on_rows, Answers};

use crate::halt::{Halt, Stopped};
use crate::reader::Reader;
use crate::reading::read_through;
use crate::verified::{Refusal, Verified};
use crate::verify_stop::VerifyStop;
use crate::walk::first_walk;
use m3_walk::Stage;
use proof_format::{ProofFault, head_length, heads_are_spelled_again, read_head};
use proof_plan::Plan;
use std::alloc::Global;
use sumcheck::Steps;
use table_shape::Shape;
use transcript::Transcript;
use walk_chain::ChainWalk;

/// Under which tag the head is absorbed.
const HEAD: u8 = 0;

/// What is said of a file of `have` bytes where an entry halts the reading.
fn said_of_halt(entry: u32, halt: Halt, have: u64, need: u64) -> Result<Verified, VerifyStop>
    ensures { result ≡ said_of_halt entry have need halt }
{
    match halt {
        Halt::Short => Err(VerifyStop::Fault(ProofFault::Short { have, need })),
        Halt::Refused(refused) => Ok(Verified::Rejected(Refusal::Entry {
            entry,
            check: refused.check,
            left: refused.left,
            right: refused.right,
        })),
        Halt::Query(fault) => Ok(Verified::Rejected(Refusal::Query(fault))),
        Halt::NoMemory => Err(VerifyStop::NoMemory),
    }
}

/// What is said after the last entry, where these bytes are left.
fn said_at_end(plan: &Plan, left: &[u8]) -> Result<Verified, VerifyStop>
    ensures { result ≡ said_at_end plan.now.entries (proof_length plan.now.tables plan.now.packed_log plan.now.entries) left.now }
{
    match left.first() {
        None => Ok(Verified::Accepted {
            draws: plan.draws(),
            total: plan.total(),
        }),
        Some(next) => Err(VerifyStop::Fault(ProofFault::Trailing {
            need: plan.byte_length(),
            next: *next,
        })),
    }
}

/// Reads the entries of a plan, and judges what was read of a file of `have` bytes.
fn judge_entries<W: Steps + Drop>(
    reader: &mut Reader<'_, W>,
    plan: &Plan,
    have: u64,
) -> Result<Verified, VerifyStop>
    requires { AreDue W.machine plan.now.entries reader.old.state }
    ensures { Answers (said_of plan.now.entries have (proof_length plan.now.tables plan.now.packed_log plan.now.entries) (reading W.machine plan.now.entries 0 reader.old)) result }
{
    match read_through(reader, plan) {
        Ok(()) => said_at_end(plan, reader.left()),
        Err(Stopped { entry, halt }) => said_of_halt(entry, halt, have, plan.byte_length()),
    }
}

/// The reader of a file whose head is read.
fn reader_after_head<'a, W: Steps + Drop>(
    alloc: Global,
    shape: &Shape,
    walk: W,
    bytes: &'a [u8],
    rounds: u32,
) -> Result<Reader<'a, W>, VerifyStop>
    requires whole { head_length (length shape.now.tables) ≤ length bytes.now }
    requires low { rounds ≤ 22 }
    ensures reader { IfOk result (λ r. r ≡ begun walk (length shape.now.tables) rounds bytes.now) }
    ensures memory { IfErr result (λ stop. stop ≡ NoMemory) }
{
    let (head, body) = bytes.split_at(head_length(shape) as usize);
    let mut transcript = Transcript::start();
    transcript.absorb(HEAD, head);
    match Reader::begin(alloc, walk, transcript, body, rounds) {
        Ok(reader) => Ok(reader),
        Err(_) => Err(VerifyStop::NoMemory),
    }
}

/// The plan of these numbers of rows.
fn plan_of_rows(alloc: Global, shape: &Shape, rows: &[u32]) -> Result<Plan, VerifyStop>
    requires counts { length rows.now ≡ length shape.now.tables }
    requires few { (t : ℕ) → slice_index rows.now t ≤ max_rows }
    ensures plan { IfOk result (λ plan. IsPlan shape.now rows.now plan) }
    ensures stop { IfErr result (λ stop. StopsForRows shape.now rows.now stop) }
{
    match Plan::of(alloc, shape, rows) {
        Ok(plan) => Ok(plan),
        Err(stop) => Err(VerifyStop::from(stop)),
    }
}

/// The reductions of these numbers of rows.
fn walk_of_rows(alloc: Global, shape: &Shape, rows: &[u32]) -> Result<ChainWalk<Stage>, VerifyStop>
    requires counts { length rows.now ≡ length shape.now.tables }
    requires few { (t : ℕ) → slice_index rows.now t ≤ max_rows }
    ensures walk { IfOk result (λ walk. IsFirst shape.now rows.now walk) }
    ensures stop { IfErr result (λ stop. StopsForRows shape.now rows.now stop) }
{
    match first_walk(alloc, shape, rows) {
        Ok(walk) => Ok(walk),
        Err(stop) => Err(VerifyStop::from(stop)),
    }
}

/// The verdict on a file whose head tells these numbers of rows.
fn judge_rows(
    alloc: Global,
    shape: &Shape,
    rows: &[u32],
    bytes: &[u8],
) -> Result<Verified, VerifyStop>
    requires counts { length rows.now ≡ length shape.now.tables }
    requires few { (t : ℕ) → slice_index rows.now t ≤ max_rows }
    requires whole { head_length (length shape.now.tables) ≤ length bytes.now }
    ensures { Answers (verdict_on_rows shape.now rows.now bytes.now) result }
{
    let plan = plan_of_rows(alloc, shape, rows)?;
    let walk = walk_of_rows(alloc, shape, rows)?;
    let mut reader = reader_after_head(alloc, shape, walk, bytes, plan.packed_vars())?;
    judge_entries(&mut reader, &plan, bytes.len() as u64)
}

/// The verdict on a file as a proof of a shape's tables.
pub fn judge(alloc: Global, shape: &Shape, bytes: &[u8]) -> Result<Verified, VerifyStop>
    ensures { Answers (verdict shape.now bytes.now) result }
{
    heads_are_spelled_again();
    let head = read_head(alloc, shape, bytes)?;
    judge_rows(alloc, shape, head.rows.as_slice(), bytes)
}

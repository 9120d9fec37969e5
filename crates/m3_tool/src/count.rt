//! The command `count`: the draws of a proof that are counted, and the proof's length.

ghost use Rattle.std.specs.Prelude.{◌≡◌, ◌≤◌, ℕ, List, Some, map, string_bytes, slice_index, IfOk, IsSome, IsTrue, OnOk};
ghost use Rattle.byte_ends.specs.Shelf.{bytes_of, ReadFailed, ReadsOnly, SameFaults};
ghost use Rattle.table_shape.specs.Limits.{max_rows};
ghost use Rattle.m3_tool.specs.Answer.{IsFileReadOnce, answer_of};
ghost use Rattle.m3_tool.specs.Checking.{EndsCount, OnReadFault, UnlessReadFault};
ghost use Rattle.m3_tool.specs.Command.{row_counts_of};
ghost use Rattle.m3_tool.specs.Run.{IsCountAnswer, IsCounted};

use crate::answer::{Answer, fixed, made};
use crate::lines::{plan_text, too_large_line};
use crate::shapes::{Shaped, shape_of_file};
use crate::status::Status;
use crate::tables::Stop;
use crate::words::rows_of;
use byte_ends::Shelf;
use proof_plan::Plan;
use std::alloc::{AllocError, Global};
use table_shape::{Shape, SizeStop};

/// The counts of a proof for the tables in a file, with a word for the rows of each table.
pub(crate) fn count<S: Shelf>(
    alloc: Global,
    shelf: &mut S,
    tables_file: &str,
    rows: &[String],
) -> Result<Answer, Stop>
    requires { IsSome (row_counts_of (map string_bytes rows.now)) }
    ensures due { IsTrue (S.state shelf.old).told → IfOk result (λ a. (counts : List ℕ) → row_counts_of (map string_bytes rows.now) ≡ Some counts → IsCountAnswer counts (bytes_of (S.state shelf.old) tables_file.now) (answer_of a)) }
    ensures once { IsTrue (S.state shelf.old).told → OnOk result (IsFileReadOnce (bytes_of (S.state shelf.old) tables_file.now)) }
    ensures kind { IfOk result (λ a. EndsCount a.status) }
    ensures failed { OnReadFault result (ReadFailed (S.state shelf.old) (S.state shelf.new) tables_file.now) }
    ensures quiet { UnlessReadFault result (SameFaults (S.state shelf.old) (S.state shelf.new)) }
    ensures reads_only { ReadsOnly (S.state shelf.old) (S.state shelf.new) }
{
    match shape_of_file(alloc, shelf, tables_file)? {
        Shaped::Shape(shape) => Ok(answer_to_rows(alloc, &shape, rows)?),
        Shaped::Refused(answer) => Ok(answer),
    }
}

/// The answer to words for the rows of each table.
fn answer_to_rows(alloc: Global, shape: &Shape, rows: &[String]) -> Result<Answer, AllocError>
    requires { IsSome (row_counts_of (map string_bytes rows.now)) }
    ensures due { IfOk result (λ a. (counts : List ℕ) → row_counts_of (map string_bytes rows.now) ≡ Some counts → IsCounted counts shape.now (answer_of a)) }
    ensures kind { IfOk result (λ a. EndsCount a.status) }
{
    let rows = rows_of(alloc, rows)?;
    counted(alloc, shape, rows.as_slice())
}

/// The answer to numbers of rows.
fn counted(alloc: Global, shape: &Shape, rows: &[u32]) -> Result<Answer, AllocError>
    requires { (t : ℕ) → slice_index rows.now t ≤ max_rows }
    ensures due { IfOk result (λ a. IsCounted rows.now shape.now (answer_of a)) }
    ensures kind { IfOk result (λ a. EndsCount a.status) }
{
    if rows.len() != shape.tables().len() {
        return Ok(fixed(Status::Words, "words\n"));
    }
    match Plan::of(alloc, shape, rows) {
        Ok(plan) => Ok(made(Status::Yes, plan_text(alloc, &plan)?)),
        Err(SizeStop::TooLarge { log_bits }) => {
            Ok(made(Status::TooLarge, too_large_line(alloc, log_bits)?))
        }
        Err(SizeStop::NoMemory) => Err(AllocError),
    }
}

//! What is asked of a witness: tables and a witness are read, and its values are answered.

ghost use Rattle.std.specs.Prelude.{◌≡◌, IfOk, OnOk, IsTrue};
ghost use Rattle.byte_ends.specs.Shelf.{bytes_of, ReadFailed, ReadsOnly, SameFaults};
ghost use Rattle.m3_tool.specs.Run.{IsReadAnswer, IsWitnessAnswer, IsWitnessFileAnswer, WitnessReadsFailed};
ghost use Rattle.m3_tool.specs.Answer.{answer_of, IsFileReadOnce};
ghost use Rattle.m3_tool.specs.Checking.{Answering, EndsCheck, OnReadFault, UnlessReadFault};

use crate::answer::{Answer, made};
use crate::check::judged;
use crate::limits::MAX_WITNESS_FILE;
use crate::lines::{too_large_line, too_long_line, witness_fault_line};
use crate::lower::lowered;
use crate::shapes::{Shaped, shape_of_file};
use crate::status::Status;
use crate::tables::Stop;
use byte_ends::{Shelf, WholeStop, read_whole};
use column_store::Store;
use std::alloc::{AllocError, Global};
use table_shape::Shape;
use witness_reader::{WitnessStop, read_witness};

/// What is asked of the values of a witness: whether they satisfy the tables, or what they come to
/// at two numbers.
#[derive(Clone, Copy)]
pub(crate) enum Question {
    Satisfied,
    Lowered { alpha: u128, gamma: u128 },
}

/// The answer to the tables in the first file and the witness in the second.
pub(crate) fn answer_to_files<S: Shelf>(
    alloc: Global,
    shelf: &mut S,
    tables_file: &str,
    witness_file: &str,
    question: Question,
) -> Result<Answer, Stop>
    ensures due { IsTrue (S.state shelf.old).told → IfOk result (λ a. IsReadAnswer (Answering question) (bytes_of (S.state shelf.old) tables_file.now) (bytes_of (S.state shelf.old) witness_file.now) (answer_of a)) }
    ensures once { IsTrue (S.state shelf.old).told → OnOk result (IsFileReadOnce (bytes_of (S.state shelf.old) tables_file.now)) }
    ensures kind { IfOk result (λ a. EndsCheck a.status) }
    ensures failed { OnReadFault result (WitnessReadsFailed (S.state shelf.old) (S.state shelf.new) tables_file.now witness_file.now) }
    ensures quiet { UnlessReadFault result (SameFaults (S.state shelf.old) (S.state shelf.new)) }
    ensures reads_only { ReadsOnly (S.state shelf.old) (S.state shelf.new) }
{
    match shape_of_file(alloc, shelf, tables_file)? {
        Shaped::Shape(shape) => answer_to_witness(alloc, shelf, witness_file, &shape, question),
        Shaped::Refused(answer) => Ok(answer),
    }
}

/// The answer to a file of a witness.
fn answer_to_witness<S: Shelf>(
    alloc: Global,
    shelf: &mut S,
    name: &str,
    shape: &Shape,
    question: Question,
) -> Result<Answer, Stop>
    ensures due { IsTrue (S.state shelf.old).told → IfOk result (λ a. IsWitnessFileAnswer (Answering question) shape.now (bytes_of (S.state shelf.old) name.now) (answer_of a)) }
    ensures kind { IfOk result (λ a. EndsCheck a.status) }
    ensures failed { OnReadFault result (ReadFailed (S.state shelf.old) (S.state shelf.new) name.now) }
    ensures quiet { UnlessReadFault result (SameFaults (S.state shelf.old) (S.state shelf.new)) }
    ensures reads_only { ReadsOnly (S.state shelf.old) (S.state shelf.new) }
{
    match read_whole(alloc, shelf, name, MAX_WITNESS_FILE) {
        Ok(file) => Ok(witness_answer(alloc, shape, file.as_slice(), question)?),
        Err(WholeStop::TooLong) => {
            let line = too_long_line(alloc, MAX_WITNESS_FILE)?;
            Ok(made(Status::TooLong, line))
        }
        Err(WholeStop::ReadFault) => Err(Stop::ReadFault),
        Err(WholeStop::NoMemory) => Err(Stop::NoMemory),
    }
}

/// The answer to the bytes of a witness.
fn witness_answer(
    alloc: Global,
    shape: &Shape,
    file: &[u8],
    question: Question,
) -> Result<Answer, AllocError>
    ensures due { IfOk result (λ a. IsWitnessAnswer (Answering question) shape.now file.now (answer_of a)) }
    ensures kind { IfOk result (λ a. EndsCheck a.status) }
{
    match read_witness(alloc, shape, file) {
        Ok(store) => Ok(values_answer(alloc, &store, question)?),
        Err(WitnessStop::Fault(fault)) => {
            Ok(made(Status::Witness, witness_fault_line(alloc, fault)?))
        }
        Err(WitnessStop::TooLarge { log_bits }) => {
            Ok(made(Status::TooLarge, too_large_line(alloc, log_bits)?))
        }
        Err(WitnessStop::NoMemory) => Err(AllocError),
    }
}

/// The answer to values.
fn values_answer(alloc: Global, store: &Store, question: Question) -> Result<Answer, AllocError>
    ensures due { IfOk result (λ a. Answering question store.now.shape store.now.rows store.now.filling (answer_of a)) }
    ensures kind { IfOk result (λ a. EndsCheck a.status) }
{
    match question {
        Question::Satisfied => judged(alloc, store),
        Question::Lowered { alpha, gamma } => lowered(alloc, store, alpha, gamma),
    }
}

//! The command `print`.

ghost use Rattle.std.specs.Prelude.{IfOk, OnOk, IsTrue};
ghost use Rattle.byte_ends.specs.Shelf.{bytes_of, ReadFailed, ReadsOnly, SameFaults};
ghost use Rattle.m3_tool.specs.Answer.{IsFileReadOnce, answer_of};
ghost use Rattle.m3_tool.specs.Checking.{EndsCheck, OnReadFault, UnlessReadFault};
ghost use Rattle.m3_tool.specs.Run.{IsPrintAnswer};

use crate::answer::{Answer, made};
use crate::status::Status;
use crate::tables::{Parsed, Stop, tables_of_file};
use byte_ends::Shelf;
use std::alloc::Global;
use table_text::print_tables;

/// The canonical text of the tables in a file.
pub(crate) fn print<S: Shelf>(
    alloc: Global,
    shelf: &mut S,
    tables_file: &str,
) -> Result<Answer, Stop>
    ensures due { IsTrue (S.state shelf.old).told → IfOk result (λ a. IsPrintAnswer (bytes_of (S.state shelf.old) tables_file.now) (answer_of a)) }
    ensures once { IsTrue (S.state shelf.old).told → OnOk result (IsFileReadOnce (bytes_of (S.state shelf.old) tables_file.now)) }
    ensures kind { IfOk result (λ a. EndsCheck a.status) }
    ensures failed { OnReadFault result (ReadFailed (S.state shelf.old) (S.state shelf.new) tables_file.now) }
    ensures quiet { UnlessReadFault result (SameFaults (S.state shelf.old) (S.state shelf.new)) }
    ensures reads_only { ReadsOnly (S.state shelf.old) (S.state shelf.new) }
{
    let tables = match tables_of_file(alloc, shelf, tables_file)? {
        Parsed::Tables(tables) => tables,
        Parsed::Refused(answer) => return Ok(answer),
    };
    match print_tables(alloc, &tables) {
        Ok(text) => Ok(made(Status::Yes, text)),
        Err(_) => Err(Stop::NoMemory),
    }
}

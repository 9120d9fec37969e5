//! A file of tables, read and its text judged.

ghost use Rattle.std.specs.Prelude.{◌≡◌, ◌<◌, ◌^◌, length, IfOk, OnOk, IsTrue};
ghost use Rattle.byte_ends.specs.Shelf.{bytes_of, ReadFailed, ReadsOnly, SameFaults};
ghost use Rattle.m3_tool.specs.Answer.{IsReadOnce};
ghost use Rattle.m3_tool.specs.Checking.{IsParsed, IsParsedFile, OnReadFault, RefusalEnds, UnlessReadFault};

use crate::answer::{Answer, made};
use crate::limits::MAX_TABLES_FILE;
use crate::lines::{text_fault_line, too_long_line};
use crate::status::Status;
use byte_ends::{Shelf, WholeStop, read_whole};
use std::alloc::{AllocError, Global};
use table_text::{Tables, TextStop, read_tables};

/// The tables of a text, or the answer to a text that has none.
#[derive(Drop)]
pub(crate) enum Parsed {
    Tables(Tables),
    Refused(Answer),
}

/// Why there is no answer by the bytes of the files.
#[derive(Clone, Copy, Debug, PartialEq, Eq)]
pub(crate) enum Stop {
    ReadFault,
    NoMemory,
}

impl From<AllocError> for Stop {
    ghost use Rattle.std.specs.Prelude.{◌≡◌};
    ghost use Rattle.m3_tool.specs.declared.tables.Stop.TheVariants.{NoMemory};

    ghost from_gives = { λ _ stop. stop ≡ NoMemory };

    fn from(_failed: AllocError) -> Stop {
        Stop::NoMemory
    }
}

/// The tables of a file.
pub(crate) fn tables_of_file<S: Shelf>(
    alloc: Global,
    shelf: &mut S,
    name: &str,
) -> Result<Parsed, Stop>
    ensures parsed { IsTrue (S.state shelf.old).told → IfOk result (IsParsedFile (bytes_of (S.state shelf.old) name.now)) }
    ensures kind { IfOk result RefusalEnds }
    ensures failed { OnReadFault result (ReadFailed (S.state shelf.old) (S.state shelf.new) name.now) }
    ensures quiet { UnlessReadFault result (SameFaults (S.state shelf.old) (S.state shelf.new)) }
    ensures reads_only { ReadsOnly (S.state shelf.old) (S.state shelf.new) }
{
    match read_whole(alloc, shelf, name, MAX_TABLES_FILE) {
        Ok(text) => Ok(tables_of_text(alloc, text.as_slice())?),
        Err(WholeStop::TooLong) => {
            let line = too_long_line(alloc, MAX_TABLES_FILE)?;
            Ok(Parsed::Refused(made(Status::TooLong, line)))
        }
        Err(WholeStop::ReadFault) => Err(Stop::ReadFault),
        Err(WholeStop::NoMemory) => Err(Stop::NoMemory),
    }
}

/// The tables of the bytes of a file.
fn tables_of_text(alloc: Global, text: &[u8]) -> Result<Parsed, AllocError>
    requires { length text.now < 2 ^ 32 }
    ensures parsed { IfOk result (IsParsed text.now) }
    ensures once { OnOk result (IsReadOnce text.now) }
    ensures kind { IfOk result RefusalEnds }
{
    match read_tables(alloc, text) {
        Ok(tables) => Ok(Parsed::Tables(tables)),
        Err(TextStop::Fault(fault)) => {
            let line = text_fault_line(alloc, fault)?;
            Ok(Parsed::Refused(made(Status::Tables, line)))
        }
        Err(TextStop::NoMemory) => Err(AllocError),
    }
}

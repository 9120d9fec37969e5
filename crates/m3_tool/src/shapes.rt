//! The shape of a file of tables, or the answer to a file that has none.

ghost use Rattle.std.specs.Prelude.{IfOk, IsTrue};
ghost use Rattle.byte_ends.specs.Shelf.{bytes_of, ReadFailed, ReadsOnly, SameFaults};
ghost use Rattle.m3_tool.specs.Checking.{IsShapedFile, IsShapedTables, OnReadFault, RefusalEndsCheck, UnlessReadFault};

use crate::answer::{Answer, made};
use crate::lines::shape_fault_line;
use crate::status::Status;
use crate::tables::{Parsed, Stop, tables_of_file};
use byte_ends::Shelf;
use std::alloc::{AllocError, Global};
use table_shape::{Shape, ShapeStop, resolve};
use table_text::Tables;

/// The shape of tables, or the answer to tables that have none.
#[derive(Drop)]
pub(crate) enum Shaped {
    Shape(Shape),
    Refused(Answer),
}

/// The shape of a file of tables.
pub(crate) fn shape_of_file<S: Shelf>(
    alloc: Global,
    shelf: &mut S,
    name: &str,
) -> Result<Shaped, Stop>
    ensures shape { IsTrue (S.state shelf.old).told → IfOk result (IsShapedFile (bytes_of (S.state shelf.old) name.now)) }
    ensures kind { IfOk result RefusalEndsCheck }
    ensures failed { OnReadFault result (ReadFailed (S.state shelf.old) (S.state shelf.new) name.now) }
    ensures quiet { UnlessReadFault result (SameFaults (S.state shelf.old) (S.state shelf.new)) }
    ensures reads_only { ReadsOnly (S.state shelf.old) (S.state shelf.new) }
{
    let tables = match tables_of_file(alloc, shelf, name)? {
        Parsed::Tables(tables) => tables,
        Parsed::Refused(answer) => return Ok(Shaped::Refused(answer)),
    };
    Ok(shape_of_tables(alloc, &tables)?)
}

/// The shape of tables.
fn shape_of_tables(alloc: Global, tables: &Tables) -> Result<Shaped, AllocError>
    ensures shape { IfOk result (IsShapedTables tables.now) }
    ensures kind { IfOk result RefusalEndsCheck }
{
    match resolve(alloc, tables) {
        Ok(shape) => Ok(Shaped::Shape(shape)),
        Err(ShapeStop::Fault(fault)) => {
            let line = shape_fault_line(alloc, fault)?;
            Ok(Shaped::Refused(made(Status::Tables, line)))
        }
        Err(ShapeStop::NoMemory) => Err(AllocError),
    }
}

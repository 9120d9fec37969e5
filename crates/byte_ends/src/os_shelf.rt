ghost use Rattle.std.specs.Prelude.{◌≡◌, ◌<◌, ◌≤◌, length, IfOk};
ghost use Rattle.byte_ends.specs.Counts.{FaultCounts};
ghost use Rattle.byte_ends.specs.Os.{untold_shelf};
ghost use Rattle.byte_ends.specs.Shelf.{Takes};

use crate::counts::raise;
use crate::failed::Failed;
use crate::shelf::Shelf;
use std::fs::OpenOptions;
use std::io::{ErrorKind, Read, Seek, SeekFrom, Write};
use std::marker::Model;
use std::rt::Files;
use std::{fs, io};

/// Real files, named by their paths. Clauses know nothing of their bytes.
///
/// Reading or appending to a missing file is a fault.
#[derive(Drop)]
pub struct OsShelf<'a, R: Files> {
    runtime: &'a R,
    read_faults: u64,
    write_faults: u64,
}

impl<'a, R: Files> Model for OsShelf<'a, R> {
    ghost Value = { FaultCounts };

    ghost view = { λ shelf. record { reads = shelf.read_faults; writes = shelf.write_faults } };
}

impl<'a, R: Files> OsShelf<'a, R> {
    /// The files of this runtime, with no faults counted.
    pub fn new(runtime: &'a R) -> Self
        ensures { result ≡ record { reads = 0; writes = 0 } }
    {
        OsShelf {
            runtime,
            read_faults: 0,
            write_faults: 0,
        }
    }
}

impl<'a, R: Files> Shelf for OsShelf<'a, R> {
    ghost state = { untold_shelf };

    fn read(&mut self, name: &str, at: u64, into: &mut [u8]) -> Result<usize, Failed> {
        match read_at(self.runtime, name, at, into) {
            Ok(count) => Ok(count),
            Err(_) => {
                self.read_faults = raise(self.read_faults);
                Err(Failed)
            }
        }
    }

    fn create(&mut self, name: &str) -> Result<(), Failed> {
        match fs::create(self.runtime, name) {
            Ok(_) => Ok(()),
            Err(_) => {
                self.write_faults = raise(self.write_faults);
                Err(Failed)
            }
        }
    }

    fn append(&mut self, name: &str, piece: &[u8]) -> Result<usize, Failed> {
        match append_to(self.runtime, name, piece) {
            Ok(count) => Ok(count),
            Err(_) => {
                self.write_faults = raise(self.write_faults);
                Err(Failed)
            }
        }
    }
}

fn read_at<R: Files>(runtime: &R, name: &str, at: u64, into: &mut [u8]) -> io::Result<usize>
    ensures { IfOk result (λ count. count ≤ length into.old) }
{
    let mut file = fs::open(runtime, name)?;
    file.seek(SeekFrom::Start(at))?;
    file.read(into)
}

// A piece of which nothing is taken is an error, unless it is empty.
fn append_to<R: Files>(runtime: &R, name: &str, piece: &[u8]) -> io::Result<usize>
    ensures { IfOk result (Takes piece.now) }
{
    let mut options = OpenOptions::new();
    options.append(true);
    let mut file = options.open(runtime, name)?;
    let count = file.write(piece)?;
    if count == 0 && !piece.is_empty() {
        return Err(io::Error::from(ErrorKind::WriteZero));
    }
    Ok(count)
}

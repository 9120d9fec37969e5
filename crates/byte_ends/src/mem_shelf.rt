ghost use Rattle.std.specs.Prelude.{◌≡◌, ℕ, ◌+◌, ◌-◌, ◌<◌, ◌≤◌, ◌++◌, ◌↔◌, [], ◌∷◌, Some, None, if◌then◌else◌, is_some, length, take, drop, min, max, vec_len, Contains, IsTrue, IsSome, IsNone, IsOk, IsErr, IfOk, IfNone, IfSome, OnOk, OnErr};
ghost use Rattle.std.specs.Option.{option_copied};
ghost use Rattle.byte_ends.specs.MemFile.{FileState, bytes_in, find_file, TakesNothing, taken_count, with_bytes};
ghost use Rattle.byte_ends.specs.MemShelf.{MemShelfState, file_of, shelf_state, IsListed, ReadFails, CreateFails, AppendFails, given_count, with_file, called, read_faulted, write_faulted};
ghost use Rattle.byte_ends.specs.Shelf.{bytes_of, SameFiles, SameReadFaults, SameFaults, NoCountFalls, ReadFailed, WriteFailed, ReadsOnly, Gives, Empties, Appends, Takes};

use crate::counts::raise;
use crate::failed::Failed;
use crate::mem_file::{MemFile, place_of};
use crate::no_memory::NoMemory;
use crate::shelf::Shelf;
use std::alloc::Global;
use std::marker::Model;

/// Files in memory, which give and take pieces of at most `chunk` bytes and fail at listed calls.
///
/// The calls of `Shelf` are numbered from 0. The files that may grow take their memory ahead,
/// by `put_file` and `reserve`.
#[derive(Drop)]
pub struct MemShelf {
    alloc: Global,
    chunk: usize,
    failing: Vec<u64>,
    calls: u64,
    files: Vec<MemFile>,
    read_faults: u64,
    write_faults: u64,
    other_read_faults: u64,
    other_write_faults: u64,
}

impl Model for MemShelf {
    ghost Value = { MemShelfState };

    ghost view = { λ shelf. record {
      chunk = shelf.chunk;
      failing = shelf.failing.items;
      calls = shelf.calls;
      files = shelf.files.items;
      read_faults = shelf.read_faults;
      write_faults = shelf.write_faults;
      other_read_faults = shelf.other_read_faults;
      other_write_faults = shelf.other_write_faults;
    } };

    ghost invariant = { λ shelf. 1 ≤ shelf.chunk };
}

impl MemShelf {
    /// A shelf without files, whose calls of these numbers fail.
    pub fn new(alloc: Global, chunk: usize, failing: Vec<u64>) -> Self
        requires { 1 ≤ chunk }
        ensures { result ≡ record {
          chunk = chunk;
          failing = failing.items;
          calls = 0;
          files = [];
          read_faults = 0;
          write_faults = 0;
          other_read_faults = 0;
          other_write_faults = 0;
        } }
    {
        MemShelf {
            alloc,
            chunk,
            failing,
            calls: 0,
            files: Vec::new(alloc),
            read_faults: 0,
            write_faults: 0,
            other_read_faults: 0,
            other_write_faults: 0,
        }
    }

    /// The bytes of the file of this name, where there is one.
    pub fn file(&self, name: &str) -> Option<&[u8]>
        ensures { option_copied result ≡ (file_of self.now name.now).bytes }
    {
        match place_of(&self.files, name) {
            Some(place) => self.files[place].bytes(),
            None => None,
        }
    }

    /// Sets a file. Its room is then at least its length.
    pub fn put_file(&mut self, name: &str, bytes: &[u8]) -> Result<(), NoMemory>
        ensures put { OnOk result (self.new ≡ with_file self.old (record (file_of self.old name.now) {
          bytes = Some bytes.now;
          room = max (file_of self.old name.now).room (length bytes.now);
        })) }
        ensures unchanged { OnErr result (self.new ≡ self.old) }
    {
        match place_of(&self.files, name) {
            Some(place) => {
                self.files[place].put(bytes)?;
                Ok(())
            }
            None => {
                let mut file = MemFile::new(
                    self.alloc,
                    name,
                    self.other_read_faults,
                    self.other_write_faults,
                )?;
                file.put(bytes)?;
                self.files.push(file)?;
                Ok(())
            }
        }
    }

    /// Lets the file of this name grow to `room` bytes, and makes no file. A room never falls.
    pub fn reserve(&mut self, name: &str, room: usize) -> Result<(), NoMemory>
        ensures reserved { OnOk result (self.new ≡ with_file self.old (record (file_of self.old name.now) {
          room = max (file_of self.old name.now).room room;
        })) }
        ensures unchanged { OnErr result (self.new ≡ self.old) }
    {
        match place_of(&self.files, name) {
            Some(place) => {
                self.files[place].reserve(room)?;
                Ok(())
            }
            None => {
                let mut file = MemFile::new(
                    self.alloc,
                    name,
                    self.other_read_faults,
                    self.other_write_faults,
                )?;
                file.reserve(room)?;
                self.files.push(file)?;
                Ok(())
            }
        }
    }

    // Counts a call, and answers whether its number is listed.
    fn begin_call(&mut self) -> bool
        ensures listed { IsTrue result ↔ IsListed self.old }
        ensures counted { self.new ≡ called self.old }
    {
        let listed = self.failing.contains(&self.calls);
        self.calls = raise(self.calls);
        listed
    }

    fn count_read_fault(&mut self, name: &str)
        ensures { self.new ≡ read_faulted self.old name.now }
    {
        self.read_faults = raise(self.read_faults);
        match place_of(&self.files, name) {
            Some(place) => self.files[place].count_read_fault(),
            None => self.other_read_faults = raise(self.other_read_faults),
        }
    }

    fn count_write_fault(&mut self, name: &str)
        ensures { self.new ≡ write_faulted self.old name.now }
    {
        self.write_faults = raise(self.write_faults);
        match place_of(&self.files, name) {
            Some(place) => self.files[place].count_write_fault(),
            None => self.other_write_faults = raise(self.other_write_faults),
        }
    }

    // Gives bytes of a file, where it is there.
    fn give(&self, name: &str, at: u64, into: &mut [u8]) -> Option<usize>
        ensures fails { IsNone result ↔ IsNone (file_of self.now name.now).bytes }
        ensures count { IfSome result (λ count. count ≡ given_count self.now name.now at into.old) }
        ensures given { IfSome result (λ count. into.new ≡ take count (drop at (bytes_in (file_of self.now name.now))) ++ drop count into.old) }
        ensures some { IfSome result (λ count. 0 < length into.old → at < length (bytes_in (file_of self.now name.now)) → 0 < count) }
        ensures unchanged { IfNone result (into.new ≡ into.old) }
    {
        let bytes = self.file(name)?;
        Some(copy_piece(bytes, at, self.chunk, into))
    }

    // Empties a file, where its name was put or reserved.
    fn make_empty(&mut self, name: &str) -> bool
        ensures known { result ≡ is_some (find_file self.old.files name.now) }
        ensures after { self.new ≡ (if result then with_file self.old (record (file_of self.old name.now) { bytes = Some [] }) else self.old) }
    {
        match place_of(&self.files, name) {
            Some(place) => {
                self.files[place].fill(&[]);
                true
            }
            None => false,
        }
    }

    // Adds the first bytes of a piece to a file, where it is there and its room is not used up.
    fn add_piece(&mut self, name: &str, piece: &[u8]) -> Option<usize>
        ensures fails { IsNone result ↔ TakesNothing (file_of self.old name.now) piece.now }
        ensures unchanged { IfNone result (self.new ≡ self.old) }
        ensures count { IfSome result (λ count. count ≡ taken_count (file_of self.old name.now) piece.now self.old.chunk) }
        ensures some { IfSome result (λ count. 0 < length piece.now → 0 < count) }
        ensures added { IfSome result (λ count. self.new ≡ with_file self.old (with_bytes (file_of self.old name.now) (take count piece.now))) }
    {
        let chunk = self.chunk;
        match place_of(&self.files, name) {
            Some(place) => {
                let count = self.files[place].append(piece, chunk)?;
                Some(count)
            }
            None => None,
        }
    }
}

impl Shelf for MemShelf {
    ghost state = { shelf_state };

    fn read(&mut self, name: &str, at: u64, into: &mut [u8]) -> Result<usize, Failed>
        ensures fails { IsErr result ↔ ReadFails self.old name.now }
        ensures count { IfOk result (λ count. count ≡ given_count self.old name.now at into.old) }
        ensures bytes { IfOk result (λ count. into.new ≡ take count (drop at (bytes_in (file_of self.old name.now))) ++ drop count into.old) }
        ensures after_ok { OnOk result (self.new ≡ called self.old) }
        ensures after_err { OnErr result (self.new ≡ read_faulted (called self.old) name.now) }

        // What every shelf ensures.
        ensures given { IfOk result (λ count. IsTrue (shelf_state self.old).told → Gives (bytes_of (shelf_state self.old) name.now) into.new at count) }
        ensures failed { OnErr result (ReadFailed (shelf_state self.old) (shelf_state self.new) name.now) }
        ensures reads_only { ReadsOnly (shelf_state self.old) (shelf_state self.new) }
    {
        if !self.begin_call() {
            if let Some(count) = self.give(name, at, into) {
                return Ok(count);
            }
        }
        self.count_read_fault(name);
        Err(Failed)
    }

    fn create(&mut self, name: &str) -> Result<(), Failed>
        ensures fails { IsErr result ↔ CreateFails self.old name.now }
        ensures after_ok { OnOk result (self.new ≡ with_file (called self.old) (record (file_of self.old name.now) { bytes = Some [] })) }
        ensures after_err { OnErr result (self.new ≡ write_faulted (called self.old) name.now) }

        // What every shelf ensures.
        ensures empty { OnOk result (Empties (shelf_state self.old) (shelf_state self.new) name.now) }
        ensures quiet { OnOk result (SameFaults (shelf_state self.old) (shelf_state self.new)) }
        ensures failed { OnErr result (WriteFailed (shelf_state self.old) (shelf_state self.new) name.now) }
        ensures unchanged { OnErr result (IsTrue (shelf_state self.new).told → SameFiles (shelf_state self.old) (shelf_state self.new)) }
        ensures read_faults { SameReadFaults (shelf_state self.old) (shelf_state self.new) }
        ensures counts { NoCountFalls (shelf_state self.old) (shelf_state self.new) }
    {
        if !self.begin_call() && self.make_empty(name) {
            return Ok(());
        }
        self.count_write_fault(name);
        Err(Failed)
    }

    fn append(&mut self, name: &str, piece: &[u8]) -> Result<usize, Failed>
        ensures fails { IsErr result ↔ AppendFails self.old name.now piece.now }
        ensures count { IfOk result (λ count. count ≡ taken_count (file_of self.old name.now) piece.now self.old.chunk) }
        ensures after_ok { IfOk result (λ count. self.new ≡ with_file (called self.old) (with_bytes (file_of self.old name.now) (take count piece.now))) }
        ensures after_err { OnErr result (self.new ≡ write_faulted (called self.old) name.now) }

        // What every shelf ensures.
        ensures taken { IfOk result (Takes piece.now) }
        ensures added { IfOk result (λ count. Appends (shelf_state self.old) (shelf_state self.new) name.now (take count piece.now)) }
        ensures quiet { OnOk result (SameFaults (shelf_state self.old) (shelf_state self.new)) }
        ensures failed { OnErr result (WriteFailed (shelf_state self.old) (shelf_state self.new) name.now) }
        ensures unchanged { OnErr result (IsTrue (shelf_state self.new).told → SameFiles (shelf_state self.old) (shelf_state self.new)) }
        ensures read_faults { SameReadFaults (shelf_state self.old) (shelf_state self.new) }
        ensures counts { NoCountFalls (shelf_state self.old) (shelf_state self.new) }
    {
        if !self.begin_call() {
            if let Some(count) = self.add_piece(name, piece) {
                return Ok(count);
            }
        }
        self.count_write_fault(name);
        Err(Failed)
    }
}

// Copies the bytes from `at` on, as far as they go and at most `chunk` of them.
fn copy_piece(bytes: &[u8], at: u64, chunk: usize, into: &mut [u8]) -> usize
    ensures count { result ≡ min chunk (min (length into.old) (length bytes.now - at)) }
    ensures given { into.new ≡ take result (drop at bytes.now) ++ drop result into.old }
{
    if at >= bytes.len() as u64 {
        return 0;
    }
    let rest = &bytes[at as usize..];
    let count = chunk.min(into.len()).min(rest.len());
    into[..count].copy_from_slice(&rest[..count]);
    count
}

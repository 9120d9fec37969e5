ghost use Rattle.std.specs.Prelude.{◌≡◌, ℕ, ◌+◌, ◌-◌, ◌<◌, ◌≤◌, ◌++◌, [], Some, None, if◌then◌else◌, length, take, max, string_bytes, vec_len, vec_capacity, IsNone, IfOk, IfNone, IfSome, OnOk, OnErr, ◌↔◌};
ghost use Rattle.std.specs.Option.{option_copied};
ghost use Rattle.std.specs.List.{position};
ghost use Rattle.std.specs.Str.{bytes_eq};
ghost use Rattle.byte_ends.specs.Counts.{raised};
ghost use Rattle.byte_ends.specs.MemFile.{FileState, bytes_in, TakesNothing, taken_count, with_bytes};

use crate::counts::raise;
use crate::no_memory::NoMemory;
use std::alloc::Global;
use std::marker::Model;

/// A name of a `MemShelf` that was put or reserved, and its file where one was made.
#[derive(Drop)]
pub struct MemFile {
    name: String,
    made: bool,
    bytes: Vec<u8>,
    room: usize,
    read_faults: u64,
    write_faults: u64,
}

impl Model for MemFile {
    ghost Value = { FileState };

    ghost view = { λ file. record {
      name = string_bytes file.name;
      bytes = (if file.made then Some file.bytes.items else None);
      room = file.room;
      read_faults = file.read_faults;
      write_faults = file.write_faults;
    } };

    // The memory for the room is taken.
    ghost invariant = { λ file. (vec_len file.bytes ≤ file.room) × (file.room ≤ vec_capacity file.bytes) };
}

impl MemFile {
    /// A name without a file and without room.
    pub fn new(
        alloc: Global,
        name: &str,
        read_faults: u64,
        write_faults: u64,
    ) -> Result<Self, NoMemory>
        ensures { IfOk result (λ file. file ≡ record {
          name = name.now;
          bytes = None;
          room = 0;
          read_faults = read_faults;
          write_faults = write_faults;
        }) }
    {
        let name = String::from_str(alloc, name)?;
        Ok(MemFile {
            name,
            made: false,
            bytes: Vec::new(alloc),
            room: 0,
            read_faults,
            write_faults,
        })
    }

    pub fn is_named(&self, name: &str) -> bool
        ensures { result ≡ bytes_eq self.now.name name.now }
    {
        self.name.as_str() == name
    }

    /// The bytes, where a file was made.
    pub fn bytes(&self) -> Option<&[u8]>
        ensures { option_copied result ≡ self.now.bytes }
    {
        if self.made {
            Some(self.bytes.as_slice())
        } else {
            None
        }
    }

    pub fn count_read_fault(&mut self)
        ensures { self.new ≡ record self.old { read_faults = raised self.old.read_faults } }
    {
        self.read_faults = raise(self.read_faults);
    }

    pub fn count_write_fault(&mut self)
        ensures { self.new ≡ record self.old { write_faults = raised self.old.write_faults } }
    {
        self.write_faults = raise(self.write_faults);
    }

    /// Takes the memory for the room.
    pub fn reserve(&mut self, room: usize) -> Result<(), NoMemory>
        ensures reserved { OnOk result (self.new ≡ record self.old { room = max self.old.room room }) }
        ensures unchanged { OnErr result (self.new ≡ self.old) }
    {
        if room > self.room {
            self.bytes.reserve(room - self.bytes.len())?;
            self.room = room;
        }
        Ok(())
    }

    /// Sets the bytes.
    pub fn put(&mut self, bytes: &[u8]) -> Result<(), NoMemory>
        ensures put { OnOk result (self.new ≡ record self.old {
          bytes = Some bytes.now;
          room = max self.old.room (length bytes.now);
        }) }
        ensures unchanged { OnErr result (self.new ≡ self.old) }
    {
        self.reserve(bytes.len())?;
        self.fill(bytes);
        Ok(())
    }

    /// Sets the bytes, for which there is room.
    pub fn fill(&mut self, bytes: &[u8])
        requires { length bytes.now ≤ self.old.room }
        ensures { self.new ≡ record self.old { bytes = Some bytes.now } }
    {
        self.bytes.clear();
        self.made = true;
        self.bytes.extend_from_slice(bytes).unwrap();
    }

    /// Adds the first bytes of a piece, at most `chunk` of them, and answers how many.
    pub fn append(&mut self, piece: &[u8], chunk: usize) -> Option<usize>
        ensures fails { IsNone result ↔ TakesNothing self.old piece.now }
        ensures unchanged { IfNone result (self.new ≡ self.old) }
        ensures count { IfSome result (λ count. count ≡ taken_count self.old piece.now chunk) }
        ensures added { IfSome result (λ count. self.new ≡ with_bytes self.old (take count piece.now)) }
    {
        let free = self.room - self.bytes.len();
        if !self.made || (free == 0 && !piece.is_empty()) {
            return None;
        }
        let count = chunk.min(piece.len().min(free));
        self.bytes.extend_from_slice(&piece[..count]).unwrap();
        Some(count)
    }
}

/// The place of the first file of this name.
pub fn place_of(files: &[MemFile], name: &str) -> Option<usize>
    ensures { result ≡ position (λ file. bytes_eq file.name name.now) files.now }
{
    files.iter().position(|file| file.is_named(name))
}

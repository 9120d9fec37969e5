ghost use Rattle.std.specs.Prelude.{◌≡◌, ℕ, ◌<◌, ◌≤◌, ◌↔◌, [], ◌++◌, length, take, vec_len, vec_capacity, IsErr, IfOk, OnOk, OnErr};
ghost use Rattle.byte_ends.specs.MemSink.{MemSinkState, sink_state, PutFails, put_count, after_put, after_failed_put};

use crate::counts::raise;
use crate::failed::Failed;
use crate::no_memory::NoMemory;
use crate::sink::Sink;
use std::alloc::Global;
use std::marker::Model;

/// A sink in memory, which takes pieces of at most `chunk` bytes and fails at listed calls.
///
/// The calls of `Sink` are numbered from 0.
#[derive(Drop)]
pub struct MemSink {
    chunk: usize,
    failing: Vec<u64>,
    calls: u64,
    bytes: Vec<u8>,
    room: usize,
    faults: u64,
}

impl Model for MemSink {
    ghost Value = { MemSinkState };

    ghost view = { λ sink. record {
      chunk = sink.chunk;
      failing = sink.failing.items;
      calls = sink.calls;
      bytes = sink.bytes.items;
      room = sink.room;
      faults = sink.faults;
    } };

    // The memory for the room is taken.
    ghost invariant = { λ sink. (1 ≤ sink.chunk) × (vec_len sink.bytes ≤ sink.room) × (sink.room ≤ vec_capacity sink.bytes) };
}

impl MemSink {
    /// An empty sink whose calls of these numbers fail. Takes the memory for `room` bytes.
    pub fn new(
        alloc: Global,
        chunk: usize,
        failing: Vec<u64>,
        room: usize,
    ) -> Result<Self, NoMemory>
        requires { 1 ≤ chunk }
        ensures { IfOk result (λ sink. sink ≡ record {
          chunk = chunk;
          failing = failing.items;
          calls = 0;
          bytes = [];
          room = room;
          faults = 0;
        }) }
    {
        let bytes = Vec::with_capacity(alloc, room)?;
        Ok(MemSink {
            chunk,
            failing,
            calls: 0,
            bytes,
            room,
            faults: 0,
        })
    }

    /// The bytes that were put.
    pub fn bytes(&self) -> &[u8]
        ensures { result.now ≡ self.now.bytes }
    {
        self.bytes.as_slice()
    }
}

impl Sink for MemSink {
    ghost state = { sink_state };

    fn put(&mut self, piece: &[u8]) -> Result<usize, Failed>
        ensures fails { IsErr result ↔ PutFails self.old piece.now }
        ensures count { IfOk result (λ count. count ≡ put_count self.old piece.now) }
        ensures some { IfOk result (λ count. 0 < length piece.now → 0 < count) }
        ensures after_ok { IfOk result (λ count. self.new ≡ after_put self.old piece.now count) }
        ensures after_err { OnErr result (self.new ≡ after_failed_put self.old) }
    {
        let listed = self.failing.contains(&self.calls);
        self.calls = raise(self.calls);
        let free = self.room - self.bytes.len();
        if listed || (free == 0 && !piece.is_empty()) {
            self.faults = raise(self.faults);
            return Err(Failed);
        }
        let count = self.chunk.min(piece.len().min(free));
        self.bytes.extend_from_slice(&piece[..count]).unwrap();
        Ok(count)
    }
}

ghost use Rattle.std.specs.Prelude.{◌≡◌, ℕ};
ghost use Rattle.byte_ends.specs.Os.{untold_sink};

use crate::counts::raise;
use crate::failed::Failed;
use crate::sink::Sink;
use std::marker::Model;

/// Standard output. Clauses know nothing of its bytes.
#[derive(Drop)]
pub struct OsSink<'a, R: Print> {
    runtime: &'a R,
    faults: u64,
}

impl<'a, R: Print> Model for OsSink<'a, R> {
    ghost Value = { ℕ };

    ghost view = { λ sink. sink.faults };
}

impl<'a, R: Print> OsSink<'a, R> {
    /// The standard output of this runtime, with no faults counted.
    pub fn new(runtime: &'a R) -> Self
        ensures { result ≡ 0 }
    {
        OsSink { runtime, faults: 0 }
    }
}

impl<'a, R: Print> Sink for OsSink<'a, R> {
    ghost state = { untold_sink };

    // A piece of which nothing is taken is an error, unless it is empty.
    fn put(&mut self, piece: &[u8]) -> Result<usize, Failed> {
        match self.runtime.write_some(piece) {
            Ok(count) if count > 0 || piece.is_empty() => Ok(count),
            _ => {
                self.faults = raise(self.faults);
                Err(Failed)
            }
        }
    }
}

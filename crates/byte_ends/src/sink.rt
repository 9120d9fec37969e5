ghost use Rattle.std.specs.Prelude.{◌≡◌, ℕ, ◌≤◌, [], take, IfOk, OnOk, OnErr};
ghost use Rattle.byte_ends.specs.Counts.{Rose};
ghost use Rattle.byte_ends.specs.Shelf.{Takes};
ghost use Rattle.byte_ends.specs.Sink.{SinkState, Puts};

use crate::failed::Failed;

/// An end that takes bytes, in pieces of any size.
///
/// A sink may tell its bytes: then clauses speak of all that was put so far.
pub trait Sink {
    // The bytes and the count of faults that clauses speak of.
    ghost state: { Self → SinkState };

    /// Takes the first bytes of a piece, and answers how many.
    fn put(&mut self, piece: &[u8]) -> Result<usize, Failed>
        ensures taken { IfOk result (Takes piece.now) }
        ensures added { IfOk result (λ count. Puts (state self.old) (state self.new) (take count piece.now)) }
        ensures quiet { OnOk result ((state self.new).faults ≡ (state self.old).faults) }
        ensures failed { OnErr result (Rose (state self.old).faults (state self.new).faults) }
        ensures unchanged { OnErr result (Puts (state self.old) (state self.new) []) }
        ensures count { (state self.old).faults ≤ (state self.new).faults }
        ensures telling { (state self.new).told ≡ (state self.old).told };
}

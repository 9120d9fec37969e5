ghost use Rattle.std.specs.Prelude.{◌≡◌, ℕ, ◌<◌, ◌≤◌, length, take, IsTrue, IfOk, OnOk, OnErr};
ghost use Rattle.byte_ends.specs.Shelf.{ShelfState, bytes_of, SameFiles, SameReadFaults, SameWriteFaults, SameFaults, NoCountFalls, ReadFailed, WriteFailed, ReadsOnly, TellsNoMore, Gives, Empties, Appends, Takes};

use crate::failed::Failed;

/// Files by name, read and written in pieces of any size.
///
/// A shelf may tell its files: then clauses speak of their bytes, and the counts of
/// faults are kept for each name too. A file that a telling shelf doesn't have stands for no bytes.
pub trait Shelf {
    // The files and the counts of faults that clauses speak of.
    ghost state: { Self → ShelfState };

    /// Reads bytes of a file from the place `at` on, and answers how many it gave.
    fn read(&mut self, name: &str, at: u64, into: &mut [u8]) -> Result<usize, Failed>
        ensures within { IfOk result (λ count. count ≤ length into.old) }
        ensures given { IfOk result (λ count. IsTrue (state self.old).told → Gives (bytes_of (state self.old) name.now) into.new at count) }
        ensures quiet { OnOk result (SameFaults (state self.old) (state self.new)) }
        ensures failed { OnErr result (ReadFailed (state self.old) (state self.new) name.now) }
        ensures reads_only { ReadsOnly (state self.old) (state self.new) };

    /// Makes the file of this name empty, whether it was there or not.
    fn create(&mut self, name: &str) -> Result<(), Failed>
        ensures empty { OnOk result (Empties (state self.old) (state self.new) name.now) }
        ensures quiet { OnOk result (SameFaults (state self.old) (state self.new)) }
        ensures failed { OnErr result (WriteFailed (state self.old) (state self.new) name.now) }
        ensures unchanged { OnErr result (IsTrue (state self.new).told → SameFiles (state self.old) (state self.new)) }
        ensures read_faults { SameReadFaults (state self.old) (state self.new) }
        ensures counts { NoCountFalls (state self.old) (state self.new) }
        ensures telling { TellsNoMore (state self.old) (state self.new) };

    /// Adds the first bytes of a piece at the end of a file, and answers how many it took.
    fn append(&mut self, name: &str, piece: &[u8]) -> Result<usize, Failed>
        ensures taken { IfOk result (Takes piece.now) }
        ensures added { IfOk result (λ count. Appends (state self.old) (state self.new) name.now (take count piece.now)) }
        ensures quiet { OnOk result (SameFaults (state self.old) (state self.new)) }
        ensures failed { OnErr result (WriteFailed (state self.old) (state self.new) name.now) }
        ensures unchanged { OnErr result (IsTrue (state self.new).told → SameFiles (state self.old) (state self.new)) }
        ensures read_faults { SameReadFaults (state self.old) (state self.new) }
        ensures counts { NoCountFalls (state self.old) (state self.new) }
        ensures telling { TellsNoMore (state self.old) (state self.new) };
}

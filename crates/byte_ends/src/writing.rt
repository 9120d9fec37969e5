ghost use Rattle.std.specs.Prelude.{◌≡◌, ℕ, ◌≤◌, OnOk, OnErr};
ghost use Rattle.byte_ends.specs.Shelf.{SameReadFaults, SameFaults, NoCountFalls, WriteFailed, TellsNoMore, Appends, AppendsPrefix};

use crate::failed::Failed;
use crate::putting::WriteFault;
use crate::shelf::Shelf;

/// Adds all of the bytes at the end of a file, in as many pieces as the shelf takes. After an
/// error a first part of them was added.
pub fn write_whole<S: Shelf>(shelf: &mut S, name: &str, bytes: &[u8]) -> Result<(), WriteFault>
    ensures done { OnOk result (Appends (S.state shelf.old) (S.state shelf.new) name.now bytes.now) }
    ensures quiet { OnOk result (SameFaults (S.state shelf.old) (S.state shelf.new)) }
    ensures fault { OnErr result (WriteFailed (S.state shelf.old) (S.state shelf.new) name.now) }
    ensures prefix { OnErr result (AppendsPrefix (S.state shelf.old) (S.state shelf.new) name.now bytes.now) }
    ensures read_faults { SameReadFaults (S.state shelf.old) (S.state shelf.new) }
    ensures counts { NoCountFalls (S.state shelf.old) (S.state shelf.new) }
    ensures telling { TellsNoMore (S.state shelf.old) (S.state shelf.new) }
{
    let mut done = 0;
    while done < bytes.len() {
        match shelf.append(name, &bytes[done..]) {
            Ok(count) => done += count,
            Err(Failed) => return Err(WriteFault),
        }
    }
    Ok(())
}

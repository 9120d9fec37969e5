ghost use Rattle.std.specs.Prelude.{◌≡◌, ℕ, ◌≤◌, OnOk, OnErr};
ghost use Rattle.byte_ends.specs.Counts.{Rose};
ghost use Rattle.byte_ends.specs.Sink.{Puts, PutsPrefix};

use crate::failed::Failed;
use crate::sink::Sink;

/// A write failed. The count of write faults has risen.
#[derive(Clone, Copy, Debug, PartialEq, Eq)]
pub struct WriteFault;

/// Puts all of the bytes, in as many pieces as the sink wants. After an error a first part of
/// them was put.
pub fn put_whole<W: Sink>(sink: &mut W, bytes: &[u8]) -> Result<(), WriteFault>
    ensures done { OnOk result (Puts (W.state sink.old) (W.state sink.new) bytes.now) }
    ensures quiet { OnOk result ((W.state sink.new).faults ≡ (W.state sink.old).faults) }
    ensures fault { OnErr result (Rose (W.state sink.old).faults (W.state sink.new).faults) }
    ensures prefix { OnErr result (PutsPrefix (W.state sink.old) (W.state sink.new) bytes.now) }
    ensures count { (W.state sink.old).faults ≤ (W.state sink.new).faults }
    ensures telling { (W.state sink.new).told ≡ (W.state sink.old).told }
{
    let mut done = 0;
    while done < bytes.len() {
        match sink.put(&bytes[done..]) {
            Ok(count) => done += count,
            Err(Failed) => return Err(WriteFault),
        }
    }
    Ok(())
}

ghost use Rattle.std.specs.Prelude.{◌≡◌, ℕ, ◌<◌, ◌≤◌, length, take, vec_len, IsTrue, IsOk, IfOk};
ghost use Rattle.byte_ends.specs.ReadStop.{OnFault, UnlessFault};
ghost use Rattle.byte_ends.specs.Shelf.{bytes_of, SameFaults, ReadFailed, ReadsOnly};
ghost use Rattle.byte_ends.specs.WholeStop.{OnTooLong, OnReadFault, UnlessReadFault};

use crate::failed::Failed;
use crate::shelf::Shelf;
use std::alloc::Global;

/// Why a file was not read.
#[derive(Clone, Copy, Debug, PartialEq, Eq)]
pub enum ReadStop {
    /// A read failed. The count of read faults has risen.
    ReadFault,
    /// Out of memory.
    NoMemory,
}

/// Why a file was not read whole.
#[derive(Clone, Copy, Debug, PartialEq, Eq)]
pub enum WholeStop {
    /// The file has more bytes than the limit.
    TooLong,
    /// A read failed. The count of read faults has risen.
    ReadFault,
    /// Out of memory.
    NoMemory,
}

/// Bytes asked of the shelf in one read.
const PIECE: usize = 65_536;

/// Reads all bytes of a file where they are at most `limit`, else its first `limit` bytes, in as
/// many pieces as the shelf gives.
pub fn read_upto<S: Shelf>(
    alloc: Global,
    shelf: &mut S,
    name: &str,
    limit: u64,
) -> Result<Vec<u8>, ReadStop>
    ensures first { IfOk result (λ bytes. IsTrue (S.state shelf.old).told → bytes.items ≡ take limit (bytes_of (S.state shelf.old) name.now)) }
    ensures within { IfOk result (λ bytes. vec_len bytes ≤ limit) }
    ensures fault { OnFault result (ReadFailed (S.state shelf.old) (S.state shelf.new) name.now) }
    ensures quiet { UnlessFault result (SameFaults (S.state shelf.old) (S.state shelf.new)) }
    ensures reads_only { ReadsOnly (S.state shelf.old) (S.state shelf.new) }
{
    let mut bytes = Vec::new(alloc);
    let mut buffer = [0; PIECE];
    while (bytes.len() as u64) < limit {
        let at = bytes.len() as u64;
        let wanted = (limit - at).min(PIECE as u64) as usize;
        let piece = &mut buffer[..wanted];
        match shelf.read(name, at, piece) {
            Ok(0) => break,
            Ok(count) => {
                if bytes.extend_from_slice(&piece[..count]).is_err() {
                    return Err(ReadStop::NoMemory);
                }
            }
            Err(Failed) => return Err(ReadStop::ReadFault),
        }
    }
    Ok(bytes)
}

/// Reads a whole file of at most `limit` bytes, in as many pieces as the shelf gives.
pub fn read_whole<S: Shelf>(
    alloc: Global,
    shelf: &mut S,
    name: &str,
    limit: u64,
) -> Result<Vec<u8>, WholeStop>
    ensures whole { IfOk result (λ whole. IsTrue (S.state shelf.old).told → whole.items ≡ bytes_of (S.state shelf.old) name.now) }
    ensures within { IfOk result (λ whole. vec_len whole ≤ limit) }
    ensures too_long { OnTooLong result (IsTrue (S.state shelf.old).told → limit < length (bytes_of (S.state shelf.old) name.now)) }
    ensures not_short { IsTrue (S.state shelf.old).told → limit < length (bytes_of (S.state shelf.old) name.now) → ¬ IsOk result }
    ensures fault { OnReadFault result (ReadFailed (S.state shelf.old) (S.state shelf.new) name.now) }
    ensures quiet { UnlessReadFault result (SameFaults (S.state shelf.old) (S.state shelf.new)) }
    ensures reads_only { ReadsOnly (S.state shelf.old) (S.state shelf.new) }
{
    match read_upto(alloc, shelf, name, limit.saturating_add(1)) {
        Ok(bytes) if bytes.len() as u64 > limit => Err(WholeStop::TooLong),
        Ok(bytes) => Ok(bytes),
        Err(ReadStop::ReadFault) => Err(WholeStop::ReadFault),
        Err(ReadStop::NoMemory) => Err(WholeStop::NoMemory),
    }
}

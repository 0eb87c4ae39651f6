//! The front of what a reader has left, read in large pieces.
ghost use Rattle.std.specs.Prelude.{◌≡◌, ℕ, ◌+◌, ◌^◌, ◌<◌, ◌≤◌, IfOk, IfSome, OnOk, OnErr, drop, length, take, vec_len};
ghost use Rattle.std.specs.Io.{ReadsAtMost, StartsWith};
ghost use Rattle.std.specs.Io.KnownBytes.{Consumes, IsAtEnd, Keeps};

use std::alloc::Global;
use std::io::{ErrorKind, Read};

/// How often one call of a stream is made, where signals interrupt it, before it counts as failed.
pub(crate) const MOST_TRIES: u32 = 1000;

/// The room that a read is given, in bytes, where the limit leaves as much.
const PIECE: usize = 131_072;

/// Why a reader's bytes were not had.
#[derive(Clone, Copy, Debug, PartialEq, Eq)]
pub(crate) enum ReadFault {
    /// A read failed.
    Failed,
    /// Memory ran out.
    Memory,
}

/// The bytes that the reader has left, or the first `limit` + 1 of them where they are more.
///
/// `expected` is how many bytes are likely to come, 0 where that isn't known. Where no more come,
/// no byte is copied after it was read, and otherwise each once at most.
pub(crate) fn read_front<F: Read>(
    alloc: Global,
    reader: &mut F,
    limit: u64,
    expected: u64,
) -> Result<Vec<u8>, ReadFault>
    ensures bound { IfOk result (λ bytes. vec_len bytes ≤ limit + 1) }
    ensures front { IfOk result (λ bytes. IfSome (F.remaining reader.old) (λ known. bytes.items ≡ take (limit + 1) known)) }
    ensures read { IfOk result (λ bytes. Consumes (F.remaining reader.old) (F.remaining reader.new) bytes.items) }
    ensures end { IfOk result (λ bytes. vec_len bytes ≤ limit → IsAtEnd (F.remaining reader.new)) }
{
    let Ok(mut bytes) = Vec::with_capacity(alloc, first_capacity(limit, expected)) else {
        return Err(ReadFault::Memory);
    };
    while bytes.len() as u64 <= limit {
        let left = limit - bytes.len() as u64;
        let room = piece_room(left);
        make_room(&mut bytes, room, left)?;
        if read_onto(reader, &mut bytes, room)? == 0 {
            return Ok(bytes);
        }
    }
    Ok(bytes)
}

/// Room for the expected bytes and the piece that finds the end, and for no more than the limit asks.
fn first_capacity(limit: u64, expected: u64) -> usize {
    limit
        .min(expected.saturating_add(PIECE as u64))
        .saturating_add(1) as usize
}

/// How many bytes the next read may give, where the limit leaves this many, and one more shows that
/// it is exceeded.
fn piece_room(left: u64) -> usize
    ensures some { 0 < result }
    ensures piece { result ≤ 2 ^ 17 }
    ensures limit { result ≤ left + 1 }
{
    left.min(PIECE as u64 - 1) as usize + 1
}

/// Takes room for a piece. Where the expected bytes were too few, all that the limit leaves is taken
/// at once, so that no byte moves twice.
fn make_room(bytes: &mut Vec<u8>, room: usize, left: u64) -> Result<(), ReadFault>
    ensures { bytes.new.items ≡ bytes.old.items }
{
    if bytes.capacity() - bytes.len() >= room {
        return Ok(());
    }
    match bytes.reserve_exact(left.saturating_add(1) as usize) {
        Ok(()) => Ok(()),
        Err(_) => Err(ReadFault::Memory),
    }
}

/// Reads once, onto the end of the bytes, and answers how many came: none only at the reader's end.
fn read_onto<F: Read>(reader: &mut F, bytes: &mut Vec<u8>, room: usize) -> Result<usize, ReadFault>
    requires some { 0 < room }
    requires piece { room ≤ 2 ^ 17 }
    ensures bound { IfOk result (λ count. count ≤ room) }
    ensures len { IfOk result (λ count. vec_len bytes.new ≡ vec_len bytes.old + count) }
    ensures front { OnOk result (StartsWith bytes.new.items bytes.old.items) }
    ensures read { OnOk result (Consumes (F.remaining reader.old) (F.remaining reader.new) (drop (length bytes.old.items) bytes.new.items)) }
    ensures end { IfOk result (λ count. count ≡ 0 → IsAtEnd (F.remaining reader.new)) }
{
    let start = bytes.len();
    if bytes.resize(start + room, 0).is_err() {
        return Err(ReadFault::Memory);
    }
    let count = read_at(reader, bytes.as_mut_slice(), start)?;
    bytes.truncate(start + count);
    Ok(count)
}

/// Reads once into the part of the buffer from `start` on.
fn read_at<F: Read>(reader: &mut F, buf: &mut [u8], start: usize) -> Result<usize, ReadFault>
    requires { start < length buf.old }
    ensures front { take start buf.new ≡ take start buf.old }
    ensures fits { IfOk result (λ count. start + count ≤ length buf.new) }
    ensures ok { IfOk result (λ count. Consumes (F.remaining reader.old) (F.remaining reader.new) (take count (drop start buf.new))) }
    ensures end { IfOk result (λ count. count ≡ 0 → IsAtEnd (F.remaining reader.new)) }
{
    read_retrying(reader, &mut buf[start..])
}

/// One read, made again where a signal interrupts it.
fn read_retrying<F: Read>(reader: &mut F, buf: &mut [u8]) -> Result<usize, ReadFault>
    ensures bound { ReadsAtMost result buf.new }
    ensures ok { IfOk result (λ count. Consumes (F.remaining reader.old) (F.remaining reader.new) (take count buf.new)) }
    ensures end { IfOk result (λ count. count ≡ 0 → 0 < length buf.old → IsAtEnd (F.remaining reader.new)) }
    ensures err { OnErr result (Keeps (F.remaining reader.old) (F.remaining reader.new)) }
{
    for _ in 0..MOST_TRIES {
        match reader.read(buf) {
            Ok(count) => return Ok(count),
            Err(error) => {
                if error.kind() != ErrorKind::Interrupted {
                    return Err(ReadFault::Failed);
                }
            }
        }
    }
    Err(ReadFault::Failed)
}

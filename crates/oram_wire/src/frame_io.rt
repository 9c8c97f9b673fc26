//! Reads one frame from a reader, and writes one frame to a writer.

ghost use Rattle.std.specs.Prelude.{◌≡◌, ◌≢◌, ◌⊎◌, ◌<◌, ◌≤◌, ℕ, List, [], length, take, IfOk, IfErr, IsErrOf, OnOk, OnErr, MatchOption};
ghost use Rattle.std.specs.Int.{w32, to_be_bytes};
ghost use Rattle.std.specs.Io.KnownBytes.{Appends, Consumes, IsAtEnd};
ghost use Rattle.oram_wire.specs.FrameStream.{IsBody, frame};
ghost use Rattle.oram_wire.specs.FrameIo.{GivesBrokenHead, GivesCutFrame, GivesEnd, GivesFrame, GivesHead, GivesLongHead, GivesPart, TakesPart};
ghost use Rattle.oram_wire.specs.declared.frame_io.FrameFault.TheVariants.{OutOfMemory};

use crate::LONGEST_BODY;
use crate::frames::HEAD;
use byteorder::{BigEndian, ByteOrder};
use std::alloc::{AllocError, Global};
use std::io::{ErrorKind, Read, Write};

/// Why no frame could be read.
#[derive(Clone, Copy, Debug, PartialEq, Eq)]
pub enum FrameFault {
    /// The reader failed.
    Read,
    /// A frame's length is greater than that of the longest body, so no frame can follow.
    Frame,
    /// The input ended inside a frame.
    Truncated,
    /// There is no memory for the body.
    OutOfMemory,
}

impl From<AllocError> for FrameFault {
    ghost from_gives = { λ _ f. f ≡ OutOfMemory };

    fn from(_error: AllocError) -> FrameFault {
        FrameFault::OutOfMemory
    }
}

/// The fault of a writer that failed, or took no more bytes.
#[derive(Clone, Copy, Debug, PartialEq, Eq)]
pub struct WriteFault;

/// Reads until the buffer is full or the input ends, and returns the number of bytes read. Retries an interrupted read.
/// Fails only with `Read`.
pub fn fill<R: Read>(reader: &mut R, buf: &mut [u8]) -> Result<usize, FrameFault>
    ensures within { IfOk result (λ n. n ≤ length buf.new) }
    ensures ok { IfOk result (λ n. Consumes (R.remaining reader.old) (R.remaining reader.new)
        (take n buf.new)) }
    ensures end { IfOk result (λ n. n < length buf.new → IsAtEnd (R.remaining reader.new)) }
    ensures err { OnErr result ((part : List ℕ) × (length part < length buf.new)
        × Consumes (R.remaining reader.old) (R.remaining reader.new) part) }
    ensures fault { IfErr result (λ f. f ≡ FrameFault.Read) }
{
    if buf.is_empty() {
        return Ok(0);
    }
    let mut filled = 0;
    for _ in 0..u64::MAX {
        match reader.read(&mut buf[filled..]) {
            Ok(0) => return Ok(filled),
            Ok(n) => {
                filled += n;
                if filled == buf.len() {
                    return Ok(filled);
                }
            }
            Err(error) => {
                if error.kind() != ErrorKind::Interrupted {
                    return Err(FrameFault::Read);
                }
            }
        }
    }
    Err(FrameFault::Read)
}

/// Returns the number that four bytes encode.
fn number_of(bytes: &[u8]) -> u32
    requires { length bytes.now ≡ 4 }
    ensures { to_be_bytes w32 result ≡ bytes.now }
{
    BigEndian::read_u32(bytes)
}

/// Reads the length at a frame's front. Returns `None` if the input ends before the frame.
fn read_head<R: Read>(reader: &mut R) -> Result<Option<u32>, FrameFault>
    ensures ok { IfOk result (λ head. MatchOption head
        (GivesEnd (R.remaining reader.old) (R.remaining reader.new))
        (λ n. Consumes (R.remaining reader.old) (R.remaining reader.new) (to_be_bytes w32 n))) }
    ensures read { IsErrOf result FrameFault.Read
        → GivesPart (R.remaining reader.old) (R.remaining reader.new) }
    ensures truncated { IsErrOf result FrameFault.Truncated
        → GivesCutFrame (R.remaining reader.old) (R.remaining reader.new) }
    ensures fault { IfErr result (λ f. (f ≡ FrameFault.Read) ⊎ (f ≡ FrameFault.Truncated)) }
{
    let mut head = [0; HEAD];
    let filled = fill(reader, &mut head)?;
    if filled == 0 {
        return Ok(None);
    }
    if filled < HEAD {
        return Err(FrameFault::Truncated);
    }
    Ok(Some(number_of(&head)))
}

/// Reads `len` bytes. Allocates memory before it reads any, so it has read nothing if it fails with `OutOfMemory`.
pub fn read_body<R: Read>(alloc: Global, reader: &mut R, len: usize) -> Result<Vec<u8>, FrameFault>
    ensures ok { IfOk result (λ body. (length body.items ≡ len)
        × Consumes (R.remaining reader.old) (R.remaining reader.new) body.items) }
    ensures read { IsErrOf result FrameFault.Read → (part : List ℕ) × (length part < len)
        × Consumes (R.remaining reader.old) (R.remaining reader.new) part }
    ensures truncated { IsErrOf result FrameFault.Truncated
        → (part : List ℕ) × (length part < len)
        × Consumes (R.remaining reader.old) (R.remaining reader.new) part
        × IsAtEnd (R.remaining reader.new) }
    ensures memory { IsErrOf result FrameFault.OutOfMemory
        → Consumes (R.remaining reader.old) (R.remaining reader.new) [] }
    ensures fault { IfErr result (λ f. f ≢ FrameFault.Frame) }
{
    let mut body = vec![in alloc; 0; len]?;
    if fill(reader, body.as_mut_slice())? < len {
        return Err(FrameFault::Truncated);
    }
    Ok(body)
}

/// Reads one frame as [`next_frame`] does, but none whose body is longer than `longest`. It returns `Frame` for that one as soon as
/// it has read the length, before it allocates memory for the body.
pub fn next_frame_within<R: Read>(
    alloc: Global,
    reader: &mut R,
    longest: usize,
) -> Result<Option<Vec<u8>>, FrameFault>
    requires { longest ≤ LONGEST_BODY }
    ensures ok { IfOk result (λ next. MatchOption next
        (GivesEnd (R.remaining reader.old) (R.remaining reader.new))
        (λ body. (length body.items ≤ longest)
        × GivesFrame (R.remaining reader.old) (R.remaining reader.new) body.items)) }

    // The bytes that were read before each fault. If the reader fails, they are less than a whole frame.
    ensures read { IsErrOf result FrameFault.Read
        → GivesPart (R.remaining reader.old) (R.remaining reader.new) }
    ensures frame { IsErrOf result FrameFault.Frame
        → GivesLongHead longest (R.remaining reader.old) (R.remaining reader.new) }
    ensures truncated { IsErrOf result FrameFault.Truncated
        → GivesCutFrame (R.remaining reader.old) (R.remaining reader.new) }
    ensures memory { IsErrOf result FrameFault.OutOfMemory
        → GivesHead (R.remaining reader.old) (R.remaining reader.new) }
{
    let Some(len) = read_head(reader)? else {
        return Ok(None);
    };
    let len = len as usize;
    if len > longest {
        return Err(FrameFault::Frame);
    }
    let body = read_body(alloc, reader, len)?;
    Ok(Some(body))
}

/// Reads one frame, and no byte after it. Returns its body, or `None` if the input ends before a frame.
///
/// It reads the length first, and then the body directly into the vector that it returns. It retries an interrupted
/// read.
pub fn next_frame<R: Read>(alloc: Global, reader: &mut R) -> Result<Option<Vec<u8>>, FrameFault>
    ensures ok { IfOk result (λ next. MatchOption next
        (GivesEnd (R.remaining reader.old) (R.remaining reader.new))
        (λ body. GivesFrame (R.remaining reader.old) (R.remaining reader.new) body.items)) }

    // The bytes that were read before each fault. If the reader fails, they are less than a whole frame.
    ensures read { IsErrOf result FrameFault.Read
        → GivesPart (R.remaining reader.old) (R.remaining reader.new) }
    ensures frame { IsErrOf result FrameFault.Frame
        → GivesBrokenHead (R.remaining reader.old) (R.remaining reader.new) }
    ensures truncated { IsErrOf result FrameFault.Truncated
        → GivesCutFrame (R.remaining reader.old) (R.remaining reader.new) }
    ensures memory { IsErrOf result FrameFault.OutOfMemory
        → GivesHead (R.remaining reader.old) (R.remaining reader.new) }
{
    next_frame_within(alloc, reader, LONGEST_BODY)
}

/// Writes all of `bytes`; if the writer fails, only a beginning of them. Doesn't flush the writer.
pub fn write<W: Write>(writer: &mut W, bytes: &[u8]) -> Result<(), WriteFault>
    ensures ok { OnOk result (Appends (W.contents writer.old) (W.contents writer.new) bytes.now) }
    ensures err { OnErr result (TakesPart (W.contents writer.old) (W.contents writer.new)
        bytes.now) }
{
    if bytes.is_empty() {
        return Ok(());
    }
    let mut written = 0;
    for _ in 0..u64::MAX {
        match writer.write(&bytes[written..]) {
            Ok(0) => return Err(WriteFault),
            Ok(count) => {
                written += count;
                if written == bytes.len() {
                    return Ok(());
                }
            }
            Err(error) => {
                if error.kind() != ErrorKind::Interrupted {
                    return Err(WriteFault);
                }
            }
        }
    }
    Err(WriteFault)
}

/// Writes a body as a frame: first its length, then the body itself, without copying it. Doesn't flush the writer.
pub fn put_frame<W: Write>(writer: &mut W, body: &[u8]) -> Result<(), WriteFault>
    requires { IsBody body.now }
    ensures ok { OnOk result (Appends (W.contents writer.old) (W.contents writer.new)
        (frame body.now)) }
    ensures err { OnErr result (TakesPart (W.contents writer.old) (W.contents writer.new)
        (frame body.now)) }
{
    let head = (body.len() as u32).to_be_bytes();
    write(writer, &head)?;
    write(writer, body)
}

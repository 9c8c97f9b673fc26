//! Reads the lines of a script as they come.
ghost use Rattle.std.specs.Prelude.{◌≡◌, ◌≢◌, ◌<◌, true, false, IfOk, IfErr, IfSome, vec_len};
ghost use Rattle.std.specs.IoError.{error_kind};
ghost use Rattle.std.specs.Io.BufRead.{take_through, DropsThrough};
ghost use Rattle.std.specs.Io.KnownBytes.{IsAtEnd, Keeps};

use crate::script::SimFault;
use std::io;
use std::io::{BufRead, ErrorKind, Write};

/// Returns the script's fault for a reader's error.
fn read_fault(error: &io::Error) -> SimFault
    ensures memory { error_kind error.now ≡ ErrorKind.OutOfMemory → result ≡ SimFault.OutOfMemory }
    ensures read { error_kind error.now ≢ ErrorKind.OutOfMemory → result ≡ SimFault.Read }
{
    if error.kind() == ErrorKind::OutOfMemory {
        SimFault::OutOfMemory
    } else {
        SimFault::Read
    }
}

/// Writes out what is still in the writer's buffer.
pub fn flush<W: Write>(writer: &mut W) -> Result<(), SimFault>
    ensures same { Keeps (W.contents writer.old) (W.contents writer.new) }
    ensures fault { IfErr result (λ e. e ≡ SimFault.Write) }
{
    match writer.flush() {
        Ok(()) => Ok(()),
        Err(_) => Err(SimFault::Write),
    }
}

/// The bytes that a reader already holds, which can be read without waiting.
#[derive(Clone, Copy)]
struct AtHand {
    bytes: usize,
    has_line: bool,
}

/// Returns what the reader holds. It waits for input only if the reader holds nothing; if it still holds nothing then,
/// the input has ended.
fn at_hand<R: BufRead>(reader: &mut R) -> Result<AtHand, SimFault>
    ensures same { Keeps (R.remaining reader.old) (R.remaining reader.new) }
    ensures end { IfOk result (λ held. held.bytes ≡ 0 → IsAtEnd (R.remaining reader.old)) }
    ensures fault { IfErr result (λ e. e ≢ SimFault.Write) }
{
    for _ in 0..u64::MAX {
        match reader.fill_buf() {
            Ok(bytes) => {
                return Ok(AtHand {
                    bytes: bytes.len(),
                    has_line: bytes.contains(&b'\n'),
                });
            }
            Err(error) => {
                if error.kind() != ErrorKind::Interrupted {
                    return Err(read_fault(&error));
                }
            }
        }
    }
    Err(SimFault::Read)
}

/// Flushes what was printed before it waits for input, and returns how many bytes the reader holds. `held` is how many
/// it is known to hold beforehand. Zero as the result means that the input has ended.
fn wait_for_line<R: BufRead, W: Write>(
    reader: &mut R,
    writer: &mut W,
    held: usize,
) -> Result<usize, SimFault>
    ensures text { Keeps (W.contents writer.old) (W.contents writer.new) }
    ensures same { Keeps (R.remaining reader.old) (R.remaining reader.new) }
    ensures end { IfOk result (λ bytes. bytes ≡ 0 → IsAtEnd (R.remaining reader.old)) }
{
    if held > 0 {
        let front = at_hand(reader)?;
        if front.has_line {
            return Ok(front.bytes);
        }
    }
    flush(writer)?;
    Ok(at_hand(reader)?.bytes)
}

/// Reads the next line, with the byte 0A at its end. Returns false at the end of the input. `held` is how many bytes
/// the reader is known to hold; what was printed is flushed before it waits for more input.
pub fn next_line<R: BufRead, W: Write>(
    reader: &mut R,
    writer: &mut W,
    held: &mut usize,
    line: &mut Vec<u8>,
) -> Result<bool, SimFault>
    ensures text { Keeps (W.contents writer.old) (W.contents writer.new) }
    ensures some { result ≡ Ok true → 0 < vec_len line.new }
    ensures bytes { result ≡ Ok true → IfSome (R.remaining reader.old) (λ xs. line.new.items ≡ take_through 10 xs) }
    ensures rest { result ≡ Ok true → DropsThrough (R.remaining reader.old) (R.remaining reader.new) 10 }
    ensures end { result ≡ Ok false → IsAtEnd (R.remaining reader.old) }
    ensures ended { result ≡ Ok false → IfSome (R.remaining reader.old) (λ _. IsAtEnd (R.remaining reader.new)) }
{
    line.clear();
    let front = wait_for_line(reader, writer, *held)?;
    if front == 0 {
        return Ok(false);
    }
    match reader.read_until(b'\n', line) {
        Ok(count) => {
            *held = front.saturating_sub(count);
            Ok(count > 0)
        }
        Err(error) => Err(read_fault(&error)),
    }
}

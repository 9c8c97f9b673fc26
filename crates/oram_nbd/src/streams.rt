//! Reads heads of messages, and writes whole messages.

ghost use Rattle.std.specs.Prelude.{◌≡◌, ◌<◌, ◌++◌, length, IfOk, IfErr, OnOk};
ghost use Rattle.std.specs.Bool.{MatchBool};
ghost use Rattle.std.specs.Io.KnownBytes.{Appends, Consumes, Keeps};
ghost use Rattle.oram_wire.specs.FrameIo.{GivesEnd};
ghost use Rattle.oram_nbd.specs.Streams.{ComesShort, IsBegunText, IsSkip};

use crate::faults::NbdFault;
use oram_wire::{fill, write};
use std::io::{Read, Write};

/// Fills a head. Returns `false` if the input ends before it.
pub(crate) fn next_head<R: Read>(reader: &mut R, head: &mut [u8]) -> Result<bool, NbdFault>
    requires { 0 < length head.old }
    ensures ok { IfOk result (λ found. MatchBool found
        (Consumes (R.remaining reader.old) (R.remaining reader.new) head.new)
        (GivesEnd (R.remaining reader.old) (R.remaining reader.new))) }
    ensures err { IfErr result (λ fault. ComesShort 1 (length head.old) fault (R.remaining reader.old) (R.remaining reader.new)) }
{
    let filled = fill(reader, head)?;
    if filled == 0 {
        return Ok(false);
    }
    if filled < head.len() {
        return Err(NbdFault::Truncated);
    }
    Ok(true)
}

/// Skips `count` bytes.
pub(crate) fn skip<R: Read>(reader: &mut R, count: u64) -> Result<(), NbdFault>
    ensures ok { OnOk result (IsSkip (R.remaining reader.old) (R.remaining reader.new) count) }
    ensures err { IfErr result (λ fault. ComesShort 0 count fault (R.remaining reader.old) (R.remaining reader.new)) }
{
    let mut buf = [0u8; 4096];
    let mut left = count;
    while left > 0 {
        let most = left.min(4096) as usize;
        let got = fill(reader, &mut buf[..most])?;
        if got == 0 {
            return Err(NbdFault::Truncated);
        }
        left -= got as u64;
    }
    Ok(())
}

/// Writes a message in two pieces.
pub(crate) fn put<W: Write>(writer: &mut W, head: &[u8], rest: &[u8]) -> Result<(), NbdFault>
    ensures ok { OnOk result (Appends (W.contents writer.old) (W.contents writer.new) (head.now ++ rest.now)) }
    ensures err { IfErr result (λ fault. (fault ≡ NbdFault.Write)
        × IsBegunText (W.contents writer.old) (W.contents writer.new) (head.now ++ rest.now)) }
{
    write(writer, head)?;
    write(writer, rest)?;
    Ok(())
}

/// Flushes a writer.
pub(crate) fn flush<W: Write>(writer: &mut W) -> Result<(), NbdFault>
    ensures keeps { Keeps (W.contents writer.old) (W.contents writer.new) }
    ensures err { IfErr result (λ fault. fault ≡ NbdFault.Write) }
{
    if writer.flush().is_err() {
        return Err(NbdFault::Write);
    }
    Ok(())
}

/// Writes a message in two pieces, and flushes the writer.
pub(crate) fn send<W: Write>(writer: &mut W, head: &[u8], rest: &[u8]) -> Result<(), NbdFault>
    ensures ok { OnOk result (Appends (W.contents writer.old) (W.contents writer.new) (head.now ++ rest.now)) }
    ensures err { IfErr result (λ fault. (fault ≡ NbdFault.Write)
        × IsBegunText (W.contents writer.old) (W.contents writer.new) (head.now ++ rest.now)) }
{
    put(writer, head, rest)?;
    flush(writer)
}

//! Reads requests.

ghost use Rattle.std.specs.Prelude.{◌≡◌, ℕ, List, length, IfOk, IfErr, IfSome, MatchOption};
ghost use Rattle.std.specs.Io.KnownBytes.{Consumes};
ghost use Rattle.oram_wire.specs.FrameIo.{GivesEnd};
ghost use Rattle.oram_nbd.specs.Messages.{request_text, IsRequest};
ghost use Rattle.oram_nbd.specs.Streams.{ComesShort, Misses};
ghost use Rattle.oram_nbd.specs.Transmission.{IsNoRequest, IsUnfinished};

use crate::LONGEST_PAYLOAD;
use crate::faults::NbdFault;
use crate::requests::Request;
use crate::streams::{next_head, skip};
use oram_wire::{FrameFault, read_body};
use std::alloc::Global;
use std::io::Read;

/// Reads the next request, without the bytes of a write. Returns `None` at the end of the input.
pub(crate) fn next_request<R: Read>(reader: &mut R) -> Result<Option<Request>, NbdFault>
    ensures ok { IfOk result (λ next. MatchOption next
        (GivesEnd (R.remaining reader.old) (R.remaining reader.new))
        (λ r. IsRequest r × Consumes (R.remaining reader.old) (R.remaining reader.new) (request_text r))) }
    ensures err { IfErr result (λ fault. Misses IsUnfinished IsNoRequest fault (R.remaining reader.old) (R.remaining reader.new)) }
{
    let mut head = [0u8; Request::BYTES];
    if !next_head(reader, &mut head)? {
        return Ok(None);
    }
    match Request::decode(&head) {
        Some(request) => Ok(Some(request)),
        None => Err(NbdFault::Magic),
    }
}

/// Skips `count` bytes, and keeps none of them.
fn pass_over<R: Read>(reader: &mut R, count: u32) -> Result<Option<Vec<u8>>, NbdFault>
    ensures ok { IfOk result (λ payload. (bytes : List ℕ) × (length bytes ≡ count)
        × Consumes (R.remaining reader.old) (R.remaining reader.new) bytes × IfSome payload (λ p. p.items ≡ bytes)) }
    ensures err { IfErr result (λ fault. ComesShort 0 count fault (R.remaining reader.old) (R.remaining reader.new)) }
{
    skip(reader, u64::from(count))?;
    Ok(None)
}

/// Reads the bytes of a write. If they are too many, or there is no memory for them, it skips them and returns `None`.
pub(crate) fn read_payload<R: Read>(
    alloc: Global,
    reader: &mut R,
    count: u32,
) -> Result<Option<Vec<u8>>, NbdFault>
    ensures ok { IfOk result (λ payload. (bytes : List ℕ) × (length bytes ≡ count)
        × Consumes (R.remaining reader.old) (R.remaining reader.new) bytes × IfSome payload (λ p. p.items ≡ bytes)) }
    ensures err { IfErr result (λ fault. ComesShort 0 count fault (R.remaining reader.old) (R.remaining reader.new)) }
{
    if count > LONGEST_PAYLOAD {
        return pass_over(reader, count);
    }
    match read_body(alloc, reader, count as usize) {
        Ok(payload) => Ok(Some(payload)),
        Err(FrameFault::OutOfMemory) => pass_over(reader, count),
        Err(fault) => Err(NbdFault::from(fault)),
    }
}

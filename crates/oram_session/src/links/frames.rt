//! Sends a body as one frame, and receives the body of a frame.
ghost use Rattle.std.specs.Prelude.{◌≡◌, IfOk, IfErr, OnOk};
ghost use Rattle.std.specs.Io.KnownBytes.{Appends};
ghost use Rattle.oram_wire.specs.FrameStream.{IsBody, frame};
ghost use Rattle.oram_session.specs.Outcome.{outcome_of};
ghost use Rattle.oram_session.specs.Streams.{FailsToSend, Receives};

use crate::link::LinkFault;
use oram_wire::{FrameFault, LONGEST_BODY, WriteFault, next_frame, write};
use std::alloc::{AllocError, Global};
use std::io::{Read, Write};

/// Returns a body as a frame, in one piece.
fn framed(alloc: Global, body: &[u8]) -> Result<Vec<u8>, AllocError>
    requires { IsBody body.now }
    ensures { IfOk result (λ v. v.items ≡ frame body.now) }
{
    let head = (body.len() as u32).to_be_bytes();
    let mut whole = Vec::with_capacity(alloc, head.len() + body.len())?;
    whole.extend_from_slice(&head)?;
    whole.extend_from_slice(body)?;
    Ok(whole)
}

/// Sends a body as one frame, in one write, and flushes it.
pub(crate) fn send<W: Write>(alloc: Global, writer: &mut W, body: &[u8]) -> Result<(), LinkFault>
    ensures fits { OnOk result (IsBody body.now) }
    ensures ok { OnOk result (Appends (W.contents writer.old) (W.contents writer.new) (frame body.now)) }
    ensures err { IfErr result (λ fault. FailsToSend W.contents writer.old body.now fault writer.new) }
{
    if body.len() > LONGEST_BODY {
        return Err(LinkFault::TooLong);
    }
    let whole = framed(alloc, body)?;
    if let Err(WriteFault) = write(writer, &whole) {
        return Err(LinkFault::Io);
    }
    if writer.flush().is_err() {
        return Err(LinkFault::Io);
    }
    Ok(())
}

/// Receives the next frame and returns its body.
pub(crate) fn receive<R: Read>(alloc: Global, reader: &mut R) -> Result<Vec<u8>, LinkFault>
    ensures { Receives (R.remaining reader.old) (R.remaining reader.new) (outcome_of result) }
{
    match next_frame(alloc, reader) {
        Ok(Some(body)) => Ok(body),
        Ok(None) | Err(FrameFault::Truncated) => Err(LinkFault::Closed),
        Err(FrameFault::Read) => Err(LinkFault::Io),
        Err(FrameFault::Frame) => Err(LinkFault::TooLong),
        Err(FrameFault::OutOfMemory) => Err(LinkFault::OutOfMemory),
    }
}

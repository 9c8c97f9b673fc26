//! The host's side of a link: it reads request frames, has a bucket server answer them, and writes answer frames.
ghost use Rattle.std.specs.Prelude.{◌≡◌, ℕ, take, IfErr, IsErrOf, OnOk};
ghost use Rattle.std.specs.Io.KnownBytes.{Appends};
ghost use Rattle.oram_wire.specs.FrameStream.{IsBody, frame};
ghost use Rattle.oram_host.specs.Connections.{EndsConnection};

use crate::bucket_server::BucketServer;
use crate::serve_fault::ServeFault;
use oram_wire::{next_frame, put_frame};
use std::alloc::Global;
use std::io::{Read, Write};

/// Writes a body as a frame, and flushes the writer.
pub fn put_body<W: Write>(writer: &mut W, body: &[u8]) -> Result<(), ServeFault>
    requires { IsBody body.now }
    ensures ok { OnOk result (Appends (W.contents writer.old) (W.contents writer.new) (frame body.now)) }
    ensures write { IsErrOf result ServeFault.Write → (count : ℕ)
        × Appends (W.contents writer.old) (W.contents writer.new) (take count (frame body.now)) }
    ensures fault { IfErr result (λ e. e ≡ ServeFault.Write) }
{
    put_frame(writer, body)?;
    if writer.flush().is_err() {
        return Err(ServeFault::Write);
    }
    Ok(())
}

/// Answers each request frame in turn, to the end of the input, and returns the number of requests.
///
/// A body that isn't a request gets the server's refusal as its answer. Each answer is flushed before the next frame is
/// read. Never fails with `Stalled`.
pub fn host_serve<R: Read, W: Write, H: BucketServer>(
    alloc: Global,
    reader: &mut R,
    writer: &mut W,
    server: &mut H,
) -> Result<u64, ServeFault>
    ensures { EndsConnection H.serves
        (record { state = server.old; unread = R.remaining reader.old; written = W.contents writer.old })
        (record { state = server.new; unread = R.remaining reader.new; written = W.contents writer.new })
        result }
{
    for served in 0..u64::MAX {
        let Some(body) = next_frame(alloc, reader)? else {
            return Ok(served);
        };
        let answer = server.respond(alloc, &body)?;
        put_body(writer, &answer)?;
    }
    Err(ServeFault::Read)
}

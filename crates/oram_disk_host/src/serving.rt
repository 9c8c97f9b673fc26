//! Answers the messages of a connection.
//!
//! The store gets the messages that have arrived together as one list, and commits STOREs and PUTs that stand together in it as one batch.
//! The answers keep the order of the messages, and are flushed once all messages of the list are answered.

ghost use Rattle.std.specs.Prelude.{◌≡◌, ◌↔◌, IfErr, IsTrue, OnErr, OnOk};
ghost use Rattle.std.specs.Io.KnownBytes.{Appends};
ghost use Rattle.std.specs.List.{flat_map};
ghost use Rattle.oram_disk_host.specs.Serving.{AnswersAll, BeginsWithFrame, EndsServing, IsGathered};
ghost use Rattle.oram_host.specs.Transfers.{Begins};
ghost use Rattle.oram_wire.specs.FrameStream.{IsBody, frame};
ghost use Rattle.oram_wire.specs.ListOfBodies.{bodies_in};

use crate::disk_watch::DiskWatch;
use crate::tallied_store::TalliedStore;
use oram_host::ServeFault;
use oram_redo::FilePair;
use oram_sockets::Arrived;
use oram_wire::{next_frame, put_frame};
use std::alloc::Global;
use std::io::{Read, Write};

/// The most messages that are read before they are answered.
const MOST_MESSAGES: u32 = 64;

/// What follows the messages that were read.
#[derive(Clone, Copy, Debug, PartialEq, Eq)]
pub(crate) enum Next {
    /// Further messages may come.
    Waits,
    /// The input has ended.
    Ends,
    /// No further message can be read.
    Fails(ServeFault),
}

/// Returns whether what has arrived begins with a whole frame.
fn has_frame(arrived: &[u8]) -> bool
    ensures { IsTrue result ↔ BeginsWithFrame arrived.now }
{
    let [a, b, c, d, rest @ ..] = arrived else {
        return false;
    };
    rest.len() >= u32::from_be_bytes([*a, *b, *c, *d]) as usize
}

/// Reads the messages that are answered together: it waits for the first one, and takes further ones that have arrived whole.
fn gather<R: Read + Arrived>(alloc: Global, reader: &mut R) -> (Vec<Vec<u8>>, Next)
    ensures { IsGathered (bodies_in result.0.items) result.1 (R.remaining reader.old) (R.remaining reader.new) }
{
    let mut bodies = Vec::new(alloc);
    for _number in 0..MOST_MESSAGES {
        match next_frame(alloc, reader) {
            Ok(Some(body)) => {
                if bodies.push(body).is_err() {
                    return (bodies, Next::Fails(ServeFault::OutOfMemory));
                }
            }
            Ok(None) => return (bodies, Next::Ends),
            Err(fault) => return (bodies, Next::Fails(fault.into())),
        }
        if !has_frame(reader.arrived()) {
            return (bodies, Next::Waits);
        }
    }
    (bodies, Next::Waits)
}

/// Writes the frame of an answer for each of these messages.
fn put_answers<W: Write>(
    writer: &mut W,
    answer: &[u8],
    bodies: &[Vec<u8>],
) -> Result<(), ServeFault>
    requires { IsBody answer.now }
    ensures ok { OnOk result (Appends (W.contents writer.old) (W.contents writer.new) (flat_map (λ body. frame answer.now) (bodies_in bodies.now))) }
    ensures write { OnErr result (Begins (W.contents writer.old) (W.contents writer.new) (flat_map (λ body. frame answer.now) (bodies_in bodies.now))) }
    ensures fault { IfErr result (λ e. e ≡ ServeFault.Write) }
{
    for _body in bodies {
        put_frame(writer, answer)?;
    }
    Ok(())
}

/// Carries out messages, and writes their answers.
fn answer_each<W: Write, F: FilePair, D: DiskWatch>(
    alloc: Global,
    writer: &mut W,
    hosted: &mut TalliedStore<'_, F, D>,
    bodies: &[Vec<u8>],
) -> Result<(), ServeFault>
    ensures { AnswersAll F.model (bodies_in bodies.now) result hosted.old hosted.new (W.contents writer.old) (W.contents writer.new) }
{
    let mut done = 0;
    while done < bodies.len() {
        let rest = &bodies[done..];
        let (count, answer) = hosted.respond(alloc, rest)?;
        put_answers(writer, &answer, &rest[..count])?;
        done += count;
    }
    Ok(())
}

/// Carries out messages, and writes and flushes their answers. The answers to those that were carried out are flushed even if the
/// memory for another one runs out.
fn answer_all<W: Write, F: FilePair, D: DiskWatch>(
    alloc: Global,
    writer: &mut W,
    hosted: &mut TalliedStore<'_, F, D>,
    bodies: &[Vec<u8>],
) -> Result<(), ServeFault>
    ensures { AnswersAll F.model (bodies_in bodies.now) result hosted.old hosted.new (W.contents writer.old) (W.contents writer.new) }
{
    let answered = answer_each(alloc, writer, hosted, bodies);
    if writer.flush().is_err() {
        return Err(ServeFault::Write);
    }
    answered
}

/// Answers the messages of a connection, to the end of its input.
///
/// A body that isn't a request gets the refusal of the store as its answer. All answers to what was read are flushed before the next
/// byte is waited for. Never fails with `Stalled`.
pub fn answer_messages<R: Read + Arrived, W: Write, F: FilePair, D: DiskWatch>(
    alloc: Global,
    reader: &mut R,
    writer: &mut W,
    hosted: &mut TalliedStore<'_, F, D>,
) -> Result<(), ServeFault>
    ensures { EndsServing F.model
        (record { state = hosted.old; unread = R.remaining reader.old; written = W.contents writer.old })
        (record { state = hosted.new; unread = R.remaining reader.new; written = W.contents writer.new })
        result }
{
    for _ in 0..u64::MAX {
        let (bodies, next) = gather(alloc, reader);
        answer_all(alloc, writer, hosted, &bodies)?;
        match next {
            Next::Waits => {}
            Next::Ends => return Ok(()),
            Next::Fails(fault) => return Err(fault),
        }
    }
    Err(ServeFault::Read)
}

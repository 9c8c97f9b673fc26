//! What is still to come of a batch that was begun: bytes that have to be written, and answers.
ghost use Rattle.std.specs.Prelude.{◌≡◌, ◌-◌, ◌<◌, ◌≤◌, [], ℕ, List, Option, drop, length, true, MatchBool, MatchResult, OnOk};
ghost use Rattle.std.specs.Io.KnownBytes.{Keeps};
ghost use Rattle.oram_session.specs.Outcome.{outcome_of};
ghost use Rattle.oram_client.specs.StreamBatches.{ReceivesWithin, WritesOn};

use crate::stream_batches::{HEAD_LEN, receive, write_some};
use oram_session::LinkFault;
use oram_sockets::WriteDuplex;
use oram_wire::{LONGEST_BODY, WriteFault};
use std::alloc::Global;
use std::io::Read;
use std::marker::Model;

/// A batch that was begun. Its frames are kept until all of them are written.
#[derive(Debug, Drop)]
pub struct DueBatch {
    frames: Vec<u8>,
    /// How many bytes of the frames were written.
    written: usize,
    /// How many answers are still to be read.
    left: usize,
    /// How many bytes the frames of these answers have at most.
    room: usize,
}

impl Model for DueBatch {
    ghost use Rattle.std.specs.Prelude.{◌≤◌, drop, length};
    ghost use Rattle.oram_client.specs.StreamBatches.{Due};

    ghost Value = { Due };

    ghost view = { λ d. record { unsent = drop d.written d.frames.items; left = d.left } };

    ghost invariant = { λ d. d.written ≤ length d.frames.items };
}

impl DueBatch {
    /// Returns that nothing is to come. Allocates nothing.
    pub(crate) fn none(alloc: Global) -> DueBatch
        ensures { result ≡ record { unsent = []; left = 0 } }
    {
        DueBatch {
            frames: Vec::new(alloc),
            written: 0,
            left: 0,
            room: 0,
        }
    }

    /// Makes a batch, and writes nothing yet. `left` answers are to come, and their frames have at most `room` bytes.
    pub(crate) fn new(frames: Vec<u8>, left: usize, room: usize) -> DueBatch
        ensures { result ≡ record { unsent = frames.items; left = left } }
    {
        DueBatch {
            frames,
            written: 0,
            left,
            room,
        }
    }

    /// Returns whether answers are still to be read.
    pub(crate) fn is_due(&self) -> bool
        ensures { MatchBool result (0 < self.now.left) (self.now.left ≡ 0) }
    {
        self.left > 0
    }

    /// Returns whether more than one answer is still to be read.
    fn has_more(&self) -> bool
        ensures { MatchBool result (1 < self.now.left) (self.now.left ≤ 1) }
    {
        self.left > 1
    }

    /// Returns the bytes that weren't written yet.
    fn unsent(&self) -> &[u8]
        ensures { result.now ≡ self.now.unsent }
    {
        &self.frames[self.written..]
    }

    /// Notes that `count` more bytes were written.
    fn advance(&mut self, count: usize)
        requires { count ≤ length self.old.unsent }
        ensures { self.new ≡ record self.old { unsent = drop count self.old.unsent } }
    {
        self.written += count;
    }

    /// Notes that an answer was read which may have had `longest` bytes.
    fn take_answer(&mut self, longest: usize)
        requires { 0 < self.old.left }
        ensures { self.new ≡ record self.old { left = self.old.left - 1 } }
    {
        self.left -= 1;
        self.room = self.room.saturating_sub(longest.saturating_add(HEAD_LEN));
    }

    /// Notes that no more answers come.
    fn break_off(&mut self)
        ensures { self.new ≡ record self.old { left = 0 } }
    {
        self.left = 0;
    }
}

/// Returns whether bytes begin with a whole frame, or with the length of one whose body is longer than `longest`.
fn has_frame(bytes: &[u8], longest: usize) -> bool {
    let Some(head) = bytes.first_chunk::<4>() else {
        return false;
    };
    let len = u32::from_be_bytes(*head) as usize;
    len > longest || bytes.len() - HEAD_LEN >= len
}

/// Writes some of the bytes of a batch that weren't written yet, if there are any and the other side takes some.
fn write_step<R: Read, W: WriteDuplex<R>>(
    reader: &mut R,
    writer: &mut W,
    due: &mut DueBatch,
) -> Result<(), WriteFault>
    ensures wrote { WritesOn (W.contents writer.old) (W.contents writer.new) due.old.unsent due.new.unsent }
    ensures left { due.new.left ≡ due.old.left }
    ensures unread { Keeps (R.remaining reader.old) (R.remaining reader.new) }
{
    let count = write_some(reader, writer, due.unsent(), due.room)?;
    due.advance(count);
    Ok(())
}

/// Writes what the other side takes at once.
pub(crate) fn write_first<R: Read, W: WriteDuplex<R>>(
    reader: &mut R,
    writer: &mut W,
    due: &mut DueBatch,
) -> Result<(), WriteFault>
    ensures wrote { WritesOn (W.contents writer.old) (W.contents writer.new) due.old.unsent due.new.unsent }
    ensures left { due.new.left ≡ due.old.left }
    ensures unread { Keeps (R.remaining reader.old) (R.remaining reader.new) }
{
    if due.unsent().is_empty() {
        return Ok(());
    }
    write_step(reader, writer, due)?;
    if writer.flush().is_err() {
        return Err(WriteFault);
    }
    Ok(())
}

/// Writes until a whole frame was taken in for the reader, or all is written. If only one answer is still to come, all is written:
/// the host can't answer the last message before it has it.
fn write_steps<R: Read, W: WriteDuplex<R>>(
    reader: &mut R,
    writer: &mut W,
    due: &mut DueBatch,
    longest: usize,
) -> Result<(), WriteFault>
    ensures wrote { WritesOn (W.contents writer.old) (W.contents writer.new) due.old.unsent due.new.unsent }
    ensures left { due.new.left ≡ due.old.left }
    ensures last { OnOk result (due.old.left ≤ 1 → due.new.unsent ≡ []) }
    ensures unread { Keeps (R.remaining reader.old) (R.remaining reader.new) }
{
    for _ in 0..u64::MAX {
        if due.unsent().is_empty() {
            return Ok(());
        }
        if due.has_more() && has_frame(writer.arrived(reader), longest) {
            return Ok(());
        }
        write_step(reader, writer, due)?;
    }
    Err(WriteFault)
}

/// Goes on writing a batch until the next answer, which has at most `longest` bytes, can be read without waiting, or all is written.
/// If only one answer is still to come, all is written.
fn write_on<R: Read, W: WriteDuplex<R>>(
    reader: &mut R,
    writer: &mut W,
    due: &mut DueBatch,
    longest: usize,
) -> Result<(), WriteFault>
    ensures wrote { WritesOn (W.contents writer.old) (W.contents writer.new) due.old.unsent due.new.unsent }
    ensures left { due.new.left ≡ due.old.left }
    ensures last { OnOk result (due.old.left ≤ 1 → due.new.unsent ≡ []) }
    ensures unread { Keeps (R.remaining reader.old) (R.remaining reader.new) }
{
    if due.unsent().is_empty() {
        return Ok(());
    }
    write_steps(reader, writer, due, longest)?;
    if writer.flush().is_err() {
        return Err(WriteFault);
    }
    Ok(())
}

/// Receives the next answer of a batch that was begun, which has at most `longest` bytes. It goes on writing the batch as long as the
/// answer isn't there.
pub(crate) fn hear_next<R: Read, W: WriteDuplex<R>>(
    alloc: Global,
    reader: &mut R,
    writer: &mut W,
    due: &mut DueBatch,
    longest: usize,
) -> Result<Vec<u8>, LinkFault>
    requires some { 0 < due.old.left }
    requires within { longest ≤ LONGEST_BODY }
    ensures wrote { WritesOn (W.contents writer.old) (W.contents writer.new) due.old.unsent due.new.unsent }
    ensures read { (mid : Option (List ℕ)) × Keeps (R.remaining reader.old) mid × ReceivesWithin longest mid (R.remaining reader.new) (outcome_of result) }
    ensures left { MatchResult result (λ answer. due.new.left ≡ due.old.left - 1) (λ fault. due.new.left ≡ 0) }
    ensures last { OnOk result (due.new.left ≡ 0 → due.new.unsent ≡ []) }
{
    if write_on(reader, writer, due, longest).is_err() {
        due.break_off();
        return Err(LinkFault::Io);
    }
    let answer = receive(alloc, reader, longest);
    match &answer {
        Ok(_) => due.take_answer(longest),
        Err(_) => due.break_off(),
    }
    answer
}

/// Returns whether a connection takes no other batch after this answer: a fault has closed it, or more answers are due.
pub(crate) fn stays_closed(answer: &Result<Vec<u8>, LinkFault>, due: &DueBatch) -> bool
    ensures { MatchResult answer.now (λ bytes. MatchBool result (0 < due.now.left) (due.now.left ≡ 0)) (λ fault. result ≡ true) }
{
    match answer {
        Ok(_) => due.is_due(),
        Err(_) => true,
    }
}

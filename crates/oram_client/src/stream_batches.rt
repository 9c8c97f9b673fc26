//! Batches of messages over a reader and a writer.
ghost use Rattle.std.specs.Prelude.{◌≡◌, ◌≤◌, ◌++◌, ◌∷◌, [], ℕ, List, Err, length, take, true, IfOk, IfErr, OnErr, OnOk};
ghost use Rattle.std.specs.List.{All, flat_map};
ghost use Rattle.std.specs.Io.KnownBytes.{Appends, Keeps};
ghost use Rattle.oram_wire.specs.FrameStream.{IsBody, frame};
ghost use Rattle.oram_session.specs.Outcome.{outcome_of};
ghost use Rattle.oram_session.specs.declared.link.LinkFault.TheVariants.{Closed};
ghost use Rattle.oram_link_laws.specs.Runs.{Exchange};
ghost use Rattle.oram_rounds.specs.Batches.{batch_outcome_of, texts};
ghost use Rattle.oram_client.specs.AnswerLengths.{longest_answer};
ghost use Rattle.oram_pipeline.specs.Pipelines.{EndsBatch};
ghost use Rattle.oram_client.specs.StreamBatches.{AreAdded, AreReceived, AreSent, AreUnframed, Carries, FailsToSendAll, ReceivesWithin, SendsUntil, StopsAfter, StreamAsk, StreamBatch, Streams, connection};

use crate::answer_lengths::AnswerLengths;
use crate::due_batch::{DueBatch, hear_next, stays_closed, write_first};
use oram_rounds::{BatchLink, LinkRecords};
use oram_session::LinkFault;
use oram_sockets::WriteDuplex;
use oram_wire::{FrameFault, LONGEST_BODY, WriteFault, next_frame_within, write};
use std::alloc::{AllocError, Global};
use std::io::{ErrorKind, Read, Write};
use std::marker::Model;

/// A connection to a host at the other end of a reader and a writer. A batch is written in one piece, each message as a
/// frame, and flushed; then its answers are read, a frame each. An answer that is longer than an honest host's is refused once its
/// length is read. Any fault closes the connection: from then on each batch fails with `Closed`, and nothing is read or written.
///
/// While a batch is written, the writer takes in what arrives ([`WriteDuplex`]), though no more than the batch's answers may have. So
/// a host that writes the answer to one message before it reads the next never waits for a client that waits for it, whichever
/// messages are long and whichever answers.
///
/// Of a batch whose answers are taken one by one, only what the other side takes at once is written when it is begun. Each answer that
/// has to be waited for goes on with it. While answers are to come, each other batch fails with `Closed`.
#[derive(Debug, Drop)]
pub struct StreamBatches<R, W> {
    reader: R,
    writer: W,
    lengths: AnswerLengths,
    /// Whether a fault has closed the connection, or answers are to come one by one.
    closed: bool,
    due: DueBatch,
}

impl<R, W> Model for StreamBatches<R, W> {
    ghost use Rattle.oram_client.specs.StreamBatches.{Connection};

    ghost Value = { Connection R W };

    ghost view = { λ l. record { reader = l.reader; writer = l.writer; disk = l.lengths; closed = l.closed; due = l.due } };
}

impl<R, W> StreamBatches<R, W> {
    /// Makes a connection that sends messages to `writer` and receives answers from `reader`, none of them longer than `lengths`
    /// allows. Allocates nothing.
    pub fn new(alloc: Global, reader: R, writer: W, lengths: AnswerLengths) -> StreamBatches<R, W>
        ensures { result ≡ connection reader writer lengths }
    {
        StreamBatches {
            reader,
            writer,
            lengths,
            closed: false,
            due: DueBatch::none(alloc),
        }
    }

    /// Returns whether a fault has closed the connection, or answers are to come one by one.
    fn is_closed(&self) -> bool
        ensures { result ≡ self.now.closed }
    {
        self.closed
    }
}

/// The length in bytes of the number before a frame's body.
pub(crate) const HEAD_LEN: usize = 4;

/// Returns how many bytes the frames of bodies take, or `usize::MAX` if they take more.
fn frames_len(bodies: &[Vec<u8>]) -> usize {
    let mut len: usize = 0;
    for body in bodies {
        len = len.saturating_add(HEAD_LEN).saturating_add(body.len());
    }
    len
}

/// Adds a body as a frame. Fails with `TooLong` or `OutOfMemory`.
fn add_frame(frames: &mut Vec<u8>, body: &[u8]) -> Result<(), LinkFault>
    ensures fits { OnOk result (IsBody body.now) }
    ensures ok { OnOk result (frames.new.items ≡ frames.old.items ++ frame body.now) }
    ensures err { IfErr result (λ fault. AreUnframed (body.now ∷ []) fault) }
{
    if body.len() > LONGEST_BODY {
        return Err(LinkFault::TooLong);
    }
    frames.extend_from_slice(&(body.len() as u32).to_be_bytes())?;
    frames.extend_from_slice(body)?;
    Ok(())
}

/// Adds each of the bodies as a frame. Fails with `TooLong` or `OutOfMemory`.
fn add_frames(frames: &mut Vec<u8>, bodies: &[Vec<u8>]) -> Result<(), LinkFault>
    ensures fit { OnOk result (All IsBody (texts bodies.now)) }
    ensures ok { OnOk result (frames.new.items ≡ frames.old.items ++ flat_map frame (texts bodies.now)) }
    ensures err { IfErr result (λ fault. AreUnframed (texts bodies.now) fault) }
{
    for body in bodies {
        add_frame(frames, body)?;
    }
    Ok(())
}

/// Adds each of the bodies of both lists as a frame. Fails with `TooLong` or `OutOfMemory`.
fn add_both(frames: &mut Vec<u8>, first: &[Vec<u8>], last: &[Vec<u8>]) -> Result<(), LinkFault>
    ensures fit { OnOk result (All IsBody (texts first.now ++ texts last.now)) }
    ensures ok { OnOk result (frames.new.items ≡ frames.old.items ++ flat_map frame (texts first.now ++ texts last.now)) }
    ensures err { IfErr result (λ fault. AreUnframed (texts first.now ++ texts last.now) fault) }
{
    add_frames(frames, first)?;
    add_frames(frames, last)?;
    Ok(())
}

/// Returns the frames of the bodies of all four lists, in this order and in one piece.
fn framed(
    alloc: Global,
    before: &[Vec<u8>],
    first: &[Vec<u8>],
    between: &[Vec<u8>],
    last: &[Vec<u8>],
) -> Result<Vec<u8>, LinkFault>
    ensures fit { OnOk result (All IsBody ((texts before.now ++ texts first.now) ++ (texts between.now ++ texts last.now))) }
    ensures ok { IfOk result (λ frames. frames.items ≡ flat_map frame ((texts before.now ++ texts first.now) ++ (texts between.now ++ texts last.now))) }
    ensures err { IfErr result (λ fault. AreUnframed ((texts before.now ++ texts first.now) ++ (texts between.now ++ texts last.now)) fault) }
{
    let len = frames_len(before)
        .saturating_add(frames_len(first))
        .saturating_add(frames_len(between))
        .saturating_add(frames_len(last));
    let mut frames = Vec::with_capacity(alloc, len)?;
    add_both(&mut frames, before, first)?;
    add_both(&mut frames, between, last)?;
    Ok(frames)
}

/// Sends the bodies as frames, in one write, and flushes them. So they leave in as few packets as they fit into.
fn send_all<W: Write>(alloc: Global, writer: &mut W, bodies: &[Vec<u8>]) -> Result<(), LinkFault>
    ensures ok { OnOk result (AreSent W.contents writer.old (texts bodies.now) writer.new) }
    ensures err { IfErr result (λ fault. FailsToSendAll W.contents writer.old (texts bodies.now) fault writer.new) }
{
    let frames = framed(alloc, &[], &[], &[], bodies)?;
    if let Err(WriteFault) = write(writer, &frames) {
        return Err(LinkFault::Io);
    }
    if writer.flush().is_err() {
        return Err(LinkFault::Io);
    }
    Ok(())
}

/// Writes some of the bytes, and returns how many: none if the other side takes none yet.
#[tactic(auto, using(crate::proofs::TakenIn::kept_appends, crate::proofs::TakenIn::appends_kept))]
pub(crate) fn write_some<R: Read, W: WriteDuplex<R>>(
    reader: &mut R,
    writer: &mut W,
    bytes: &[u8],
    room: usize,
) -> Result<usize, WriteFault>
    ensures bound { IfOk result (λ n. n ≤ length bytes.now) }
    ensures ok { IfOk result (λ n. Appends (W.contents writer.old) (W.contents writer.new) (take n bytes.now)) }
    ensures err { OnErr result (Keeps (W.contents writer.old) (W.contents writer.new)) }
    ensures unread { Keeps (R.remaining reader.old) (R.remaining reader.new) }
{
    match writer.write_duplex(reader, bytes, room) {
        Ok(None) => Ok(0),
        Ok(Some(0)) => Err(WriteFault),
        Ok(Some(count)) => Ok(count),
        Err(error) if error.kind() == ErrorKind::Interrupted => Ok(0),
        Err(_) => Err(WriteFault),
    }
}

/// Writes all of the bytes, and takes in at most `room` bytes that arrive meanwhile.
fn write_duplex<R: Read, W: WriteDuplex<R>>(
    reader: &mut R,
    writer: &mut W,
    bytes: &[u8],
    room: usize,
) -> Result<(), WriteFault>
    ensures ok { OnOk result (Appends (W.contents writer.old) (W.contents writer.new) bytes.now) }
    ensures err { OnErr result ((count : ℕ) × Appends (W.contents writer.old) (W.contents writer.new) (take count bytes.now)) }
    ensures unread { Keeps (R.remaining reader.old) (R.remaining reader.new) }
{
    let mut written = 0;
    for _ in 0..u64::MAX {
        if written == bytes.len() {
            return Ok(());
        }
        let count = write_some(reader, writer, &bytes[written..], room)?;
        written += count;
    }
    Err(WriteFault)
}

/// Returns how many bytes the frames of the answers to these messages have at most, or `usize::MAX` if they may have more.
fn answers_len(lengths: &AnswerLengths, bodies: &[Vec<u8>]) -> usize {
    let mut len: usize = 0;
    for body in bodies {
        len = len
            .saturating_add(HEAD_LEN)
            .saturating_add(lengths.longest(body));
    }
    len
}

/// Returns how many bytes the frames of the answers to the messages of all four lists have at most, or `usize::MAX` if they may have
/// more.
fn room_for(
    lengths: &AnswerLengths,
    before: &[Vec<u8>],
    first: &[Vec<u8>],
    between: &[Vec<u8>],
    last: &[Vec<u8>],
) -> usize {
    answers_len(lengths, before)
        .saturating_add(answers_len(lengths, first))
        .saturating_add(answers_len(lengths, between))
        .saturating_add(answers_len(lengths, last))
}

/// Sends the bodies of all four lists as frames, and takes in what arrives of their answers meanwhile.
/// The frames are one piece, so they leave in as few packets as they fit into, and each is copied once.
fn send_duplex<R: Read, W: WriteDuplex<R>>(
    alloc: Global,
    reader: &mut R,
    writer: &mut W,
    lengths: &AnswerLengths,
    before: &[Vec<u8>],
    first: &[Vec<u8>],
    between: &[Vec<u8>],
    last: &[Vec<u8>],
) -> Result<(), LinkFault>
    ensures ok { OnOk result (AreSent W.contents writer.old ((texts before.now ++ texts first.now) ++ (texts between.now ++ texts last.now)) writer.new) }
    ensures err { IfErr result (λ fault. FailsToSendAll W.contents writer.old ((texts before.now ++ texts first.now) ++ (texts between.now ++ texts last.now)) fault writer.new) }
    ensures unread { Keeps (R.remaining reader.old) (R.remaining reader.new) }
{
    let frames = framed(alloc, before, first, between, last)?;
    let room = room_for(lengths, before, first, between, last);
    if let Err(WriteFault) = write_duplex(reader, writer, &frames, room) {
        return Err(LinkFault::Io);
    }
    if writer.flush().is_err() {
        return Err(LinkFault::Io);
    }
    Ok(())
}

/// Receives the next frame and returns its body. Of an answer longer than `longest` it reads only the length, and then it fails
/// with `TooLong`.
pub(crate) fn receive<R: Read>(
    alloc: Global,
    reader: &mut R,
    longest: usize,
) -> Result<Vec<u8>, LinkFault>
    requires { longest ≤ LONGEST_BODY }
    ensures { ReceivesWithin longest (R.remaining reader.old) (R.remaining reader.new) (outcome_of result) }
{
    match next_frame_within(alloc, reader, longest) {
        Ok(Some(body)) => Ok(body),
        Ok(None) | Err(FrameFault::Truncated) => Err(LinkFault::Closed),
        Err(FrameFault::Read) => Err(LinkFault::Io),
        Err(FrameFault::Frame) => Err(LinkFault::TooLong),
        Err(FrameFault::OutOfMemory) => Err(LinkFault::OutOfMemory),
    }
}

/// Adds an answer to a list.
fn push(answers: &mut Vec<Vec<u8>>, answer: Vec<u8>) -> Result<(), LinkFault>
    ensures ok { OnOk result (texts answers.new.items ≡ texts answers.old.items ++ answer.items ∷ []) }
    ensures err { IfErr result (λ fault. fault ≡ LinkFault.OutOfMemory) }
{
    match answers.push(answer) {
        Ok(()) => Ok(()),
        Err(_) => Err(LinkFault::OutOfMemory),
    }
}

/// Receives an answer to each of the messages, and adds it to a list.
fn receive_each<R: Read>(
    alloc: Global,
    reader: &mut R,
    lengths: &AnswerLengths,
    bodies: &[Vec<u8>],
    answers: &mut Vec<Vec<u8>>,
) -> Result<(), LinkFault>
    ensures ok { OnOk result (AreAdded (longest_answer lengths.now) (R.remaining reader.old) (R.remaining reader.new) (texts bodies.now) (texts answers.old.items) (texts answers.new.items)) }
    ensures err { IfErr result (λ fault. (more : List (List ℕ)) × StopsAfter (longest_answer lengths.now) (R.remaining reader.old) (R.remaining reader.new) (texts bodies.now) more fault) }
{
    for body in bodies {
        let answer = receive(alloc, reader, lengths.longest(body))?;
        push(answers, answer)?;
    }
    Ok(())
}

/// Receives an answer to each of the messages of both lists, and adds it to a list.
fn receive_both<R: Read>(
    alloc: Global,
    reader: &mut R,
    lengths: &AnswerLengths,
    first: &[Vec<u8>],
    last: &[Vec<u8>],
    answers: &mut Vec<Vec<u8>>,
) -> Result<(), LinkFault>
    ensures ok { OnOk result (AreAdded (longest_answer lengths.now) (R.remaining reader.old) (R.remaining reader.new) (texts first.now ++ texts last.now) (texts answers.old.items) (texts answers.new.items)) }
    ensures err { IfErr result (λ fault. (more : List (List ℕ)) × StopsAfter (longest_answer lengths.now) (R.remaining reader.old) (R.remaining reader.new) (texts first.now ++ texts last.now) more fault) }
{
    receive_each(alloc, reader, lengths, first, answers)?;
    receive_each(alloc, reader, lengths, last, answers)
}

/// Receives an answer to each of the messages of all four lists.
fn receive_all<R: Read>(
    alloc: Global,
    reader: &mut R,
    lengths: &AnswerLengths,
    before: &[Vec<u8>],
    first: &[Vec<u8>],
    between: &[Vec<u8>],
    last: &[Vec<u8>],
) -> Result<Vec<Vec<u8>>, LinkFault>
    ensures ok { IfOk result (λ answers. AreReceived (longest_answer lengths.now) (R.remaining reader.old) (R.remaining reader.new)
        ((texts before.now ++ texts first.now) ++ (texts between.now ++ texts last.now)) (texts answers.items)) }
    ensures err { IfErr result (λ fault. (answers : List (List ℕ)) × StopsAfter (longest_answer lengths.now) (R.remaining reader.old) (R.remaining reader.new)
        ((texts before.now ++ texts first.now) ++ (texts between.now ++ texts last.now)) answers fault) }
{
    let mut answers = Vec::new(alloc);
    receive_both(alloc, reader, lengths, before, first, &mut answers)?;
    receive_both(alloc, reader, lengths, between, last, &mut answers)?;
    Ok(answers)
}

/// Sends the bodies of all four lists, and receives their answers.
fn carry<R: Read, W: WriteDuplex<R>>(
    alloc: Global,
    reader: &mut R,
    writer: &mut W,
    lengths: &AnswerLengths,
    before: &[Vec<u8>],
    first: &[Vec<u8>],
    between: &[Vec<u8>],
    last: &[Vec<u8>],
) -> Result<Vec<Vec<u8>>, LinkFault>
    ensures { (exchanges : List Exchange) × Carries R.remaining W.contents (longest_answer lengths.now)
        reader.old writer.old ((texts before.now ++ texts first.now) ++ (texts between.now ++ texts last.now)) (batch_outcome_of result) exchanges reader.new writer.new }
{
    send_duplex(alloc, reader, writer, lengths, before, first, between, last)?;
    receive_all(alloc, reader, lengths, before, first, between, last)
}

/// Encodes the bodies of all four lists as frames, in this order. Writes nothing yet.
fn frames_due(
    alloc: Global,
    lengths: &AnswerLengths,
    before: &[Vec<u8>],
    first: &[Vec<u8>],
    between: &[Vec<u8>],
    last: &[Vec<u8>],
) -> Result<DueBatch, LinkFault>
    ensures fit { OnOk result (All IsBody ((texts before.now ++ texts first.now) ++ (texts between.now ++ texts last.now))) }
    ensures ok { IfOk result (λ due. due ≡ record { unsent = flat_map frame ((texts before.now ++ texts first.now) ++ (texts between.now ++ texts last.now)); left = length ((texts before.now ++ texts first.now) ++ (texts between.now ++ texts last.now)) }) }
    ensures err { IfErr result (λ fault. AreUnframed ((texts before.now ++ texts first.now) ++ (texts between.now ++ texts last.now)) fault) }
{
    let frames = framed(alloc, before, first, between, last)?;
    let room = room_for(lengths, before, first, between, last);
    let count = before.len() + first.len() + between.len() + last.len();
    Ok(DueBatch::new(frames, count, room))
}

/// Begins to send the bodies of all four lists as frames: writes what the other side takes at once.
fn send_first<R: Read, W: WriteDuplex<R>>(
    alloc: Global,
    reader: &mut R,
    writer: &mut W,
    lengths: &AnswerLengths,
    before: &[Vec<u8>],
    first: &[Vec<u8>],
    between: &[Vec<u8>],
    last: &[Vec<u8>],
) -> Result<DueBatch, LinkFault>
    ensures ok { IfOk result (λ due. SendsUntil W.contents writer.old ((texts before.now ++ texts first.now) ++ (texts between.now ++ texts last.now)) writer.new due.unsent) }
    ensures count { IfOk result (λ due. due.left ≡ length ((texts before.now ++ texts first.now) ++ (texts between.now ++ texts last.now))) }
    ensures err { IfErr result (λ fault. FailsToSendAll W.contents writer.old ((texts before.now ++ texts first.now) ++ (texts between.now ++ texts last.now)) fault writer.new) }
    ensures unread { Keeps (R.remaining reader.old) (R.remaining reader.new) }
{
    let mut due = frames_due(alloc, lengths, before, first, between, last)?;
    if write_first(reader, writer, &mut due).is_err() {
        return Err(LinkFault::Io);
    }
    Ok(due)
}

impl<R: Read, W: WriteDuplex<R>> StreamBatches<R, W> {
    /// Sends a batch as [`BatchLink::call_all`] does: the bodies of all four lists, in this order.
    pub fn call_between(
        &mut self,
        alloc: Global,
        before: &[Vec<u8>],
        first: &[Vec<u8>],
        between: &[Vec<u8>],
        last: &[Vec<u8>],
    ) -> Result<Vec<Vec<u8>>, LinkFault>
        ensures { (exchanges : List Exchange) × StreamBatch R.remaining W.contents self.old
            ((texts before.now ++ texts first.now) ++ (texts between.now ++ texts last.now)) (batch_outcome_of result) exchanges self.new }
    {
        if self.is_closed() {
            return Err(LinkFault::Closed);
        }
        let outcome = carry(
            alloc,
            &mut self.reader,
            &mut self.writer,
            &self.lengths,
            before,
            first,
            between,
            last,
        );
        self.closed = outcome.is_err();
        outcome
    }

    /// Begins to send a batch that [`call_between`](StreamBatches::call_between) would send: it writes what the other side takes at once.
    /// [`next_answer`](BatchLink::next_answer) goes on with that, and reads the answers, one at a time. If it fails, that is the outcome of the
    /// batch.
    pub fn begin_between(
        &mut self,
        alloc: Global,
        before: &[Vec<u8>],
        first: &[Vec<u8>],
        between: &[Vec<u8>],
        last: &[Vec<u8>],
    ) -> Result<(), LinkFault>
        ensures ok { OnOk result (Streams R.remaining W.contents self.old
            ((texts before.now ++ texts first.now) ++ (texts between.now ++ texts last.now)) [] self.new) }
        ensures err { IfErr result (λ fault. (exchanges : List Exchange) × StreamBatch R.remaining W.contents self.old
            ((texts before.now ++ texts first.now) ++ (texts between.now ++ texts last.now)) (Err fault) exchanges self.new) }
    {
        if self.is_closed() {
            return Err(LinkFault::Closed);
        }
        let begun = send_first(
            alloc,
            &mut self.reader,
            &mut self.writer,
            &self.lengths,
            before,
            first,
            between,
            last,
        );
        match begun {
            Ok(due) => {
                self.closed = due.is_due();
                self.due = due;
                Ok(())
            }
            Err(fault) => {
                self.closed = true;
                Err(fault)
            }
        }
    }
}

impl<R: Read, W: Write> StreamBatches<R, W> {
    /// Sends the messages of a batch and reads nothing: [`hear`](StreamBatches::hear) reads their answers. If it fails, that is the outcome
    /// of the batch.
    pub fn ask(&mut self, alloc: Global, bodies: &[Vec<u8>]) -> Result<(), LinkFault>
        ensures ok { OnOk result (StreamAsk W.contents self.old (texts bodies.now) self.new) }
        ensures err { IfErr result (λ fault. (exchanges : List Exchange) × StreamBatch R.remaining W.contents self.old (texts bodies.now) (Err fault) exchanges self.new) }
    {
        if self.is_closed() {
            return Err(LinkFault::Closed);
        }
        let sent = send_all(alloc, &mut self.writer, bodies);
        self.closed = sent.is_err();
        sent
    }

    /// Reads the answers to the messages that [`ask`](StreamBatches::ask) has just sent, in their order.
    pub fn hear(&mut self, alloc: Global, bodies: &[Vec<u8>]) -> Result<Vec<Vec<u8>>, LinkFault>
        ensures ends { EndsBatch (StreamBatch R.remaining W.contents) (StreamAsk W.contents) (texts bodies.now) self.old (batch_outcome_of result) self.new }
        ensures closed { self.old.closed ≡ true → (batch_outcome_of result ≡ Err Closed) × (self.new ≡ self.old) }
    {
        if self.is_closed() {
            return Err(LinkFault::Closed);
        }
        let heard = receive_all(
            alloc,
            &mut self.reader,
            &self.lengths,
            &[],
            &[],
            &[],
            bodies,
        );
        self.closed = heard.is_err();
        heard
    }
}

impl<R: Read, W: WriteDuplex<R>> BatchLink for StreamBatches<R, W> {
    ghost use Rattle.std.specs.Prelude.{◌≡◌, [], ⊤};
    ghost use Rattle.std.proofs.Common.{inl};
    ghost use Rattle.oram_client.specs.StreamBatches.{StreamBatch, Streams};
    ghost use Rattle.oram_client.specs.BatchExchanges.{streams_are_batches, streams_end};

    ghost batches = { λ l bodies o exchanges m. StreamBatch R.remaining W.contents l bodies o exchanges m };

    ghost streams = { λ l bodies answers m. Streams R.remaining W.contents l bodies answers m };

    ghost notes = { λ l. record { text = []; records = [] } };

    ghost tells = { λ l old. ⊤ };

    ghost learns = { λ l check m. m ≡ l };

    fn call_all(
        &mut self,
        alloc: Global,
        first: &[Vec<u8>],
        last: &[Vec<u8>],
    ) -> Result<Vec<Vec<u8>>, LinkFault> {
        self.call_between(alloc, &[], first, &[], last)
    }

    fn begin(&mut self, alloc: Global, first: &[Vec<u8>], last: &[Vec<u8>]) -> bool {
        self.begin_between(alloc, &[], first, &[], last).is_ok()
    }

    /// Reads the next frame, and goes on writing the batch as long as it isn't there. A fault closes the connection. Once the last answer
    /// is read, all is written, and the connection takes another batch.
    fn next_answer(&mut self, alloc: Global, body: &[u8]) -> Result<Vec<u8>, LinkFault> {
        if !self.due.is_due() {
            return Err(LinkFault::Closed);
        }
        let longest = self.lengths.longest(body);
        let answer = hear_next(
            alloc,
            &mut self.reader,
            &mut self.writer,
            &mut self.due,
            longest,
        );
        self.closed = stays_closed(&answer, &self.due);
        answer
    }

    /// Returns no bytes: this link has nothing to remember.
    fn note(&self, alloc: Global) -> Result<Vec<u8>, AllocError> {
        Ok(Vec::new(alloc))
    }

    fn records(&self) -> LinkRecords<'_> {
        LinkRecords::none()
    }

    fn learn_kept(&mut self, _check: u64) {}

    ghost are_batches = { λ l m bodies o exchanges h. streams_are_batches R.remaining W.contents l m bodies o exchanges h };

    ghost ends_as_batch = { λ l m bodies answers h count. streams_end R.remaining W.contents l m bodies answers h count };

    ghost learning_sends_nothing = { λ l m check same. inl same };

    ghost batches_are_told = { λ l m bodies o exchanges old some h told. tt };

    ghost learning_counts_anew = { λ l m check same. tt };
}

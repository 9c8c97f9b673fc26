//! Connections to the host of a disk, over TCP or over a Unix socket.
ghost use Rattle.std.specs.Prelude.{◌≡◌, ◌≢◌, ◌<◌, ◌+◌, ◌++◌, List, OnOk, IfOk, IfErr, MatchBool, length, string_bytes};
ghost use Rattle.oram_link_laws.specs.Runs.{Exchange};
ghost use Rattle.oram_rounds.specs.Batches.{batch_outcome_of, texts};
ghost use Rattle.oram_stamps.specs.Stamps.{shown_text};
ghost use Rattle.oram_client.specs.Attempts.{attempt_of};
ghost use Rattle.oram_client.specs.Dialer.{mismatch_trouble};
ghost use Rattle.oram_client.specs.Stamped.{ArePutFor, CarriesStamped, ComesTo, GivesNoStamps, GivesStamps, IsCompared, IsLearnt, IsUncompared, ShowsNoStamps, TakesStamps, with_known};
ghost use Rattle.oram_client.specs.StampedStreams.{HearsDone, StreamsStamped, learnt_done};
ghost use Rattle.oram_client.specs.Streaming.{BeginsOver, GivesOver};
ghost use Rattle.oram_sockets.specs.Duplex.{contents_of, remaining_of};
ghost use Rattle.oram_stamps.specs.Known.{IsMismatch, IsTakenOver, Stamps};
ghost use Rattle.oram_stamps.specs.declared.known.Mismatch.{Mismatch};
ghost use Rattle.oram_wire.specs.HostMessages.{answer_body, done_answer, no_room_answer, payload_answer};
ghost use Rattle.oram_client.specs.Dialer as spec;
ghost use Rattle.oram_wire.specs.declared.host_messages.HostAnswer.TheVariants.{Payload};
ghost use Rattle.oram_client.specs.Dialer.{Shows, IsGreetedOver, IsUngreetedOver};

use crate::answer_lengths::AnswerLengths;
use crate::awaited::{Progress, Sending};
use crate::dialer::{Dial, Limits, Trouble};
use crate::identity::{IDENTITY_TREE, STAMP_TREE, stamp_message};
use crate::no_room::{has_no_room, is_no_room};
use crate::reconnect_time::elapsed;
use crate::stamp_answers::{hear_begun, hear_own, hear_stamp};
use crate::timed_link::{TimedLink, milliseconds};
use oram_cli::limit_silence;
use oram_host::HostRefusal;
use oram_rounds::BatchLink;
use oram_session::LinkFault;
use oram_sockets::{Connection, Duplex, WriteDuplex, connect_to};
use oram_stamps::{Known, Place, Shown, StampKey, decode_shown, encode_note, masked};
use oram_wire::{GOOD, REFUSED, fetch_header, is_done};
use std::alloc::{AllocError, Global};
use std::io::Read;
use std::marker::Model;
use std::net::{Net, OpenStream};
use std::rt::Clock;
use std::time::Duration;
use std::{slice, thread};

/// The longest time to connect to a host, in milliseconds.
const LONGEST_CONNECTING: u64 = 10_000;

/// Connects to the host of a disk.
///
/// On each new connection it first asks for the identity of the disk and for the host's stamps, and uses the connection only if the
/// host answers with the right identity, and with stamps that it may have by what the dialer knows of them.
///
/// A batch that is the first one since the process was kept, or that has STOREs, goes between two messages: one says that the host has
/// begun this batch, and one that it has done it. The caller doesn't see the answers to these two. The host puts both even if it has no
/// room for a STORE between them. So a batch that is sent again has another stamp, and only a batch that had room counts as done.
#[derive(Debug, Drop)]
pub struct TcpDialer<R> {
    rt: R,
    address: String,
    identity: [u8; 32],
    /// The key of the disk's stamps.
    key: StampKey,
    known: Known,
    lengths: AnswerLengths,
}

impl<R> Model for TcpDialer<R> {
    ghost use Rattle.std.specs.Prelude.{string_bytes};
    ghost use Rattle.oram_client.specs.Dialer.{Destination};

    ghost Value = { Destination };

    ghost view = { λ d. record { address = string_bytes d.address; identity = d.identity; key = d.key.0; known = d.known; disk = d.lengths } };
}

impl<R> TcpDialer<R> {
    /// Makes a dialer for the host at `address`, which is an IP address and a port, or `unix:` and the path of a socket. The
    /// host has to keep the disk with `identity`, whose stamps have this key, and to give no answer that is longer than `lengths` allows.
    pub fn new(
        rt: R,
        address: String,
        identity: [u8; 32],
        key: StampKey,
        known: Known,
        lengths: AnswerLengths,
    ) -> TcpDialer<R>
        ensures { result ≡ record { address = string_bytes address; identity = identity; key = key.0; known = known; disk = lengths } }
    {
        TcpDialer {
            rt,
            address,
            identity,
            key,
            known,
            lengths,
        }
    }
}

/// Compares the answer to a greeting with the identity that the host has to keep.
fn judge(answer: &[u8], identity: &[u8; 32]) -> Result<(), Trouble>
    ensures ok { OnOk result (answer.now ≡ answer_body (Payload identity.now)) }
    ensures err { IfErr result (λ trouble. Shows identity.now answer.now trouble) }
{
    let Some((first, rest)) = answer.split_first() else {
        return Err(Trouble::OutOfReach(LinkFault::Io));
    };
    match *first {
        GOOD if rest == identity.as_slice() => Ok(()),
        GOOD => Err(Trouble::AnotherDisk),
        REFUSED if rest == [HostRefusal::OutOfMemory.code()].as_slice() => Err(Trouble::NoRoom),
        REFUSED => Err(Trouble::NoDisk),
        _ => Err(Trouble::OutOfReach(LinkFault::Io)),
    }
}

/// Returns the message that asks for the identity of a disk.
fn greeting(alloc: Global) -> Result<Vec<u8>, LinkFault>
    ensures ok { IfOk result (λ message. message.items ≡ spec.greeting) }
    ensures err { IfErr result (λ fault. fault ≡ LinkFault.OutOfMemory) }
{
    Ok(fetch_header(IDENTITY_TREE, 0).to_vec(alloc)?)
}

/// Asks the host over a new connection for the identity of its disk. The host has `limit` milliseconds to answer.
/// Returns a link over the connection if the answer is `identity`.
fn greet<S: Read + WriteDuplex<S>, C: Clock + Copy>(
    alloc: Global,
    reader: S,
    writer: S,
    clock: C,
    limit: u64,
    lengths: AnswerLengths,
    identity: &[u8; 32],
) -> Result<TimedLink<S, C>, Trouble>
where
    S: Drop,
    ensures ok { IfOk result (λ line. IsGreetedOver S.remaining S.contents reader writer lengths identity.now line) }
    ensures err { IfErr result (λ trouble. IsUngreetedOver S.remaining S.contents reader writer lengths identity.now trouble) }
{
    let mut line = TimedLink::new(alloc, reader, writer, clock, limit, lengths)?;
    match line.call_all(alloc, &[], &[greeting(alloc)?]) {
        Ok(answers) => match judge(&answers[0], identity) {
            Ok(()) => Ok(line),
            Err(trouble) => Err(trouble),
        },
        Err(fault) => Err(Trouble::OutOfReach(fault)),
    }
}

/// Returns the message that asks for the host's stamps.
fn stamps_question(alloc: Global) -> Result<Vec<u8>, LinkFault>
    ensures ok { IfOk result (λ message. message.items ≡ spec.stamps_question) }
    ensures err { IfErr result (λ fault. fault ≡ LinkFault.OutOfMemory) }
{
    Ok(fetch_header(STAMP_TREE, 0).to_vec(alloc)?)
}

/// Reads the stamps in the answer to that message.
fn shown_in(answer: &[u8], key: &StampKey) -> Result<Shown, Trouble>
    ensures ok { IfOk result (λ shown. answer.now ≡ payload_answer (shown_text key.now.0 shown)) }
    ensures err { IfErr result (λ trouble. ShowsNoStamps key.now.0 answer.now trouble) }
{
    let Some((first, rest)) = answer.split_first() else {
        return Err(Trouble::OutOfReach(LinkFault::Io));
    };
    match *first {
        GOOD => match decode_shown(key, rest) {
            Some(shown) => Ok(shown),
            None => Err(Trouble::NoStamps),
        },
        REFUSED if rest == [HostRefusal::OutOfMemory.code()].as_slice() => Err(Trouble::NoRoom),
        REFUSED => Err(Trouble::NoStamps),
        _ => Err(Trouble::OutOfReach(LinkFault::Io)),
    }
}

/// Asks the host for its stamps.
fn ask_stamps<S: Read + WriteDuplex<S>, C: Clock>(
    alloc: Global,
    line: &mut TimedLink<S, C>,
    key: &StampKey,
) -> Result<Shown, Trouble>
    ensures ok { IfOk result (λ shown. GivesStamps S.remaining S.contents key.now.0 line.old shown line.new) }
    ensures err { IfErr result (λ trouble. GivesNoStamps S.remaining S.contents key.now.0 line.old trouble line.new) }
{
    match line.call_all(alloc, &[], &[stamps_question(alloc)?]) {
        Ok(answers) => shown_in(&answers[0], key),
        Err(fault) => Err(Trouble::OutOfReach(fault)),
    }
}

/// Returns what the answers to the messages that put a stamp at both places come to.
fn are_put(begun: &[u8], done: &[u8]) -> Result<(), Trouble>
    ensures ok { OnOk result ((begun.now ≡ done_answer) × (done.now ≡ done_answer)) }
    ensures err { IfErr result (λ trouble. ArePutFor begun.now done.now trouble) }
{
    if is_no_room(begun) {
        return Err(Trouble::NoRoom);
    }
    if is_no_room(done) {
        return Err(Trouble::NoRoom);
    }
    if !is_done(begun) {
        return Err(Trouble::NoStamps);
    }
    if !is_done(done) {
        return Err(Trouble::NoStamps);
    }
    Ok(())
}

/// Takes the answers to a batch's two stamps out of its answers: the first one and the last one. Fails if the host hasn't put both.
fn take_stamps(answers: &mut Vec<Vec<u8>>) -> Result<(), Trouble>
    requires { 1 < length answers.old.items }
    ensures { TakesStamps (texts answers.old.items) result (texts answers.new.items) }
{
    let begun = answers.remove(0);
    let Some(done) = answers.pop() else {
        unreachable!()
    };
    are_put(&begun, &done)
}

impl<R> TcpDialer<R> {
    /// Learns from the answers to a batch's own messages whether the host has done the batch.
    fn learn_answers(&mut self, answers: &[Vec<u8>])
        ensures { (known : Stamps) × IsLearnt self.old.known (texts answers.now) known × (self.new ≡ with_known self.old known) }
    {
        if !has_no_room(answers) {
            self.known.settle();
        }
    }

    /// Learns what a batch between its stamps has come to, and returns what its caller receives: all answers but those to the two
    /// stamps.
    fn learn_outcome(
        &mut self,
        outcome: Result<Vec<Vec<u8>>, LinkFault>,
    ) -> Result<Vec<Vec<u8>>, Trouble>
        requires { IfOk outcome (λ answers. 1 < length answers.items) }
        ensures { ComesTo self.old self.old.known (batch_outcome_of outcome) (attempt_of result) self.new }
    {
        match outcome {
            Ok(mut answers) => match take_stamps(&mut answers) {
                Ok(()) => {
                    self.learn_answers(&answers);
                    Ok(answers)
                }
                Err(trouble) => Err(trouble),
            },
            Err(fault) => Err(Trouble::OutOfReach(fault)),
        }
    }

    /// Sends a batch between the messages that put its stamp at both of the host's places: begun before all of its messages, and done
    /// after them. All answers but those to these two are returned.
    fn carry_stamped<S: Read + WriteDuplex<S>, C: Clock>(
        &mut self,
        alloc: Global,
        line: &mut TimedLink<S, C>,
        first: &[Vec<u8>],
        last: &[Vec<u8>],
    ) -> Result<Vec<Vec<u8>>, Trouble>
        ensures { (exchanges : List Exchange) × CarriesStamped S.remaining S.contents self.old line.old (texts first.now ++ texts last.now) (attempt_of result) exchanges self.new line.new }
    {
        let stamp = self.known.next_stamp();
        let begun = stamp_message(alloc, &self.key, Place::Begun, &stamp)?;
        let done = stamp_message(alloc, &self.key, Place::Done, &stamp)?;
        self.known.send(alloc)?;
        let outcome = line.call_between(alloc, &[begun], first, last, &[done]);
        self.learn_outcome(outcome)
    }

    /// Sends a batch as [`carry_stamped`](TcpDialer::carry_stamped) does, and reads no answers.
    fn begin_stamped<S: Read + WriteDuplex<S>, C: Clock>(
        &mut self,
        alloc: Global,
        line: &mut TimedLink<S, C>,
        first: &[Vec<u8>],
        last: &[Vec<u8>],
    ) -> Result<Progress, Trouble>
        requires { 0 < length first.now + length last.now }
        ensures { BeginsOver (CarriesStamped S.remaining S.contents) (StreamsStamped S.remaining S.contents) self.old line.old (texts first.now ++ texts last.now) result self.new line.new }
    {
        let next = self.known.next_stamp();
        let begun = stamp_message(alloc, &self.key, Place::Begun, &next)?;
        let done = stamp_message(alloc, &self.key, Place::Done, &next)?;
        self.known.send(alloc)?;
        let before = slice::from_ref(&begun);
        let behind = slice::from_ref(&done);
        if let Err(fault) = line.begin_between(alloc, before, first, last, behind) {
            return Err(Trouble::OutOfReach(fault));
        }
        Ok(Progress {
            left: first.len() + last.len(),
            no_room: false,
            begun: Some(begun),
            done: Some(done),
        })
    }

    /// Learns that the host has put a batch's stamp as done. It has done the batch, unless it had no room for one of the messages.
    fn learn_done(&mut self, no_room: bool)
        ensures { self.new ≡ learnt_done self.old no_room }
    {
        if !no_room {
            self.known.settle();
        }
    }

    /// Reads the answer to the message that puts a batch's stamp as done, once all others were read, and learns from it.
    fn hear_done<S: Read + WriteDuplex<S>, C: Clock>(
        &mut self,
        alloc: Global,
        line: &mut TimedLink<S, C>,
        progress: &mut Progress,
    ) -> Result<(), Trouble>
        ensures { HearsDone S.remaining S.contents self.old line.old progress.old result self.new line.new progress.new }
    {
        if progress.left > 0 {
            return Ok(());
        }
        let Some(done) = progress.done.take() else {
            return Ok(());
        };
        match hear_stamp(alloc, line, &done) {
            Ok(()) => {
                self.learn_done(progress.no_room);
                Ok(())
            }
            Err(trouble) => Err(trouble),
        }
    }

    /// Reads the next answer to a batch's own messages, and with the first one and the last one those to its stamps.
    fn next_stamped<S: Read + WriteDuplex<S>, C: Clock>(
        &mut self,
        alloc: Global,
        line: &mut TimedLink<S, C>,
        progress: &mut Progress,
        body: &[u8],
    ) -> Result<Vec<u8>, Trouble>
        ensures { GivesOver (CarriesStamped S.remaining S.contents) (StreamsStamped S.remaining S.contents) self.old line.old progress.old body.now result self.new line.new progress.new }
    {
        match hear_begun(alloc, line, progress) {
            Ok(()) => match hear_own(alloc, line, progress, body) {
                Ok(answer) => match self.hear_done(alloc, line, progress) {
                    Ok(()) => Ok(answer),
                    Err(trouble) => Err(trouble),
                },
                Err(trouble) => Err(trouble),
            },
            Err(trouble) => Err(trouble),
        }
    }
}

impl<R> TcpDialer<R> {
    /// Takes over the stamps that the host shows, if it may have them by what is known.
    fn take_over(&mut self, shown: &Shown) -> Result<(), Trouble>
        ensures ok { OnOk result ((known : Stamps) × IsTakenOver self.old.known shown.now known × (self.new ≡ with_known self.old known)) }
        ensures err { IfErr result (λ trouble. (self.new ≡ self.old) × ((why : Mismatch) × IsMismatch self.old.known shown.now why × (trouble ≡ mismatch_trouble why))) }
    {
        match self.known.take_over(shown) {
            Ok(()) => Ok(()),
            Err(why) => Err(Trouble::from(why)),
        }
    }
}

impl<R: Net + Clock + Copy> TcpDialer<R> {
    /// Asks the host over a new connection for its stamps, and takes them over if it may have them. From then on it may be silent
    /// for `silence` milliseconds.
    fn compare(
        &mut self,
        alloc: Global,
        line: &mut TimedLink<Duplex<R, Connection<R::Stream>>, R>,
        both: &Connection<R::Stream>,
        silence: u64,
    ) -> Result<(), Trouble>
        ensures ok { OnOk result (IsCompared (remaining_of R.Stream.remaining) (contents_of R.Stream.contents) self.old line.old line.new self.new) }
        ensures err { IfErr result (λ trouble. (self.new ≡ self.old) × IsUncompared (remaining_of R.Stream.remaining) (contents_of R.Stream.contents) self.old line.old trouble) }
    {
        match ask_stamps(alloc, line, &self.key) {
            Ok(shown) => match limit_silence(both, Duration::from_millis(silence)) {
                Ok(()) => self.take_over(&shown),
                Err(fault) => Err(Trouble::from(fault)),
            },
            Err(trouble) => Err(trouble),
        }
    }
}

impl<R: Net + Clock + Copy> Dial for TcpDialer<R> {
    ghost use Rattle.std.specs.Prelude.{◌≡◌};
    ghost use Rattle.oram_client.specs.Stamped.{AsksPlainly, CarriesStamped, FailsToOpen, Opens};
    ghost use Rattle.oram_client.specs.StampedBatches.{carries_are_batches};
    ghost use Rattle.oram_client.specs.StampedStreams.{StreamsStamped};
    ghost use Rattle.oram_client.specs.StreamedBatches.{stamped_counts, stamped_ends};
    ghost use Rattle.oram_client.specs.Dialer.{Destination};
    ghost use Rattle.oram_stamps.specs.Known.{kept};
    ghost use Rattle.oram_stamps.specs.Note.{note_text};
    ghost use Rattle.oram_stamps.specs.Stamps.{mask};
    ghost use Rattle.oram_sockets.specs.Duplex.{contents_of, remaining_of};

    type Line = TimedLink<Duplex<R, Connection<R::Stream>>, R>;

    ghost opens = { λ d _ line e. Opens (remaining_of R.Stream.remaining) (contents_of R.Stream.contents) d line e };

    ghost fails = { λ d _ trouble e. FailsToOpen (remaining_of R.Stream.remaining) (contents_of R.Stream.contents) d trouble × (e ≡ d) };

    ghost carries = { λ d line bodies came exchanges e line'. CarriesStamped (remaining_of R.Stream.remaining) (contents_of R.Stream.contents) d line bodies came exchanges e line' };

    ghost asks = { λ d line bodies line'. AsksPlainly (contents_of R.Stream.contents) d line bodies line' };

    ghost streams = { λ d line bodies answers progress e line'. StreamsStamped (remaining_of R.Stream.remaining) (contents_of R.Stream.contents) d line bodies answers progress e line' };

    ghost notes = { λ d. note_text d.known };

    ghost learns = { λ d check e. e ≡ record d { known = kept d.known (mask d.key check) } };

    ghost are_batches = { λ d e line line' bodies came exchanges h. carries_are_batches (remaining_of R.Stream.remaining) (contents_of R.Stream.contents) d e line line' bodies came exchanges h };

    ghost counts_answers = { λ d e line line' bodies answers progress h. stamped_counts (remaining_of R.Stream.remaining) (contents_of R.Stream.contents) d e line line' bodies answers progress h };

    ghost ends_carried = { λ d e line line' bodies answers progress h count.
        stamped_ends (remaining_of R.Stream.remaining) (contents_of R.Stream.contents) d e line line' bodies answers progress h count };

    // The model knows neither how long a pause was nor what the clock reads.
    ghost pauses = { λ d _ e. e ≡ d };

    ghost reads = { λ d _ e. e ≡ d };

    fn dial(
        &mut self,
        alloc: Global,
        limits: Limits,
    ) -> Result<TimedLink<Duplex<R, Connection<R::Stream>>, R>, Trouble> {
        let begin = self.now();
        let connecting = Duration::from_millis(limits.opening.min(LONGEST_CONNECTING));
        let (reader, writer) = connect_to(&self.rt, self.address.as_str(), connecting)?;
        let both = reader.try_clone()?;
        let left = limits
            .opening
            .saturating_sub(elapsed(begin, self.now()))
            .max(1);
        limit_silence(&both, Duration::from_millis(left.min(limits.silence)))?;
        let lengths = self.lengths.copy();
        match greet(
            alloc,
            Duplex::new(self.rt, alloc, reader),
            Duplex::new(self.rt, alloc, writer),
            self.rt,
            left,
            lengths,
            &self.identity,
        ) {
            Ok(mut line) => match self.compare(alloc, &mut line, &both, limits.silence) {
                Ok(()) => {
                    line.set_limit(limits.batch);
                    Ok(line)
                }
                Err(trouble) => Err(trouble),
            },
            Err(trouble) => Err(trouble),
        }
    }

    fn carry(
        &mut self,
        alloc: Global,
        line: &mut TimedLink<Duplex<R, Connection<R::Stream>>, R>,
        first: &[Vec<u8>],
        last: &[Vec<u8>],
    ) -> Result<Vec<Vec<u8>>, Trouble> {
        if !first.is_empty() || !self.known.is_settled() {
            return self.carry_stamped(alloc, line, first, last);
        }
        match line.call_all(alloc, first, last) {
            Ok(answers) => Ok(answers),
            Err(fault) => Err(Trouble::OutOfReach(fault)),
        }
    }

    /// Sends nothing if the next batch has to go between its stamps, since its caller doesn't receive the answers to them.
    fn ask(
        &self,
        alloc: Global,
        mut line: TimedLink<Duplex<R, Connection<R::Stream>>, R>,
        bodies: &[Vec<u8>],
    ) -> Sending<TimedLink<Duplex<R, Connection<R::Stream>>, R>> {
        if !self.known.is_settled() {
            return Sending::Unsent(line);
        }
        match line.ask(alloc, bodies) {
            Ok(()) => Sending::Sent(line),
            Err(fault) => Sending::Failed(Trouble::OutOfReach(fault)),
        }
    }

    fn hear(
        &self,
        alloc: Global,
        line: &mut TimedLink<Duplex<R, Connection<R::Stream>>, R>,
        bodies: &[Vec<u8>],
    ) -> Result<Vec<Vec<u8>>, Trouble> {
        match line.hear(alloc, bodies) {
            Ok(answers) => Ok(answers),
            Err(fault) => Err(Trouble::OutOfReach(fault)),
        }
    }

    fn begin(
        &mut self,
        alloc: Global,
        line: &mut TimedLink<Duplex<R, Connection<R::Stream>>, R>,
        first: &[Vec<u8>],
        last: &[Vec<u8>],
    ) -> Result<Progress, Trouble> {
        let is_plain = first.is_empty() && self.known.is_settled();
        if !is_plain {
            return self.begin_stamped(alloc, line, first, last);
        }
        match line.begin_between(alloc, &[], first, &[], last) {
            Ok(()) => Ok(Progress {
                left: first.len() + last.len(),
                no_room: false,
                begun: None,
                done: None,
            }),
            Err(fault) => Err(Trouble::OutOfReach(fault)),
        }
    }

    fn next_answer(
        &mut self,
        alloc: Global,
        line: &mut TimedLink<Duplex<R, Connection<R::Stream>>, R>,
        progress: &mut Progress,
        body: &[u8],
    ) -> Result<Vec<u8>, Trouble> {
        self.next_stamped(alloc, line, progress, body)
    }

    fn note(&self, alloc: Global) -> Result<Vec<u8>, AllocError> {
        encode_note(alloc, &self.known)
    }

    fn learn_kept(&mut self, check: u64) {
        self.known.keep(masked(&self.key, check));
    }

    fn pause(&mut self, milliseconds: u64) {
        thread::sleep(&self.rt, Duration::from_millis(milliseconds));
    }

    fn now(&mut self) -> Option<u64> {
        milliseconds(&self.rt)
    }
}

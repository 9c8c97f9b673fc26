//! A connection whose batches have a time limit.
ghost use Rattle.std.specs.Prelude.{◌≡◌, ◌++◌, [], List, Err, IfOk, IfErr, OnOk};
ghost use Rattle.oram_link_laws.specs.Runs.{Exchange};
ghost use Rattle.oram_rounds.specs.Batches.{batch_outcome_of, texts};
ghost use Rattle.oram_pipeline.specs.Pipelines.{EndsBatch};
ghost use Rattle.oram_client.specs.StreamBatches.{StreamAsk, StreamBatch, Streams, connection};

use crate::answer_lengths::AnswerLengths;
use crate::stream_batches::StreamBatches;
use oram_rounds::{BatchLink, LinkRecords};
use oram_session::LinkFault;
use oram_sockets::WriteDuplex;
use std::alloc::{AllocError, Global};
use std::cell::Cell;
use std::io;
use std::io::{ErrorKind, Read, Write};
use std::marker::Model;
use std::rc::Rc;
use std::rt::Clock;

/// Returns the milliseconds since some fixed moment, by a monotonic clock; `None` if the clock can't be read.
pub(crate) fn milliseconds<C: Clock>(clock: &C) -> Option<u64> {
    let since_start = clock.monotonic().ok()?;
    u64::try_from(since_start.as_millis()).ok()
}

/// One half of a connection. Once the time of a batch is over, reads and writes fail.
#[derive(Drop)]
pub(crate) struct Timed<S, C> {
    stream: S,
    clock: C,
    /// When the time of the batch ends, in milliseconds by the clock.
    ends: Rc<Cell<u64>>,
}

impl<S, C> Model for Timed<S, C> {
    /// Modelled by the stream alone.
    ghost Value = { S };

    ghost view = { λ t. t.stream };
}

impl<S, C: Clock> Timed<S, C> {
    fn check_time(&self) -> io::Result<()> {
        match milliseconds(&self.clock) {
            Some(now) if now > self.ends.get() => Err(io::Error::from(ErrorKind::TimedOut)),
            _ => Ok(()),
        }
    }
}

impl<S: Read, C: Clock> Read for Timed<S, C> {
    ghost remaining = { λ t. S.remaining t };

    fn read(&mut self, buf: &mut [u8]) -> io::Result<usize> {
        match self.check_time() {
            Ok(()) => self.stream.read(buf),
            Err(error) => Err(error),
        }
    }
}

impl<S: Write, C: Clock> Write for Timed<S, C> {
    ghost contents = { λ t. S.contents t };

    fn write(&mut self, buf: &[u8]) -> io::Result<usize> {
        match self.check_time() {
            Ok(()) => self.stream.write(buf),
            Err(error) => Err(error),
        }
    }

    fn flush(&mut self) -> io::Result<()> {
        self.stream.flush()
    }
}

impl<S: Read + WriteDuplex<S>, C: Clock> WriteDuplex<Timed<S, C>> for Timed<S, C> {
    fn arrived<'r>(&self, reader: &'r Timed<S, C>) -> &'r [u8] {
        self.stream.arrived(&reader.stream)
    }

    fn write_duplex(
        &mut self,
        reader: &mut Timed<S, C>,
        bytes: &[u8],
        room: usize,
    ) -> io::Result<Option<usize>> {
        match self.check_time() {
            Ok(()) => self.stream.write_duplex(&mut reader.stream, bytes, room),
            Err(error) => Err(error),
        }
    }
}

/// Batches over both halves of a connection. Each batch has a time limit, by the clock from its beginning.
///
/// So a host that sends its answers byte by byte can't hold a batch for longer than the limit, except for the time that it may be
/// silent before the last byte: the sockets' own timeouts say for how long a read or a write may move no byte. The greeting is the
/// first batch. After it, [`TimedLink::set_limit`] gives the others more time, since they are longer.
#[derive(Drop)]
pub struct TimedLink<S, C> {
    line: StreamBatches<Timed<S, C>, Timed<S, C>>,
    clock: C,
    /// How long a batch may take, in milliseconds.
    limit: u64,
    ends: Rc<Cell<u64>>,
}

impl<S, C> Model for TimedLink<S, C> {
    ghost use Rattle.oram_client.specs.StreamBatches.{Connection};

    ghost Value = { Connection S S };

    ghost view = { λ l. l.line };
}

impl<S, C: Copy> TimedLink<S, C> {
    /// Makes a link over the two halves of a connection, which takes no answer that is longer than `lengths` allows. Each batch may
    /// take `limit` milliseconds, and fails after that. Fails if memory runs out.
    pub fn new(
        alloc: Global,
        reader: S,
        writer: S,
        clock: C,
        limit: u64,
        lengths: AnswerLengths,
    ) -> Result<TimedLink<S, C>, LinkFault>
    where
        S: Drop,
        ensures ok { IfOk result (λ l. l ≡ connection reader writer lengths) }
        ensures err { IfErr result (λ fault. fault ≡ LinkFault.OutOfMemory) }
    {
        let Ok(ends) = Rc::new(alloc, Cell::new(u64::MAX)) else {
            return Err(LinkFault::OutOfMemory);
        };
        let reader = Timed {
            stream: reader,
            clock,
            ends: ends.clone()?,
        };
        let writer = Timed {
            stream: writer,
            clock,
            ends: ends.clone()?,
        };
        Ok(TimedLink {
            line: StreamBatches::new(alloc, reader, writer, lengths),
            clock,
            limit,
            ends,
        })
    }

    /// Lets each batch from now on take `limit` milliseconds.
    pub fn set_limit(&mut self, limit: u64)
        ensures { self.new ≡ self.old }
    {
        self.limit = limit;
    }
}

impl<S, C: Clock> TimedLink<S, C> {
    /// Begins the time of a batch.
    fn begin_batch(&mut self)
        ensures { self.new ≡ self.old }
    {
        let ends = match milliseconds(&self.clock) {
            Some(now) => now.saturating_add(self.limit),
            None => u64::MAX,
        };
        self.ends.set(ends);
    }
}

impl<S: Read + WriteDuplex<S>, C: Clock> TimedLink<S, C> {
    /// Sends a batch as [`BatchLink::call_all`] does: the bodies of all four lists, in this order.
    pub fn call_between(
        &mut self,
        alloc: Global,
        before: &[Vec<u8>],
        first: &[Vec<u8>],
        between: &[Vec<u8>],
        last: &[Vec<u8>],
    ) -> Result<Vec<Vec<u8>>, LinkFault>
        ensures { (exchanges : List Exchange) × StreamBatch S.remaining S.contents self.old
            ((texts before.now ++ texts first.now) ++ (texts between.now ++ texts last.now)) (batch_outcome_of result) exchanges self.new }
    {
        self.begin_batch();
        self.line.call_between(alloc, before, first, between, last)
    }

    /// Sends a batch as [`StreamBatches::begin_between`] does. Its time runs from now on until its last answer is read, also while the
    /// caller works between two answers.
    pub fn begin_between(
        &mut self,
        alloc: Global,
        before: &[Vec<u8>],
        first: &[Vec<u8>],
        between: &[Vec<u8>],
        last: &[Vec<u8>],
    ) -> Result<(), LinkFault>
        ensures ok { OnOk result (Streams S.remaining S.contents self.old
            ((texts before.now ++ texts first.now) ++ (texts between.now ++ texts last.now)) [] self.new) }
        ensures err { IfErr result (λ fault. (exchanges : List Exchange) × StreamBatch S.remaining S.contents self.old
            ((texts before.now ++ texts first.now) ++ (texts between.now ++ texts last.now)) (Err fault) exchanges self.new) }
    {
        self.begin_batch();
        self.line.begin_between(alloc, before, first, between, last)
    }
}

impl<S: Read + Write, C: Clock> TimedLink<S, C> {
    /// Sends the messages of a batch and reads nothing, as [`StreamBatches::ask`] does. It may take as long as a batch.
    pub fn ask(&mut self, alloc: Global, bodies: &[Vec<u8>]) -> Result<(), LinkFault>
        ensures ok { OnOk result (StreamAsk S.contents self.old (texts bodies.now) self.new) }
        ensures err { IfErr result (λ fault. (exchanges : List Exchange) × StreamBatch S.remaining S.contents self.old (texts bodies.now) (Err fault) exchanges self.new) }
    {
        self.begin_batch();
        self.line.ask(alloc, bodies)
    }

    /// Reads the answers to the messages that [`ask`](TimedLink::ask) has just sent. It may take as long as a batch, and the time since
    /// they were sent doesn't count.
    pub fn hear(&mut self, alloc: Global, bodies: &[Vec<u8>]) -> Result<Vec<Vec<u8>>, LinkFault>
        ensures { EndsBatch (StreamBatch S.remaining S.contents) (StreamAsk S.contents) (texts bodies.now) self.old (batch_outcome_of result) self.new }
    {
        self.begin_batch();
        self.line.hear(alloc, bodies)
    }
}

impl<S: Read + WriteDuplex<S>, C: Clock> BatchLink for TimedLink<S, C> {
    ghost use Rattle.std.specs.Prelude.{◌≡◌, [], ⊤};
    ghost use Rattle.std.proofs.Common.{inl};
    ghost use Rattle.oram_client.specs.StreamBatches.{StreamBatch, Streams};
    ghost use Rattle.oram_client.specs.BatchExchanges.{streams_are_batches, streams_end};

    ghost batches = { λ l bodies o exchanges m. StreamBatch S.remaining S.contents l bodies o exchanges m };

    ghost streams = { λ l bodies answers m. Streams S.remaining S.contents l bodies answers m };

    ghost notes = { λ l. record { text = []; records = [] } };

    ghost tells = { λ l old. ⊤ };

    ghost learns = { λ l check m. m ≡ l };

    fn call_all(
        &mut self,
        alloc: Global,
        first: &[Vec<u8>],
        last: &[Vec<u8>],
    ) -> Result<Vec<Vec<u8>>, LinkFault> {
        self.begin_batch();
        self.line.call_all(alloc, first, last)
    }

    fn begin(&mut self, alloc: Global, first: &[Vec<u8>], last: &[Vec<u8>]) -> bool {
        self.begin_between(alloc, &[], first, &[], last).is_ok()
    }

    /// Reads the next frame, within the time of the batch that was begun.
    fn next_answer(&mut self, alloc: Global, body: &[u8]) -> Result<Vec<u8>, LinkFault> {
        self.line.next_answer(alloc, body)
    }

    /// Returns no bytes: this link has nothing to remember.
    fn note(&self, alloc: Global) -> Result<Vec<u8>, AllocError> {
        Ok(Vec::new(alloc))
    }

    fn records(&self) -> LinkRecords<'_> {
        LinkRecords::none()
    }

    fn learn_kept(&mut self, _check: u64) {}

    ghost are_batches = { λ l m bodies o exchanges h. streams_are_batches S.remaining S.contents l m bodies o exchanges h };

    ghost ends_as_batch = { λ l m bodies answers h count. streams_end S.remaining S.contents l m bodies answers h count };

    ghost learning_sends_nothing = { λ l m check same. inl same };

    ghost batches_are_told = { λ l m bodies o exchanges old some h told. tt };

    ghost learning_counts_anew = { λ l m check same. tt };
}

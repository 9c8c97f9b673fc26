//! A link over a reader and a writer.
ghost use Rattle.std.specs.Prelude.{◌≡◌};
ghost use Rattle.oram_session.specs.Outcome.{outcome_of};
ghost use Rattle.oram_session.specs.Streams.{Asks, is_closed};

use super::frames::{receive, send};
use crate::link::{Link, LinkFault};
use std::alloc::Global;
use std::io::{Read, Write};
use std::marker::Model;

/// A link to a host at the other end of a reader and a writer. A message is one frame, written in one piece and
/// flushed, and the answer is one frame too. Any fault closes the link: from then on each call answers `Closed`, and
/// neither reads nor writes.
#[derive(Debug, Drop)]
pub struct StreamLink<R, W> {
    reader: R,
    writer: W,
    faults: u64,
}

impl<R, W> Model for StreamLink<R, W> {
    ghost use Rattle.oram_session.specs.Streams.{ToStreams};

    ghost Value = { ToStreams R W };

    ghost view = { λ l. record { reader = l.reader; writer = l.writer; faults = l.faults } };
}

impl<R, W> StreamLink<R, W> {
    /// Makes a link that sends messages to `writer` and receives answers from `reader`. Allocates nothing.
    pub fn new(_alloc: Global, reader: R, writer: W) -> StreamLink<R, W>
        ensures { result ≡ record { reader = reader; writer = writer; faults = 0 } }
    {
        StreamLink {
            reader,
            writer,
            faults: 0,
        }
    }

    /// Returns whether a fault has closed the link.
    fn is_closed(&self) -> bool
        ensures { result ≡ is_closed self.now }
    {
        self.faults > 0
    }
}

/// Sends a message and receives its answer.
fn ask<R: Read, W: Write>(
    alloc: Global,
    reader: &mut R,
    writer: &mut W,
    body: &[u8],
) -> Result<Vec<u8>, LinkFault>
    ensures { Asks R.remaining W.contents reader.old writer.old body.now (outcome_of result) reader.new writer.new }
{
    send(alloc, writer, body)?;
    receive(alloc, reader)
}

impl<R: Read, W: Write> Link for StreamLink<R, W> {
    ghost use Rattle.oram_session.specs.Streams.{StreamCall};

    ghost calls = { λ l body outcome m. StreamCall R.remaining W.contents l body outcome m };

    ghost fault_count = { λ l. l.faults };

    fn call(&mut self, alloc: Global, body: &[u8]) -> Result<Vec<u8>, LinkFault> {
        if self.is_closed() {
            self.faults = self.faults.saturating_add(1);
            return Err(LinkFault::Closed);
        }
        let outcome = ask(alloc, &mut self.reader, &mut self.writer, body);
        if outcome.is_err() {
            self.faults = self.faults.saturating_add(1);
        }
        outcome
    }

    fn faults(&self) -> u64 {
        self.faults
    }

    ghost counts = { λ l m body outcome h. h.faults };
}

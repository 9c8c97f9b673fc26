//! Marks whether a connection is in the middle of a message: some of it was read, and its answer isn't flushed yet.

use std::io;
use std::io::{BufReader, Read, Write};

/// Is notified when a message of a connection begins, and when its answer is sent.
pub trait Marks {
    /// Is called when bytes of a message were read.
    fn within_message(&self);

    /// Is called when the answer to a message was flushed.
    fn answered(&self);
}

/// Reads messages, and marks that one has begun. It has no buffer itself, but reads from one. So nobody asks it for a byte that has
/// yet to arrive before the answers to all whole messages that it gave are flushed.
#[derive(Drop)]
pub struct MarkedReader<'a, R, M> {
    reader: R,
    marks: &'a M,
}

impl<'a, R: Drop, M> MarkedReader<'a, R, M> {
    pub fn new(reader: R, marks: &'a M) -> MarkedReader<'a, R, M> {
        MarkedReader { reader, marks }
    }
}

/// A reader that shows which bytes it has received and not handed out yet. These only decide which messages are answered together.
pub trait Arrived {
    /// Returns bytes that were received and weren't read yet, in their order. There may be more than these.
    fn arrived(&self) -> &[u8];
}

/// What a buffered reader has in its buffer.
impl<R: Read> Arrived for BufReader<R> {
    fn arrived(&self) -> &[u8] {
        self.buffer()
    }
}

impl<'a, R: Arrived, M> Arrived for MarkedReader<'a, R, M> {
    fn arrived(&self) -> &[u8] {
        self.reader.arrived()
    }
}

impl<'a, R: Read, M: Marks> Read for MarkedReader<'a, R, M> {
    ghost remaining = { λ r. R.remaining r.reader };

    fn read(&mut self, buf: &mut [u8]) -> io::Result<usize> {
        let count = self.reader.read(buf)?;
        if count > 0 {
            self.marks.within_message();
        }
        Ok(count)
    }
}

/// Writes answers, and marks when each of them is flushed.
#[derive(Drop)]
pub struct MarkedWriter<'a, W, M> {
    writer: W,
    marks: &'a M,
}

impl<'a, W: Drop, M> MarkedWriter<'a, W, M> {
    pub fn new(writer: W, marks: &'a M) -> MarkedWriter<'a, W, M> {
        MarkedWriter { writer, marks }
    }
}

impl<'a, W: Write, M: Marks> Write for MarkedWriter<'a, W, M> {
    ghost contents = { λ w. W.contents w.writer };

    fn write(&mut self, buf: &[u8]) -> io::Result<usize> {
        self.writer.write(buf)
    }

    fn flush(&mut self) -> io::Result<()> {
        self.writer.flush()?;
        self.marks.answered();
        Ok(())
    }
}

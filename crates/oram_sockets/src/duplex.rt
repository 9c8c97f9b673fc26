//! Connections over which both sides send at once.
//!
//! A side that only writes until all is written waits for ever if the other side does the same: each waits for the other to read. So
//! a [`Duplex`] takes in what arrives while it waits to write.

ghost use Rattle.std.specs.Prelude.{◌≡◌, ◌≤◌, [], length, IfOk, IfSome};
ghost use Rattle.std.specs.Io.KnownBytes.{Keeps};
ghost use Rattle.oram_sockets.specs.Duplex.{StepAppends, duplex_remaining};

use crate::watched::CONNECTION;
use mio::unix::SourceFd;
use mio::{Events, Interest, Poll};
use std::alloc::Global;
use std::io;
use std::io::{Error, ErrorKind, Read, Write};
use std::marker::Model;
use std::net::{Net, OpenStream};
use std::os::fd::AsRawFd;
use std::rt::Clock;
use std::time::Instant;

/// The most bytes that are taken in by one read.
const MOST_AT_ONCE: usize = 1 << 16;

/// A writer for which the other side never has to wait to write: while it waits to write, it takes in what arrives at a reader.
pub trait WriteDuplex<R: Read>: Write {
    /// Returns bytes that were taken in for `reader` and weren't read yet, in their order. More may have arrived than these. They only
    /// decide whether it is worth while to go on writing before the next read.
    fn arrived<'r>(&self, reader: &'r R) -> &'r [u8];

    /// Writes some of the bytes, and returns how many. If none can be written now, takes in what has arrived for `reader`, or waits
    /// until one of these can be done, and returns `None`: then call it again. It takes in no more once `room` bytes are there that
    /// weren't read yet.
    fn write_duplex(
        &mut self,
        reader: &mut R,
        bytes: &[u8],
        room: usize,
    ) -> io::Result<Option<usize>>
        ensures bound { IfOk result (λ step. IfSome step (λ n. n ≤ length bytes.now)) }
        ensures wrote { StepAppends (Self.contents self.old) (Self.contents self.new) result bytes.now }
        ensures unread { Keeps (R.remaining reader.old) (R.remaining reader.new) };
}

/// One direction of a connection. What has arrived for a reader may be in its memory already.
#[derive(Drop)]
pub struct Duplex<R, S> {
    rt: R,
    alloc: Global,
    stream: S,
    arrived: Vec<u8>,
    /// How many of the bytes that have arrived were read.
    taken: usize,
}

impl<R, S> Model for Duplex<R, S> {
    ghost use Rattle.std.specs.Prelude.{◌≤◌, drop, length};
    ghost use Rattle.oram_sockets.specs.Duplex.{DuplexStream};

    ghost Value = { DuplexStream S };

    ghost view = { λ d. record { stream = d.stream; unread = drop d.taken d.arrived.items } };

    ghost invariant = { λ d. d.taken ≤ length d.arrived.items };
}

impl<R, S> Duplex<R, S> {
    /// Makes the reader or the writer of a connection. Allocates nothing.
    pub fn new(rt: R, alloc: Global, stream: S) -> Duplex<R, S>
        ensures { result ≡ record { stream = stream; unread = [] } }
    {
        Duplex {
            rt,
            alloc,
            stream,
            arrived: Vec::new(alloc),
            taken: 0,
        }
    }
}

impl<R, S> Duplex<R, S> {
    /// Returns how many bytes have arrived and weren't read yet.
    fn unread(&self) -> usize
        ensures { result ≡ length self.now.unread }
    {
        self.arrived.len() - self.taken
    }

    /// Makes room once all that has arrived was read.
    fn forget_taken(&mut self)
        ensures { self.new ≡ self.old }
    {
        if self.unread() == 0 {
            self.arrived.clear();
            self.taken = 0;
        }
    }
}

impl<R, S: Read> Duplex<R, S> {
    /// Takes in some of what has arrived, if less than `room` bytes are there. Returns whether it took in any. Fails if the other side
    /// sends nothing more.
    fn take_in(&mut self, room: usize) -> io::Result<bool>
        ensures { Keeps (duplex_remaining S.remaining self.old) (duplex_remaining S.remaining self.new) }
    {
        self.forget_taken();
        let before = self.arrived.len();
        let more = room.saturating_sub(self.unread()).min(MOST_AT_ONCE);
        if more == 0 {
            return Ok(false);
        }
        self.arrived.resize(before + more, 0)?;
        match self.stream.read(&mut self.arrived[before..]) {
            Ok(0) => {
                self.arrived.truncate(before);
                Err(Error::from(ErrorKind::UnexpectedEof))
            }
            Ok(count) => {
                self.arrived.truncate(before + count);
                Ok(true)
            }
            Err(error) => {
                self.arrived.truncate(before);
                if error.kind() == ErrorKind::WouldBlock {
                    return Ok(false);
                }
                Err(error)
            }
        }
    }
}

impl<R, S: Read> Read for Duplex<R, S> {
    ghost use Rattle.oram_sockets.specs.Duplex.{duplex_remaining};

    ghost remaining = { λ d. duplex_remaining S.remaining d };

    fn read(&mut self, buf: &mut [u8]) -> io::Result<usize> {
        if self.unread() == 0 {
            return self.stream.read(buf);
        }
        let count = buf.len().min(self.unread());
        buf[..count].copy_from_slice(&self.arrived[self.taken..self.taken + count]);
        self.taken += count;
        Ok(count)
    }
}

impl<R, S: Write> Write for Duplex<R, S> {
    ghost contents = { λ d. S.contents d.stream };

    fn write(&mut self, buf: &[u8]) -> io::Result<usize> {
        self.stream.write(buf)
    }

    fn flush(&mut self) -> io::Result<()> {
        self.stream.flush()
    }
}

impl<R: Net + Clock, S: Read + Write + OpenStream + AsRawFd> Duplex<R, S> {
    /// Waits until some bytes can be written, or, if `reads`, until some arrive. Fails if neither comes within the time for which the
    /// other side may be silent.
    fn wait(&self, reads: bool) -> io::Result<()> {
        let limit = self.stream.write_timeout()?;
        let until = match limit {
            None => None,
            Some(limit) => Instant::now(&self.rt)?.checked_add(limit),
        };
        let interest = if reads {
            Interest::WRITABLE.add(Interest::READABLE)
        } else {
            Interest::WRITABLE
        };
        let mut poll = Poll::new(&self.rt)?;
        let mut events = Events::with_capacity(self.alloc, 1)?;
        let socket = self.stream.as_raw_fd();
        poll.registry()
            .register(&mut SourceFd(&socket), CONNECTION, interest)?;
        poll.poll(&mut events, limit)?;
        match until {
            // A signal ends a wait, too, and then nothing has come.
            Some(until) if events.iter().next().is_none() && Instant::now(&self.rt)? >= until => {
                Err(Error::from(ErrorKind::TimedOut))
            }
            _ => Ok(()),
        }
    }

    /// Does what [`WriteDuplex::write_duplex`] does, while the socket doesn't block.
    fn write_or_take_in(
        &mut self,
        reader: &mut Duplex<R, S>,
        bytes: &[u8],
        room: usize,
    ) -> io::Result<Option<usize>>
        ensures bound { IfOk result (λ step. IfSome step (λ n. n ≤ length bytes.now)) }
        ensures wrote { StepAppends (S.contents self.old.stream) (S.contents self.new.stream) result bytes.now }
        ensures unread { Keeps (duplex_remaining S.remaining reader.old) (duplex_remaining S.remaining reader.new) }
    {
        match self.stream.write(bytes) {
            Ok(count) => return Ok(Some(count)),
            Err(error) if error.kind() == ErrorKind::WouldBlock => {}
            Err(error) => return Err(error),
        }
        if !reader.take_in(room)? {
            self.wait(reader.unread() < room)?;
        }
        Ok(None)
    }
}

impl<R: Net + Clock, S: Read + Write + OpenStream + AsRawFd> WriteDuplex<Duplex<R, S>>
    for Duplex<R, S> {
    fn arrived<'r>(&self, reader: &'r Duplex<R, S>) -> &'r [u8] {
        &reader.arrived[reader.taken..]
    }

    fn write_duplex(
        &mut self,
        reader: &mut Duplex<R, S>,
        bytes: &[u8],
        room: usize,
    ) -> io::Result<Option<usize>> {
        self.stream.set_nonblocking(true)?;
        let step = self.write_or_take_in(reader, bytes, room);
        // If this fails, the next read that has to wait does.
        let _blocks = self.stream.set_nonblocking(false);
        step
    }
}

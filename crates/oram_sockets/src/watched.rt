//! A connection that is served while its listener is watched.
//!
//! One thread serves everybody. So that a silent connection keeps nobody else out, its socket doesn't block: if there
//! is nothing to read, or no room to write, the thread waits for the connection and for the listener at once.

use mio::unix::SourceFd;
use mio::{Events, Interest, Poll, Token};
use std::alloc::Global;
use std::io;
use std::io::{BufReader, BufWriter, Error, ErrorKind, Read, Write};
use std::net::{Net, OpenStream};
use std::os::fd::{AsRawFd, RawFd};
use std::rt::Clock;
use std::time::{Duration, Instant};

pub(crate) const CONNECTION: Token = Token(0);

pub(crate) const LISTENER: Token = Token(1);

/// What a connection waits for.
#[derive(Clone, Copy, Debug, PartialEq, Eq)]
pub enum Direction {
    Reading,
    Writing,
}

/// Decides what happens while the other side of a connection lets the server wait.
pub trait Attendant {
    /// Returns how long the other side may let this server wait now, or `None` if there is no limit.
    fn limit(&self, direction: Direction) -> io::Result<Option<Duration>>;

    /// Is called when the other side has let this server wait for longer than that. Returns the error with which the
    /// connection ends.
    fn waited_out(&self) -> Error;

    /// Is called when somebody else has connected to the listener. An error ends the connection.
    fn others_wait(&self) -> io::Result<()>;
}

/// One direction of a connection.
#[derive(Drop)]
pub struct Watched<'a, R, S, A> {
    rt: &'a R,
    stream: S,
    direction: Direction,
    poll: Poll,
    events: Events,
    /// Whether somebody waits at the listener and the attendant hasn't been told yet.
    others_wait: bool,
    attendant: &'a A,
}

impl<'a, R: Net + Clock, S: AsRawFd + Drop, A: Attendant> Watched<'a, R, S, A> {
    fn new(
        rt: &'a R,
        alloc: Global,
        stream: S,
        direction: Direction,
        listener: RawFd,
        attendant: &'a A,
    ) -> io::Result<Watched<'a, R, S, A>> {
        let interest = match direction {
            Direction::Reading => Interest::READABLE,
            Direction::Writing => Interest::WRITABLE,
        };
        let poll = Poll::new(rt)?;
        let connection = stream.as_raw_fd();
        poll.registry()
            .register(&mut SourceFd(&connection), CONNECTION, interest)?;
        poll.registry()
            .register(&mut SourceFd(&listener), LISTENER, Interest::READABLE)?;
        Ok(Watched {
            rt,
            stream,
            direction,
            poll,
            events: Events::with_capacity(alloc, 2)?,
            others_wait: false,
            attendant,
        })
    }

    /// Returns how long is left until a time. If it has passed, fails with the attendant's error.
    fn left(&self, until: Option<Instant>) -> io::Result<Option<Duration>> {
        let Some(until) = until else {
            return Ok(None);
        };
        let left = until.saturating_duration_since(Instant::now(self.rt)?);
        if left.is_zero() {
            return Err(self.attendant.waited_out());
        }
        Ok(Some(left))
    }

    /// Returns whether an event of this source has come.
    fn has_come(&self, source: Token) -> bool {
        self.events.iter().any(|event| event.token() == source)
    }

    /// Waits for an event until a time, and returns whether the connection can go on.
    ///
    /// The connection comes first: if it has ended, or brings a message, nobody needs to be told of those who wait.
    fn wait_until(&mut self, until: Option<Instant>) -> io::Result<bool> {
        let left = if self.others_wait {
            Some(Duration::from_secs(0))
        } else {
            self.left(until)?
        };
        self.poll.poll(&mut self.events, left)?;
        self.others_wait |= self.has_come(LISTENER);
        if self.has_come(CONNECTION) {
            return Ok(true);
        }
        if self.others_wait {
            self.others_wait = false;
            self.attendant.others_wait()?;
        }
        Ok(false)
    }

    /// Waits until the connection can go on.
    fn wait(&mut self) -> io::Result<()> {
        let until = match self.attendant.limit(self.direction)? {
            None => None,
            Some(limit) => Instant::now(self.rt)?.checked_add(limit),
        };
        for _ in 0..u64::MAX {
            if self.wait_until(until)? {
                return Ok(());
            }
        }
        Err(self.attendant.waited_out())
    }
}

impl<'a, R: Net + Clock, S: Read + AsRawFd + Drop, A: Attendant> Read for Watched<'a, R, S, A> {
    fn read(&mut self, buf: &mut [u8]) -> io::Result<usize> {
        for _ in 0..u64::MAX {
            match self.stream.read(buf) {
                Err(error) if error.kind() == ErrorKind::WouldBlock => self.wait()?,
                done => return done,
            }
        }
        Err(self.attendant.waited_out())
    }
}

impl<'a, R: Net + Clock, S: Write + AsRawFd + Drop, A: Attendant> Write for Watched<'a, R, S, A> {
    fn write(&mut self, buf: &[u8]) -> io::Result<usize> {
        for _ in 0..u64::MAX {
            match self.stream.write(buf) {
                Err(error) if error.kind() == ErrorKind::WouldBlock => self.wait()?,
                done => return done,
            }
        }
        Err(self.attendant.waited_out())
    }

    fn flush(&mut self) -> io::Result<()> {
        self.stream.flush()
    }
}

/// The buffered reader and the buffered writer of a connection.
pub type Halves<'a, R, S, A> = (
    BufReader<Watched<'a, R, S, A>>,
    BufWriter<Watched<'a, R, S, A>>,
);

/// Returns both directions of a connection that came from this listener. The reader takes up to `room` bytes from its socket at once.
pub fn watch<'a, R: Net + Clock, S: Read + Write + OpenStream + AsRawFd + Drop, A: Attendant>(
    rt: &'a R,
    alloc: Global,
    stream: S,
    listener: RawFd,
    attendant: &'a A,
    room: usize,
) -> io::Result<Halves<'a, R, S, A>> {
    stream.set_nodelay(true)?;
    stream.set_nonblocking(true)?;
    let writer = stream.try_clone()?;
    let reader = Watched::new(rt, alloc, stream, Direction::Reading, listener, attendant)?;
    let writer = Watched::new(rt, alloc, writer, Direction::Writing, listener, attendant)?;
    Ok((
        BufReader::with_capacity(alloc, room, reader)?,
        BufWriter::new(alloc, writer)?,
    ))
}
